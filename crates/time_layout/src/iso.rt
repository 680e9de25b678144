// Times of RFC 3339.
ghost use Rattle.std.specs.Prelude.{◌≡◌, ◌≤◌, ◌<◌, ◌+◌, ◌∷◌, [], List, length, pos, IfSome, Ok};
ghost use Rattle.time_layout.specs.Atoms.{number, and_then};
ghost use Rattle.time_layout.specs.Instant.{IsTimeOf};
ghost use Rattle.time_layout.specs.Iso.{rfc3339_parts, plain_parts, has_marks};
ghost use Rattle.time_layout.specs.Parts.{layout_read, parts_read, nothing_said, whole};
ghost use Rattle.time_layout.specs.declared.parts.Part.{Part as part};
ghost use Rattle.time_layout.specs.declared.parts.Part.TheVariants.{PointFraction, Zone};
ghost use Rattle.time_layout.specs.declared.parts.Colon.TheVariants.{Required};

use crate::TimeFault;
use crate::atoms::{Reading, number_at, pair_at, read_optional_fraction, read_zone, stands};
use crate::calendar::instant_of;
use crate::parts::{Clock, Colon, Part, Said, read_layout};

/// The nanoseconds from 1970-01-01T00:00:00Z to a time of [RFC 3339](https://www.rfc-editor.org/rfc/rfc3339),
/// section 5.6, as `2015-08-05T21:58:59.693+02:00`. `T` and `Z` stand in upper case, a fraction has at most so many
/// digits, and there is no second 60.
///
/// `Mismatch` at the first place of every other text that can't be read; then `OutOfRange` exactly where the calendar
/// doesn't have the day or the instant doesn't fit.
pub fn rfc3339(text: &str, digits: u8) -> Result<u64, TimeFault>
    requires some { 1 ≤ digits }
    requires at_most_nine { digits ≤ 9 }
    ensures { IsTimeOf (layout_read (rfc3339_parts digits) (pos 0) text.now) result }
{
    let (said, _) = read_whole(digits, text.as_bytes())?;
    instant_of(said)
}

/// A text of these parts. Nearly all have the date and the time of day of `read_plain`, and are spared a walk over the parts.
fn read_whole(digits: u8, text: &[u8]) -> Reading<Said>
    ensures { result ≡ layout_read (rfc3339_parts digits) (pos 0) text.now }
{
    match read_plain(text) {
        Some(said) => read_behind(digits, text, said),
        None => read_by_parts(digits, text),
    }
}

// A call of its own, to which hardly any text of a log comes.
#[inline(never)]
fn read_by_parts(digits: u8, text: &[u8]) -> Reading<Said>
    ensures { result ≡ layout_read (rfc3339_parts digits) (pos 0) text.now }
{
    read_layout(&parts(digits), 0, text)
}

/// What `dddd-dd-ddTdd:dd:dd` at the front says, where each number is one of its part.
#[inline(always)]
fn read_plain(text: &[u8]) -> Option<Said>
    ensures long { IfSome result (λ _. 19 ≤ length text.now) }
    ensures reads { IfSome result (λ said. (rest : List part) → parts_read (plain_parts rest) text.now 0 (nothing_said (pos 0)) ≡ parts_read rest text.now 19 said) }
{
    if text.len() < 19 || !has_marks(text) {
        return None;
    }
    let year = year_at_front(text)?;
    let month = number_at(1, 12, text, 5)?;
    let day = number_at(1, 31, text, 8)?;
    let hour = number_at(0, 23, text, 11)?;
    let minute = number_at(0, 59, text, 14)?;
    let second = number_at(0, 59, text, 17)?;
    Some(Said {
        year,
        month: u16::from(month),
        day,
        clock: Clock::Full,
        hour,
        minute,
        second,
        nanosecond: 0,
        offset: 0,
    })
}

/// The fraction and the zone, behind which nothing stands.
#[inline(always)]
fn read_behind(digits: u8, text: &[u8], said: Said) -> Reading<Said>
    requires { 19 ≤ length text.now }
    ensures { result ≡ and_then (parts_read (PointFraction digits ∷ Zone Required ∷ []) text.now 19 said) (whole text.now) }
{
    let (nanosecond, behind) = read_optional_fraction(digits, text, 19)?;
    let (offset, at) = read_zone(Colon::Required, text, behind)?;
    if at < text.len() {
        return Err(TimeFault::Mismatch { at });
    }
    let said = Said {
        nanosecond,
        offset,
        ..said
    };
    Ok((said, at))
}

#[inline(always)]
fn has_marks(text: &[u8]) -> bool
    ensures { result ≡ has_marks text.now }
{
    stands(b'-', text, 4)
        && stands(b'-', text, 7)
        && stands(b'T', text, 10)
        && stands(b':', text, 13)
        && stands(b':', text, 16)
}

#[inline(always)]
fn year_at_front(text: &[u8]) -> Option<u16>
    requires { 4 ≤ length text.now }
    ensures { IfSome result (λ year. number 4 0 9999 text.now 0 ≡ Ok (year, 4)) }
{
    let century = pair_at(text, 0)?;
    let year = pair_at(text, 2)?;
    Some(u16::from(century) * 100 + u16::from(year))
}

#[tactic(auto, unfolding(crate::specs::Iso::rfc3339_parts))]
fn parts(digits: u8) -> [Part; 13]
    ensures { result ≡ rfc3339_parts digits }
{
    [
        Part::Year,
        Part::Literal(b'-'),
        Part::Month,
        Part::Literal(b'-'),
        Part::Day,
        Part::Literal(b'T'),
        Part::Hour,
        Part::Literal(b':'),
        Part::Minute,
        Part::Literal(b':'),
        Part::Second,
        Part::PointFraction(digits),
        Part::Zone(Colon::Required),
    ]
}
