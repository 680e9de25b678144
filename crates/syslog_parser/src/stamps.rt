// The times of both formats (RFC 5424, section 6.2.3; RFC 3164, section 4.1.2).
ghost use Rattle.std.specs.Prelude.{◌≡◌, ◌≢◌, ◌∷◌, IfSome, IfNone, Option as option, length, ℕ, List};
ghost use Rattle.time_layout.specs.declared.parts.Said.{Said as saying};
ghost use Rattle.time_layout.specs.Parts.{parts_read};
ghost use Rattle.syslog_parser.specs.Stamps.{IsTime, IsDate, day_and_clock as day_and_clock_parts, of_month as month_of};

use crate::bytes::unbroken_count;
use crate::cuts::{cut, stands};
use case_table::{find_bytes, months};
use time_layout::{Clock, Part, Said, instant_of, read_parts, rfc3339};

/// What stands behind version 1 and its space.
pub(crate) fn read_version(text: &str) -> Option<&str>
    ensures some { IfSome result (λ rest. text.now ≡ 49 ∷ 32 ∷ rest.now) }
    ensures none { IfNone result ((more : List ℕ) → text.now ≢ 49 ∷ 32 ∷ more) }
{
    if !stands(text, 0, b'1') || !stands(text, 1, b' ') {
        return None;
    }
    let (_, rest) = cut(text, 1);
    Some(rest)
}

/// A time of RFC 5424, which may be absent, and what stands behind its space.
pub(crate) fn read_time(text: &str) -> Option<(Option<u64>, &str)>
    ensures some { IfSome result (λ read. IsTime text.now read.0 read.1.now) }
    ensures none { IfNone result ((time : option ℕ) (more : List ℕ) → IsTime text.now time more → ⊥) }
{
    let count = unbroken_count(text.as_bytes());
    if !stands(text, count, b' ') {
        return None;
    }
    let (own, rest) = cut(text, count);
    if own == "-" {
        return Some((None, rest));
    }
    match rfc3339(own, 6) {
        Ok(instant) => Some((Some(instant), rest)),
        Err(_) => None,
    }
}

/// A time of RFC 3164 in this year, at this distance from UTC, and what stands behind its space.
pub(crate) fn read_date(text: &str, year: u16, location: i32) -> Option<(u64, &str)>
    ensures some { IfSome result (λ read. IsDate year location text.now read.0 read.1.now) }
    ensures none { IfNone result ((time : ℕ) (more : List ℕ) → IsDate year location text.now time more → ⊥) }
{
    if !stands(text, 15, b' ') {
        return None;
    }
    let (own, rest) = cut(text, 15);
    let bytes = own.as_bytes();
    let month = find_bytes(&months(), &bytes[..3])?;
    let said = read_clock(&bytes[3..], of_month(year, month, location))?;
    match instant_of(said) {
        Ok(instant) => Some((instant, rest)),
        Err(_) => None,
    }
}

/// What a day and a time of day say, which are all of the text.
fn read_clock(text: &[u8], nothing: Said) -> Option<Said>
    ensures some { IfSome result (λ said. parts_read day_and_clock_parts text.now 0 nothing ≡ Ok (said, length text.now)) }
    ensures none { IfNone result ((said : saying) → parts_read day_and_clock_parts text.now 0 nothing ≢ Ok (said, length text.now)) }
{
    match read_parts(&day_and_clock(), text, nothing) {
        Ok((said, next)) => { if next == text.len() { Some(said) } else { None } }
        Err(_) => None,
    }
}

/// ` dd hh:mm:ss`.
#[tactic(auto, unfolding(crate::specs::Stamps::day_and_clock))]
fn day_and_clock() -> [Part; 8]
    ensures { result ≡ day_and_clock_parts }
{
    [
        Part::Literal(b' '),
        Part::PaddedDay,
        Part::Literal(b' '),
        Part::Hour,
        Part::Literal(b':'),
        Part::Minute,
        Part::Literal(b':'),
        Part::Second,
    ]
}

/// A month of a year, and nothing more.
fn of_month(year: u16, month: u16, location: i32) -> Said
    ensures { result ≡ month_of year month location }
{
    Said {
        year,
        month,
        day: 0,
        clock: Clock::Full,
        hour: 0,
        minute: 0,
        second: 0,
        nanosecond: 0,
        offset: location,
    }
}
