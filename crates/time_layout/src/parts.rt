// The parts of a layout, what they say, and reading them along a text.
ghost use Rattle.std.specs.Prelude.{◌≡◌, ◌≤◌, IfOk, length};
ghost use Rattle.time_layout.specs.Parts.{part_read, parts_read, layout_read, full_year, clock_of};

use crate::TimeFault;
use crate::atoms::{
    Reading, read_fixed_fraction, read_fraction, read_fraction_point, read_full_name, read_name,
    read_number, read_optional_fraction, read_padded_day, read_signed, read_unpadded, read_zone,
    read_zone_name, stands,
};
use crate::names::{meridiems, weekdays};
use case_table::{day_names, month_names, months};

/// Whether hours and minutes of a zone have a colon between them.
#[derive(Clone, Copy, Debug, PartialEq, Eq)]
pub enum Colon {
    Optional,
    Required,
    /// They never have.
    Missing,
}

impl Colon {
    ghost use Rattle.time_layout.specs.Parts.{may_stand};

    /// Whether one may stand there.
    pub(crate) fn may_stand(self) -> bool
        ensures { result ≡ may_stand self }
    {
        match self {
            Colon::Optional | Colon::Required => true,
            Colon::Missing => false,
        }
    }
}

/// What stands in a text at a place.
#[derive(Clone, Copy, Debug, PartialEq, Eq)]
pub enum Part {
    /// This byte.
    Literal(u8),
    /// Four digits.
    Year,
    /// Two digits, of a year from 1969 to 2068.
    ShortYear,
    Month,
    MonthName,
    Day,
    /// A day of which a first digit 0 may be missing, or be a space.
    PaddedDay,
    /// A name that says nothing.
    WeekdayName,
    Hour,
    /// An hour from 1 to 12, of the half of the day that the meridiem names.
    TwelveHour,
    Meridiem,
    Minute,
    Second,
    /// One to nine digits of a second's fraction.
    Fraction,
    /// Nothing, or a point and one to this many digits.
    PointFraction(u8),
    /// `Z`, or a sign with hours and minutes.
    Zone(Colon),
    /// A month of which a first digit 0 may be missing.
    UnpaddedMonth,
    /// The whole name.
    FullMonthName,
    /// A day of which a first digit 0 may be missing.
    UnpaddedDay,
    /// A whole name that says nothing.
    FullWeekdayName,
    /// As `TwelveHour`, and a first digit 0 may be missing.
    UnpaddedTwelveHour,
    /// A point and this many digits, nine at most.
    FixedFraction(u8),
    /// A point, before which there may be another with one to nine digits of a second's fraction.
    FractionPoint,
    /// A sign with hours and minutes.
    Offset(Colon),
    /// `UTC` or `GMT`.
    ZoneName,
}

/// By which clock the hour is counted.
#[derive(Clone, Copy, Debug, PartialEq, Eq)]
pub enum Clock {
    Full,
    Am,
    Pm,
}

/// What a text says of a time.
#[derive(Clone, Copy, Debug, PartialEq, Eq)]
pub struct Said {
    pub year: u16,
    pub month: u16,
    pub day: u8,
    pub clock: Clock,
    pub hour: u8,
    pub minute: u8,
    pub second: u8,
    pub nanosecond: u32,
    /// In seconds east of UTC.
    pub offset: i32,
}

/// Reads a text to its end, part by part. Where it has no zone, it is said at this distance from UTC.
pub(crate) fn read_layout(parts: &[Part], location: i32, text: &[u8]) -> Reading<Said>
    ensures { result ≡ layout_read parts.now location text.now }
{
    let nothing = Said {
        year: 0,
        month: 0,
        day: 0,
        clock: Clock::Full,
        hour: 0,
        minute: 0,
        second: 0,
        nanosecond: 0,
        offset: location,
    };
    let (said, at) = read_parts(parts, text, nothing)?;
    if at < text.len() {
        return Err(TimeFault::Mismatch { at });
    }
    Ok((said, at))
}

/// Reads the parts from the front of a text on, whatever follows them: what is said then, and the place behind them.
///
/// `Mismatch` at the first place of every other text that can't be read.
pub fn read_parts(parts: &[Part], text: &[u8], nothing: Said) -> Reading<Said>
    ensures is { result ≡ parts_read parts.now text.now 0 nothing }
    ensures within { IfOk result (λ read. read.1 ≤ length text.now) }
{
    let mut said = nothing;
    let mut at = 0;
    for part in parts {
        (said, at) = read_part(*part, text, at, said)?;
    }
    Ok((said, at))
}

/// What a reader answered, as one field more of what was said.
macro_rules! say {
    ($said:ident, $reading:expr, $value:ident => $field:ident: $saying:expr) => {{
        let ($value, next) = $reading?;
        Ok((Said { $field: $saying, ..$said }, next))
    }};
}

fn read_part(part: Part, text: &[u8], at: usize, said: Said) -> Reading<Said>
    requires { at ≤ length text.now }
    ensures is { result ≡ part_read part text.now at said }
    ensures within { IfOk result (λ read. read.1 ≤ length text.now) }
{
    match part {
        Part::Literal(byte) => read_literal(byte, text, at, said),
        Part::Year => say!(said, read_number(4, 0, 9999, text, at), value => year: value as u16),
        Part::ShortYear =>
            say!(said, read_number(2, 0, 99, text, at), value => year: full_year(value)),
        Part::Month => say!(said, read_number(2, 1, 12, text, at), value => month: value as u16),
        Part::MonthName => read_month_name(text, at, said),
        Part::Day => say!(said, read_number(2, 1, 31, text, at), value => day: value as u8),
        Part::PaddedDay => say!(said, read_padded_day(text, at), value => day: value as u8),
        Part::WeekdayName => read_weekday_name(text, at, said),
        Part::Hour => say!(said, read_number(2, 0, 23, text, at), value => hour: value as u8),
        Part::TwelveHour => say!(said, read_number(2, 1, 12, text, at), value => hour: value as u8),
        Part::Meridiem => read_meridiem(text, at, said),
        Part::Minute => say!(said, read_number(2, 0, 59, text, at), value => minute: value as u8),
        Part::Second => say!(said, read_number(2, 0, 59, text, at), value => second: value as u8),
        Part::Fraction => say!(said, read_fraction(9, text, at), value => nanosecond: value),
        Part::PointFraction(most) =>
            say!(said, read_optional_fraction(most, text, at), value => nanosecond: value),
        Part::Zone(colon) => say!(said, read_zone(colon, text, at), value => offset: value),
        Part::UnpaddedMonth =>
            say!(said, read_unpadded(12, text, at), value => month: value as u16),
        Part::FullMonthName => read_full_month_name(text, at, said),
        Part::UnpaddedDay => say!(said, read_unpadded(31, text, at), value => day: value as u8),
        Part::FullWeekdayName => read_full_weekday_name(text, at, said),
        Part::UnpaddedTwelveHour =>
            say!(said, read_unpadded(12, text, at), value => hour: value as u8),
        Part::FixedFraction(digits) =>
            say!(said, read_fixed_fraction(digits.min(9), text, at), value => nanosecond: value),
        Part::FractionPoint =>
            say!(said, read_fraction_point(text, at), value => nanosecond: value),
        Part::Offset(colon) => say!(said, read_signed(colon, text, at), value => offset: value),
        Part::ZoneName => say!(said, read_zone_name(text, at), value => offset: value),
    }
}

fn read_literal(byte: u8, text: &[u8], at: usize, said: Said) -> Reading<Said>
    requires { at ≤ length text.now }
    ensures is { result ≡ part_read (Part.Literal byte) text.now at said }
    ensures within { IfOk result (λ read. read.1 ≤ length text.now) }
{
    if stands(byte, text, at) {
        return Ok((said, at + 1));
    }
    Err(TimeFault::Mismatch { at })
}

// Names are read by calls of their own, since their tables would be cleared for each part that is read in the same one.

#[inline(never)]
fn read_month_name(text: &[u8], at: usize, said: Said) -> Reading<Said>
    requires { at ≤ length text.now }
    ensures is { result ≡ part_read Part.MonthName text.now at said }
    ensures within { IfOk result (λ read. read.1 ≤ length text.now) }
{
    say!(said, read_name(&months(), 3, text, at), value => month: value)
}

#[inline(never)]
fn read_weekday_name(text: &[u8], at: usize, said: Said) -> Reading<Said>
    requires { at ≤ length text.now }
    ensures is { result ≡ part_read Part.WeekdayName text.now at said }
    ensures within { IfOk result (λ read. read.1 ≤ length text.now) }
{
    let (_, next) = read_name(&weekdays(), 3, text, at)?;
    Ok((said, next))
}

#[inline(never)]
fn read_meridiem(text: &[u8], at: usize, said: Said) -> Reading<Said>
    requires { at ≤ length text.now }
    ensures is { result ≡ part_read Part.Meridiem text.now at said }
    ensures within { IfOk result (λ read. read.1 ≤ length text.now) }
{
    say!(said, read_name(&meridiems(), 2, text, at), value => clock: clock_of(value))
}

#[inline(never)]
fn read_full_month_name(text: &[u8], at: usize, said: Said) -> Reading<Said>
    requires { at ≤ length text.now }
    ensures is { result ≡ part_read Part.FullMonthName text.now at said }
    ensures within { IfOk result (λ read. read.1 ≤ length text.now) }
{
    say!(said, read_full_name(&month_names(), text, at), value => month: value)
}

#[inline(never)]
fn read_full_weekday_name(text: &[u8], at: usize, said: Said) -> Reading<Said>
    requires { at ≤ length text.now }
    ensures is { result ≡ part_read Part.FullWeekdayName text.now at said }
    ensures within { IfOk result (λ read. read.1 ≤ length text.now) }
{
    let (_, next) = read_full_name(&day_names(), text, at)?;
    Ok((said, next))
}

fn full_year(short: u32) -> u16
    requires { short ≤ 99 }
    ensures { result ≡ full_year short }
{
    if short < 69 {
        2000 + short as u16
    } else {
        1900 + short as u16
    }
}

fn clock_of(code: u16) -> Clock
    ensures { result ≡ clock_of code }
{
    if code == 1 { Clock::Am } else { Clock::Pm }
}
