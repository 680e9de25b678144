// From what a text says to an instant.
ghost use Rattle.std.specs.Prelude.{◌≡◌, ◌+◌, ◌*◌, ◌<◌, pos, ◌+ℤ◌, ◌-ℤ◌, ◌*ℤ◌, IfSome, IfNone, MatchOption};
ghost use Rattle.jiff_core.specs.Calendar.{IsEpochDay, IsCivilDate, IsWithin, days_from_civil};
ghost use Rattle.time_layout.specs.Instant.{clock_hour, seconds_from, IsCounted, IsInstantOf};

use crate::TimeFault;
use crate::parts::{Clock, Said};
use jiff::civil::Date;

/// The nanoseconds from 1970-01-01T00:00:00Z to what was said. `OutOfRange` exactly where the calendar doesn't have the
/// day, or the instant is before 1970 or doesn't fit 64 bits.
pub fn instant_of(said: Said) -> Result<u64, TimeFault>
    ensures { IsInstantOf said result }
{
    match day_number(said.year, said.month, said.day) {
        Some(day) => { counted(nanoseconds_since(day, said)) }
        None => Err(TimeFault::OutOfRange),
    }
}

/// The nanoseconds from 1970-01-01T00:00:00Z to what was said of that day.
fn nanoseconds_since(day: i32, said: Said) -> i128
    requires { IsEpochDay day }
    ensures { result ≡ seconds_from day said *ℤ pos 1_000_000_000 +ℤ pos said.nanosecond }
{
    let second = epoch_second(day, second_of_day(said), said.offset);
    nanoseconds_of(second, said.nanosecond)
}

/// An instant that fits 64 bits.
pub(crate) fn counted(nanoseconds: i128) -> Result<u64, TimeFault>
    ensures { IsCounted nanoseconds result }
{
    if nanoseconds < 0 || nanoseconds > u64::MAX as i128 {
        return Err(TimeFault::OutOfRange);
    }
    Ok(nanoseconds as u64)
}

/// The days from 1970-01-01 to that day, if the calendar has it.
fn day_number(year: u16, month: u16, day: u8) -> Option<i32>
    ensures none { IfNone result (IsCivilDate (pos year) month day → ⊥) }
    ensures some { IfSome result (λ n. IsCivilDate (pos year) month day × (n ≡ days_from_civil (pos year) month day)) }
    ensures bounded { IfSome result IsEpochDay }
{
    if year > 9999 || month > 12 || day > 31 {
        return None;
    }
    match Date::new(year as i16, month as i8, day as i8) {
        Ok(date) => Some(date.to_plain().to_unix_epoch_day()),
        Err(_) => None,
    }
}

fn hour_of(clock: Clock, hour: u8) -> u32
    ensures is { result ≡ clock_hour clock hour }
    ensures bounded { result < 300 }
{
    match clock {
        Clock::Full => u32::from(hour),
        Clock::Am => u32::from(hour % 12),
        Clock::Pm => u32::from(hour % 12) + 12,
    }
}

/// The seconds from the day's beginning, where it was said.
fn second_of_day(said: Said) -> u32
    ensures is { result ≡ clock_hour said.clock said.hour * 3600 + said.minute * 60 + said.second }
    ensures bounded { result < 2_000_000 }
{
    hour_of(said.clock, said.hour) * 3600 + u32::from(said.minute) * 60 + u32::from(said.second)
}

/// The seconds from 1970-01-01T00:00:00Z.
fn epoch_second(day: i32, second: u32, offset: i32) -> i64
    requires day { IsEpochDay day }
    ensures is { result ≡ day *ℤ pos 86_400 +ℤ (pos second -ℤ offset) }
    ensures bounded { IsWithin 1_000_000_000_000 result }
{
    day as i64 * 86_400 + (second as i64 - offset as i64)
}

fn nanoseconds_of(second: i64, nanosecond: u32) -> i128
    ensures { result ≡ second *ℤ pos 1_000_000_000 +ℤ pos nanosecond }
{
    second as i128 * 1_000_000_000 + nanosecond as i128
}
