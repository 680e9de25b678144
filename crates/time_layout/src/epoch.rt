// Counts since 1970.
ghost use Rattle.std.specs.Prelude.{◌≡◌, ◌+◌, ◌-◌, ◌*◌, ◌<◌, ◌≤◌, ◌^◌, pos, ◌*ℤ◌, MatchOption, IfOk, length};
ghost use Rattle.std.specs.Char.{is_ascii_digit};
ghost use Rattle.std.specs.List.{prefix_len};
ghost use Rattle.time_layout.specs.Atoms.{value_of};
ghost use Rattle.time_layout.specs.Epoch.{unit_of, most_digits, fraction_behind, epoch_read, IsEpochTimeOf};
ghost use Rattle.time_layout.specs.Instant.{IsCounted};

use crate::TimeFault;
use crate::atoms::{Reading, read_fraction, stands};
use crate::calendar::counted;

/// What a count since 1970-01-01T00:00:00Z counts.
#[derive(Clone, Copy, Debug, PartialEq, Eq)]
pub enum EpochKind {
    /// Seconds.
    S,
    /// Milliseconds.
    Ms,
    /// Microseconds.
    Us,
    /// Nanoseconds.
    Ns,
    /// Seconds with milliseconds: one to three digits may stand behind a point.
    SMs,
    /// Seconds with microseconds: one to six digits may stand behind a point.
    SUs,
    /// Seconds with nanoseconds: one to nine digits may stand behind a point.
    SNs,
}

impl EpochKind {
    /// The nanoseconds of a whole count. `OutOfRange` exactly where it is negative or they don't fit 64 bits.
    pub fn instant_of_count(self, count: i64) -> Result<u64, TimeFault>
        ensures { IsCounted (count *ℤ pos (unit_of self)) result }
    {
        counted(count as i128 * self.unit() as i128)
    }

    /// The nanoseconds of a count that is written in decimal digits, and behind a point the digits of a fraction where the
    /// kind has one.
    ///
    /// `Mismatch` at the first place of every other text that can't be read; then `OutOfRange` exactly where the
    /// nanoseconds don't fit 64 bits.
    pub fn instant(self, text: &str) -> Result<u64, TimeFault>
        ensures { IsEpochTimeOf (epoch_read self text.now) result }
    {
        let bytes = text.as_bytes();
        let whole = digit_count(bytes);
        if whole == 0 {
            return Err(TimeFault::Mismatch { at: 0 });
        }
        let (nanoseconds, end) = self.read_fraction_behind(bytes, whole)?;
        if end < bytes.len() {
            return Err(TimeFault::Mismatch { at: end });
        }
        match count_of(&bytes[..whole]) {
            Some(count) => counted(count as i128 * self.unit() as i128 + nanoseconds as i128),
            None => Err(TimeFault::OutOfRange),
        }
    }

    fn read_fraction_behind(self, text: &[u8], at: usize) -> Reading<u32>
        requires { at ≤ length text.now }
        ensures is { result ≡ fraction_behind self text.now at }
        ensures within { IfOk result (λ read. read.1 ≤ length text.now) }
        ensures bounded { IfOk result (λ read. read.0 < 10 ^ 9) }
    {
        let most = self.most_digits();
        if most > 0 && stands(b'.', text, at) {
            return read_fraction(most, text, at + 1);
        }
        Ok((0, at))
    }

    fn unit(self) -> u32
        ensures { result ≡ unit_of self }
    {
        match self {
            EpochKind::S | EpochKind::SMs | EpochKind::SUs | EpochKind::SNs => 1_000_000_000,
            EpochKind::Ms => 1_000_000,
            EpochKind::Us => 1_000,
            EpochKind::Ns => 1,
        }
    }

    fn most_digits(self) -> u8
        ensures is { result ≡ most_digits self }
        ensures few { result ≤ 9 }
    {
        match self {
            EpochKind::S | EpochKind::Ms | EpochKind::Us | EpochKind::Ns => 0,
            EpochKind::SMs => 3,
            EpochKind::SUs => 6,
            EpochKind::SNs => 9,
        }
    }
}

fn digit_count(text: &[u8]) -> usize
    ensures is { result ≡ prefix_len is_ascii_digit text.now }
    ensures within { result ≤ length text.now }
{
    text.iter().take_while(|byte| byte.is_ascii_digit()).count()
}

/// The number that digits spell, where it fits.
fn count_of(digits: &[u8]) -> Option<u64>
    ensures { MatchOption result (2 ^ 64 ≤ value_of digits.now) (λ count. count ≡ value_of digits.now) }
{
    let mut count = 0;
    for digit in digits {
        match with_digit(count, *digit) {
            Some(more) => count = more,
            None => return None,
        }
    }
    Some(count)
}

fn with_digit(count: u64, digit: u8) -> Option<u64>
    ensures { MatchOption result (2 ^ 64 ≤ count * 10 + (digit - 48)) (λ more. more ≡ count * 10 + (digit - 48)) }
{
    let more = count as u128 * 10 + digit.saturating_sub(b'0') as u128;
    if more > u64::MAX as u128 {
        None
    } else {
        Some(more as u64)
    }
}
