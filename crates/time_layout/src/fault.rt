// Why there is no time, or no layout.
use std::alloc::AllocError;
use thiserror::Error;

/// Why a text gives no instant.
#[derive(Clone, Copy, Debug, PartialEq, Eq, Drop, Error)]
pub enum TimeFault {
    /// `at` is the first byte that can't be read, or the text's length where only more is missing. A number that is out
    /// of its range is refused at its first digit, also one that lacks digits where those that stand there begin none.
    #[error("the time can't be read at byte {at}")]
    Mismatch { at: usize },
    /// The text names no day of the calendar, or the instant is before 1970 or past 2^64 - 1 nanoseconds after it.
    #[error("the time is out of range")]
    OutOfRange,
}

/// Why a text is no layout.
#[derive(Clone, Copy, Debug, PartialEq, Eq, Drop, Error)]
pub enum LayoutFault {
    /// `at` is the place of a directive that is unknown or that gives once more what one before it gives, or of a `%` at
    /// the end; or the text's length, where the year, the month or the day is missing, or one of `%I` and `%p`. In a layout
    /// of Go's the same of its names, and `at` is the place of a digit that begins none.
    #[error("the layout can't be read at byte {at}")]
    Directive { at: usize },
    #[error("out of memory")]
    Memory,
}

impl From<AllocError> for LayoutFault {
    ghost use Rattle.std.specs.Prelude.{◌≡◌};
    ghost use Rattle.time_layout.specs.declared.fault.LayoutFault.TheVariants.{Memory};

    ghost from_gives = { λ _ fault. fault ≡ Memory };

    fn from(_error: AllocError) -> LayoutFault {
        LayoutFault::Memory
    }
}
