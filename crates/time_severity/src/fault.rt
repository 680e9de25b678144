// Why an operator left an entry as it was.
use std::alloc::AllocError;
use thiserror::Error;

#[derive(Clone, Copy, Debug, PartialEq, Eq, Drop, Error)]
pub enum StampFault {
    /// There is no value at the path that is read.
    #[error("there is no such value")]
    Missing,
    /// The value tells no time: it is no text of the layout and no count, the calendar doesn't have the day, or the
    /// instant is before 1970 or past 2^64 - 1 nanoseconds after it.
    #[error("the value tells no time")]
    NotTime,
    /// The value is neither a text nor a number.
    #[error("the value names no severity")]
    NotSeverity,
    #[error("out of memory")]
    Memory,
}

impl From<AllocError> for StampFault {
    ghost use Rattle.std.specs.Prelude.{◌≡◌};
    ghost use Rattle.time_severity.specs.declared.fault.StampFault.TheVariants.{Memory};

    ghost from_gives = { λ _ fault. fault ≡ Memory };

    fn from(_error: AllocError) -> StampFault {
        StampFault::Memory
    }
}
