// Why the lines of a stream aren't all printed.
ghost use Rattle.std.specs.Prelude.{◌≡◌};
ghost use Rattle.stream_lines.specs.declared.fault.StreamFault.TheVariants.{Source, Memory};

use outside::{CallFault, Failed};
use std::alloc::{AllocError, AllocFailed};
use thiserror::Error;

/// Why the lines of a stream aren't all printed.
#[derive(Clone, Copy, Debug, PartialEq, Eq, Drop, Error)]
pub enum StreamFault {
    /// A read failed, and the source's count of faults rose.
    #[error("the source failed")]
    Source,
    /// A write failed, and the report's count of faults rose.
    #[error("the report failed")]
    Report,
    /// As many bytes were taken as may be, and the end wasn't seen.
    #[error("the stream is too long")]
    Long,
    /// With the next line the report would have got `length` bytes, which is more than it may.
    #[error("the lines would have {length} bytes")]
    Full { length: u64 },
    #[error("out of memory")]
    Memory,
}

impl From<AllocError> for StreamFault {
    ghost from_gives = { λ _ fault. fault ≡ Memory };

    fn from(_error: AllocError) -> StreamFault {
        StreamFault::Memory
    }
}

impl<T: Drop> From<AllocFailed<T>> for StreamFault {
    ghost from_gives = { λ _ fault. fault ≡ Memory };

    fn from(_error: AllocFailed<T>) -> StreamFault {
        StreamFault::Memory
    }
}

/// For a read of the source.
impl From<Failed> for StreamFault {
    ghost from_gives = { λ _ fault. fault ≡ Source };

    fn from(_failed: Failed) -> StreamFault {
        StreamFault::Source
    }
}

/// For a write to the report.
impl From<CallFault> for StreamFault {
    ghost use Rattle.std.specs.Prelude.{◌≡◌};
    ghost use Rattle.stream_lines.specs.Causes.{report_fault};

    ghost from_gives = { λ given fault. fault ≡ report_fault given };

    fn from(given: CallFault) -> StreamFault {
        match given {
            CallFault::Failed => StreamFault::Report,
            CallFault::Memory => StreamFault::Memory,
        }
    }
}
