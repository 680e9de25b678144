// Why a poll has no result.
ghost use Rattle.std.specs.Prelude.{◌≡◌};
ghost use Rattle.poll_core.specs.declared.poll_fault.PollFault.TheVariants.{Memory};

use file_pass::PassFault;
use outside::CallFault;
use slot_store::CommitFault;
use std::alloc::AllocError;
use thiserror::Error;

/// Why a poll doesn't come to its end. What it read is read again by the next session, which finds on the disk the
/// checkpoint from before the poll or, where the commit had begun, that or the next.
#[derive(Clone, Copy, Debug, PartialEq, Eq, Drop, Error)]
pub enum PollFault {
    /// A call on the disk failed, and its count of faults rose.
    #[error("the disk failed")]
    Disk,
    /// With the next line of this poll the output would have `length` bytes, more than its limit.
    #[error("the output would have {length} bytes")]
    OutputFull { length: u64 },
    /// The last sequence number is in use, and no other comes after it.
    #[error("no sequence number follows {sequence}")]
    Worn { sequence: u64 },
    #[error("out of memory")]
    Memory,
}

impl From<AllocError> for PollFault {
    ghost from_gives = { λ _ fault. fault ≡ Memory };

    fn from(_: AllocError) -> PollFault {
        PollFault::Memory
    }
}

/// For a call on the disk.
impl From<CallFault> for PollFault {
    ghost use Rattle.poll_core.specs.PollCause.{call_fault};

    ghost from_gives = { λ given fault. fault ≡ call_fault given };

    fn from(given: CallFault) -> PollFault {
        match given {
            CallFault::Failed => PollFault::Disk,
            CallFault::Memory => PollFault::Memory,
        }
    }
}

impl From<PassFault> for PollFault {
    ghost use Rattle.poll_core.specs.PollCause.{pass_refusal};

    ghost from_gives = { λ given fault. fault ≡ pass_refusal given };

    fn from(given: PassFault) -> PollFault {
        match given {
            PassFault::Disk => PollFault::Disk,
            PassFault::OutputFull { length } => PollFault::OutputFull { length },
            PassFault::Memory => PollFault::Memory,
        }
    }
}

impl From<CommitFault> for PollFault {
    ghost use Rattle.poll_core.specs.PollCause.{commit_refusal};

    ghost from_gives = { λ given fault. fault ≡ commit_refusal given };

    fn from(given: CommitFault) -> PollFault {
        match given {
            CommitFault::Disk => PollFault::Disk,
            CommitFault::Worn { sequence } => PollFault::Worn { sequence },
            CommitFault::Memory => PollFault::Memory,
        }
    }
}
