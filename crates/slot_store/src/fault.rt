// Why a commit has no result.
use outside::CallFault;
use std::alloc::AllocError;
use thiserror::Error;

/// Why nothing was committed, as far as the caller can know. After [`CommitFault::Disk`] and [`CommitFault::Memory`] a
/// crash leaves the old payload or the new, and the disk is to be read again.
#[derive(Clone, Copy, Debug, PartialEq, Eq, Drop, Error)]
pub enum CommitFault {
    /// A call on the disk failed, and its count of faults rose.
    #[error("the disk failed")]
    Disk,
    /// The last sequence number is in use, and no other comes after it. The disk is untouched.
    #[error("no sequence number follows {sequence}")]
    Worn { sequence: u64 },
    #[error("out of memory")]
    Memory,
}

impl From<AllocError> for CommitFault {
    ghost use Rattle.std.specs.Prelude.{◌≡◌};
    ghost use Rattle.slot_store.specs.declared.fault.CommitFault.TheVariants.{Memory};

    ghost from_gives = { λ _ fault. fault ≡ Memory };

    fn from(_error: AllocError) -> CommitFault {
        CommitFault::Memory
    }
}

/// For a call on the disk.
impl From<CallFault> for CommitFault {
    ghost use Rattle.std.specs.Prelude.{◌≡◌};
    ghost use Rattle.slot_store.specs.CommitCause.{commit_fault};

    ghost from_gives = { λ given fault. fault ≡ commit_fault given };

    fn from(given: CallFault) -> CommitFault {
        match given {
            CallFault::Failed => CommitFault::Disk,
            CallFault::Memory => CommitFault::Memory,
        }
    }
}
