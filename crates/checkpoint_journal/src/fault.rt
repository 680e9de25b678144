// Why a journal isn't told.
use outside::CallFault;
use std::alloc::AllocError;
use thiserror::Error;

/// Why a look at the journal has no answer.
#[derive(Clone, Copy, Debug, PartialEq, Eq, Drop, Error)]
pub enum JournalFault {
    /// A call on the disk failed, and its count of faults rose.
    #[error("the disk failed")]
    Disk,
    /// The base or a record has no reading. `at` is the first byte that can't be, counted from the base's first; the
    /// heads of records count.
    #[error("no checkpoint can be read past byte {at}")]
    Bad { at: u64 },
    #[error("out of memory")]
    Memory,
}

impl From<AllocError> for JournalFault {
    ghost use Rattle.std.specs.Prelude.{◌≡◌};
    ghost use Rattle.checkpoint_journal.specs.declared.fault.JournalFault.TheVariants.{Memory};

    ghost from_gives = { λ _ fault. fault ≡ Memory };

    fn from(_error: AllocError) -> JournalFault {
        JournalFault::Memory
    }
}

/// For a call on the disk.
impl From<CallFault> for JournalFault {
    ghost use Rattle.std.specs.Prelude.{◌≡◌};
    ghost use Rattle.checkpoint_journal.specs.JournalCause.{journal_fault};

    ghost from_gives = { λ given fault. fault ≡ journal_fault given };

    fn from(given: CallFault) -> JournalFault {
        match given {
            CallFault::Failed => JournalFault::Disk,
            CallFault::Memory => JournalFault::Memory,
        }
    }
}
