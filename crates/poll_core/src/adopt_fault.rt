// Why settings aren't adopted.
ghost use Rattle.std.specs.Prelude.{◌≡◌};
ghost use Rattle.poll_core.specs.declared.adopt_fault.AdoptFault.TheVariants.{Disk, Memory};

use checkpoint_journal::JournalFault;
use outside::{CallFault, Failed};
use pipeline::BuildFault;
use settings_text::SettingsFault;
use slot_store::CommitFault;
use std::alloc::AllocError;
use thiserror::Error;

/// Why settings aren't adopted. They are tested in this order, but that an operator's state (the second cause of
/// [`AdoptFault::CheckpointBad`]) is tested after [`AdoptFault::Kept`].
#[derive(Debug, Drop, Error)]
pub enum AdoptFault {
    /// The settings that are to be adopted can't be read.
    #[error("{0}")]
    Settings(SettingsFault),
    /// What they ask for can't be made.
    #[error("{0}")]
    Build(BuildFault),
    /// A call on the disk failed, and its count of faults rose.
    #[error("the disk failed")]
    Disk,
    /// No checkpoint is there, so that nothing is to be adopted.
    #[error("nothing is kept")]
    NothingKept,
    /// The checkpoint or a change of it has no reading from byte `at` on, counted from the checkpoint's first; or the row
    /// with the id `at` keeps a state that isn't one of the operators that are kept, and no row with a lower id does.
    #[error("the checkpoint is bad at {at}")]
    CheckpointBad { at: u64 },
    /// The last settings that are kept can't be read.
    #[error("of the settings that are kept: {0}")]
    KeptSettings(SettingsFault),
    /// What they ask for can't be made.
    #[error("of the settings that are kept: {0}")]
    Kept(BuildFault),
    /// The output has `found` bytes, fewer than the `kept` that the checkpoint keeps.
    #[error("the output has {found} bytes of {kept}")]
    OutputShort { kept: u64, found: u64 },
    /// Files are known by `kept` bytes, and were to be known by `found`.
    #[error("files are known by {kept} bytes, not by {found}")]
    Fingerprint { kept: u32, found: u32 },
    /// As many settings were in force as there may be.
    #[error("too many settings were in force")]
    Eras,
    /// With the first line past the limit the output would have `length` bytes.
    #[error("the output would have {length} bytes")]
    OutputFull { length: u64 },
    /// The checkpoint's sequence number is the last one.
    #[error("no sequence number comes after {sequence}")]
    Worn { sequence: u64 },
    #[error("out of memory")]
    Memory,
}

impl From<AllocError> for AdoptFault {
    ghost from_gives = { λ _ fault. fault ≡ Memory };

    fn from(_: AllocError) -> AdoptFault {
        AdoptFault::Memory
    }
}

/// For a call on the disk.
impl From<Failed> for AdoptFault {
    ghost from_gives = { λ _ fault. fault ≡ Disk };

    fn from(_: Failed) -> AdoptFault {
        AdoptFault::Disk
    }
}

/// For a call on the disk that takes memory.
impl From<CallFault> for AdoptFault {
    ghost use Rattle.poll_core.specs.AdoptCause.{adopt_call};

    ghost from_gives = { λ given fault. fault ≡ adopt_call given };

    fn from(given: CallFault) -> AdoptFault {
        match given {
            CallFault::Failed => AdoptFault::Disk,
            CallFault::Memory => AdoptFault::Memory,
        }
    }
}

impl From<JournalFault> for AdoptFault {
    ghost use Rattle.poll_core.specs.AdoptCause.{adopt_journal};

    ghost from_gives = { λ given fault. fault ≡ adopt_journal given };

    fn from(given: JournalFault) -> AdoptFault {
        match given {
            JournalFault::Disk => AdoptFault::Disk,
            JournalFault::Bad { at } => AdoptFault::CheckpointBad { at },
            JournalFault::Memory => AdoptFault::Memory,
        }
    }
}

impl From<CommitFault> for AdoptFault {
    ghost use Rattle.poll_core.specs.AdoptCause.{adopt_commit};

    ghost from_gives = { λ given fault. fault ≡ adopt_commit given };

    fn from(given: CommitFault) -> AdoptFault {
        match given {
            CommitFault::Disk => AdoptFault::Disk,
            CommitFault::Worn { sequence } => AdoptFault::Worn { sequence },
            CommitFault::Memory => AdoptFault::Memory,
        }
    }
}
