// Why a folder isn't audited, or which line of it differs.
ghost use Rattle.std.specs.Prelude.{◌≡◌};
ghost use Rattle.folder_audit.specs.declared.fault.AuditFault.TheVariants.{Disk, Memory};

use checkpoint_journal::JournalFault;
use outside::{CallFault, Failed};
use pipeline::BuildFault;
use settings_text::SettingsFault;
use std::alloc::{AllocError, AllocFailed};

/// Why a folder isn't audited, or which line of it differs. They are tested in this order, but that an operator's state (the
/// second cause of [`AuditFault::CheckpointBad`]) is tested after [`AuditFault::KeptBuild`].
#[derive(Debug, Drop)]
pub enum AuditFault {
    /// A call on the disk failed, and its count of faults rose.
    Disk,
    /// No checkpoint is there, so that nothing is to be audited.
    NothingKept,
    /// The checkpoint or a change of it has no reading from byte `at` on, counted from the checkpoint's first; or the row
    /// with the id `at` keeps a state that isn't one of the last operators, and no row with a lower id does.
    CheckpointBad { at: u64 },
    /// Of the settings that are kept some can't be read. The first such ones count, and so for the next fault.
    KeptSettings(SettingsFault),
    /// What they ask for can't be made.
    KeptBuild(BuildFault),
    /// The output has `found` bytes, fewer than the `kept` that the checkpoint keeps.
    OutputShort { kept: u64, found: u64 },
    /// Some of the settings flush what waits, so that lines depend on when a file was looked at.
    FlushOn,
    /// So many bytes of the output are kept, more than an audit reads.
    Large { length: u64 },
    /// The file with this id, and the number of the first of its lines that differs or of which only one is there; where there is
    /// none, one more than there are lines.
    Differs { file: u64, line: u64 },
    Memory,
}

impl From<AllocError> for AuditFault {
    ghost from_gives = { λ _ fault. fault ≡ Memory };

    fn from(_: AllocError) -> AuditFault {
        AuditFault::Memory
    }
}

impl<T: Drop> From<AllocFailed<T>> for AuditFault {
    ghost from_gives = { λ _ fault. fault ≡ Memory };

    fn from(_: AllocFailed<T>) -> AuditFault {
        AuditFault::Memory
    }
}

/// For a call on the disk.
impl From<Failed> for AuditFault {
    ghost from_gives = { λ _ fault. fault ≡ Disk };

    fn from(_: Failed) -> AuditFault {
        AuditFault::Disk
    }
}

/// For a call on the disk that takes memory.
impl From<CallFault> for AuditFault {
    ghost use Rattle.folder_audit.specs.Cause.{audit_call};

    ghost from_gives = { λ given fault. fault ≡ audit_call given };

    fn from(given: CallFault) -> AuditFault {
        match given {
            CallFault::Failed => AuditFault::Disk,
            CallFault::Memory => AuditFault::Memory,
        }
    }
}

impl From<JournalFault> for AuditFault {
    ghost use Rattle.folder_audit.specs.Cause.{audit_journal};

    ghost from_gives = { λ given fault. fault ≡ audit_journal given };

    fn from(given: JournalFault) -> AuditFault {
        match given {
            JournalFault::Disk => AuditFault::Disk,
            JournalFault::Bad { at } => AuditFault::CheckpointBad { at },
            JournalFault::Memory => AuditFault::Memory,
        }
    }
}
