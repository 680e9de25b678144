// Why no session is opened.
ghost use Rattle.std.specs.Prelude.{◌≡◌};
ghost use Rattle.poll_core.specs.declared.fault.OpenFault.TheVariants.{Disk, Memory};

use checkpoint_journal::JournalFault;
use outside::{CallFault, Failed};
use pipeline::BuildFault;
use settings_text::SettingsFault;
use std::alloc::AllocError;
use thiserror::Error;

/// Why no session is opened. They are tested in this order, but that an operator's state (the second cause of
/// [`OpenFault::CheckpointBad`]) is tested after [`OpenFault::SettingsChanged`].
#[derive(Debug, Drop, Error)]
pub enum OpenFault {
    /// The settings can't be read.
    #[error("{0}")]
    Settings(SettingsFault),
    /// What the settings ask for can't be made.
    #[error("{0}")]
    Build(BuildFault),
    /// A call on the disk failed, and its count of faults rose.
    #[error("the disk failed")]
    Disk,
    /// The checkpoint or a change of it has no reading from byte `at` on, counted from the checkpoint's first; or the row
    /// with the id `at` keeps a state that isn't one of these operators, and no row with a lower id does.
    #[error("the checkpoint is bad at {at}")]
    CheckpointBad { at: u64 },
    /// The checkpoint is of other settings, which differ first at byte `at`. Nothing stands past the end of a text.
    #[error("the settings changed at byte {at}")]
    SettingsChanged { at: u64 },
    /// The output has `found` bytes, fewer than the `kept` that the checkpoint keeps.
    #[error("the output has {found} bytes of {kept}")]
    OutputShort { kept: u64, found: u64 },
    #[error("out of memory")]
    Memory,
}

impl From<AllocError> for OpenFault {
    ghost from_gives = { λ _ fault. fault ≡ Memory };

    fn from(_: AllocError) -> OpenFault {
        OpenFault::Memory
    }
}

/// For a call on the disk.
impl From<Failed> for OpenFault {
    ghost from_gives = { λ _ fault. fault ≡ Disk };

    fn from(_: Failed) -> OpenFault {
        OpenFault::Disk
    }
}

/// For a call on the disk that takes memory.
impl From<CallFault> for OpenFault {
    ghost use Rattle.poll_core.specs.OpenCause.{call_refusal};

    ghost from_gives = { λ given fault. fault ≡ call_refusal given };

    fn from(given: CallFault) -> OpenFault {
        match given {
            CallFault::Failed => OpenFault::Disk,
            CallFault::Memory => OpenFault::Memory,
        }
    }
}

impl From<JournalFault> for OpenFault {
    ghost use Rattle.poll_core.specs.OpenCause.{journal_refusal};

    ghost from_gives = { λ given fault. fault ≡ journal_refusal given };

    fn from(given: JournalFault) -> OpenFault {
        match given {
            JournalFault::Disk => OpenFault::Disk,
            JournalFault::Bad { at } => OpenFault::CheckpointBad { at },
            JournalFault::Memory => OpenFault::Memory,
        }
    }
}

impl From<SettingsFault> for OpenFault {
    ghost use Rattle.poll_core.specs.OpenCause.{settings_refusal};

    ghost from_gives = { λ given fault. fault ≡ settings_refusal given };

    fn from(given: SettingsFault) -> OpenFault {
        match given {
            SettingsFault::Memory => OpenFault::Memory,
            other => OpenFault::Settings(other),
        }
    }
}

impl From<BuildFault> for OpenFault {
    ghost use Rattle.poll_core.specs.OpenCause.{build_refusal};

    ghost from_gives = { λ given fault. fault ≡ build_refusal given };

    fn from(given: BuildFault) -> OpenFault {
        match given {
            BuildFault::Memory => OpenFault::Memory,
            other => OpenFault::Build(other),
        }
    }
}
