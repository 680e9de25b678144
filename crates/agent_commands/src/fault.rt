// Why a command ends with a status other than 0.
ghost use Rattle.std.specs.Prelude.{◌≡◌};

use checkpoint_journal::JournalFault;
use folder_audit::AuditFault;
use pipeline::BuildFault;
use poll_core::{AdoptFault, OpenFault, PollFault};
use settings_text::SettingsFault;

/// Why a command ends with a status other than 0, as it is told. What a command calls has faults of its own, by which their causes are
/// said: [`OpenFault`], [`PollFault`], [`JournalFault`], [`AdoptFault`] and [`AuditFault`].
#[derive(Debug, Drop)]
pub enum Fault {
    /// The words are no command.
    Usage,
    /// The settings can't be read.
    Settings(SettingsFault),
    /// What the settings ask for can't be built.
    Build(BuildFault),
    /// The checkpoint has no reading from byte `at` on; or the row with the id `at` keeps a state that isn't one of the
    /// operators that the settings ask for.
    CheckpointBad { at: u64 },
    /// The checkpoint is of other settings, which differ first at byte `at`.
    SettingsChanged { at: u64 },
    /// The output has `found` bytes, fewer than the `kept` that the checkpoint keeps.
    OutputShort { kept: u64, found: u64 },
    /// A call on the disk failed.
    Disk,
    /// The control input failed.
    Control,
    /// Memory ran out.
    Memory,
    /// With the next line the output, or what `pipe` prints, would have this many bytes, more than it may have.
    OutputFull { length: u64 },
    /// The control line with this number, from 1, is no request, or too long.
    ControlLine { number: u64 },
    /// The checkpoint can't be written, since no sequence number follows its last one.
    Worn,
    /// As many bytes of the control input were taken as may be, and the command hasn't ended.
    ControlLong,
    /// Nothing is kept, so that nothing is to be adopted or audited.
    NothingKept,
    /// As many settings were in force one after another as may be.
    Eras,
    /// Files are known by `kept` bytes, and were to be known by `found`.
    Fingerprint { kept: u32, found: u32 },
    /// Settings that are kept can't be read: the last ones where others are to be adopted, the first such ones in an audit.
    KeptSettings(SettingsFault),
    /// What they ask for can't be built.
    KeptBuild(BuildFault),
    /// The file with this id, and the number of the first of its lines that isn't what the file gives.
    Differs { file: u64, line: u64 },
    /// Some of the settings flush what waits, so that lines depend on when a file was looked at.
    FlushOn,
    /// So many bytes of the output are kept, more than an audit reads.
    Large { length: u64 },
}

impl Fault {
    ghost use Rattle.agent_commands.specs.Status.{status_of};

    /// The exit status.
    pub fn status(&self) -> u8
        ensures { result ≡ status_of self.now }
    {
        match self {
            Fault::Usage => 2,
            Fault::Settings(_) | Fault::Build(_) => 3,
            Fault::CheckpointBad { .. } => 4,
            Fault::SettingsChanged { .. } => 5,
            Fault::OutputShort { .. } => 6,
            Fault::Disk => 7,
            Fault::Control => 8,
            Fault::Memory => 10,
            Fault::OutputFull { .. } => 11,
            Fault::ControlLine { .. } => 12,
            Fault::Worn => 13,
            Fault::ControlLong => 15,
            Fault::NothingKept => 16,
            Fault::Eras => 17,
            Fault::Fingerprint { .. } => 18,
            Fault::KeptSettings(_) | Fault::KeptBuild(_) => 19,
            Fault::Differs { .. } => 20,
            Fault::FlushOn => 21,
            Fault::Large { .. } => 22,
        }
    }
}

impl From<OpenFault> for Fault {
    ghost use Rattle.agent_commands.specs.Faults.{opening_fault};

    ghost from_gives = { λ fault made. made ≡ opening_fault fault };

    fn from(fault: OpenFault) -> Self {
        match fault {
            OpenFault::Settings(refused) => Fault::Settings(refused),
            OpenFault::Build(refused) => Fault::Build(refused),
            OpenFault::Disk => Fault::Disk,
            OpenFault::CheckpointBad { at } => Fault::CheckpointBad { at },
            OpenFault::SettingsChanged { at } => Fault::SettingsChanged { at },
            OpenFault::OutputShort { kept, found } => Fault::OutputShort { kept, found },
            OpenFault::Memory => Fault::Memory,
        }
    }
}

impl From<PollFault> for Fault {
    ghost use Rattle.agent_commands.specs.Faults.{polling_fault};

    ghost from_gives = { λ fault made. made ≡ polling_fault fault };

    fn from(fault: PollFault) -> Self {
        match fault {
            PollFault::Disk => Fault::Disk,
            PollFault::OutputFull { length } => Fault::OutputFull { length },
            PollFault::Worn { .. } => Fault::Worn,
            PollFault::Memory => Fault::Memory,
        }
    }
}

/// For a look at the checkpoint alone.
impl From<JournalFault> for Fault {
    ghost use Rattle.agent_commands.specs.Faults.{reading_fault};

    ghost from_gives = { λ fault made. made ≡ reading_fault fault };

    fn from(fault: JournalFault) -> Self {
        match fault {
            JournalFault::Disk => Fault::Disk,
            JournalFault::Bad { at } => Fault::CheckpointBad { at },
            JournalFault::Memory => Fault::Memory,
        }
    }
}

impl From<AdoptFault> for Fault {
    ghost use Rattle.agent_commands.specs.Faults.{adopting_fault};

    ghost from_gives = { λ fault made. made ≡ adopting_fault fault };

    fn from(fault: AdoptFault) -> Self {
        match fault {
            AdoptFault::Settings(refused) => Fault::Settings(refused),
            AdoptFault::Build(refused) => Fault::Build(refused),
            AdoptFault::Disk => Fault::Disk,
            AdoptFault::NothingKept => Fault::NothingKept,
            AdoptFault::CheckpointBad { at } => Fault::CheckpointBad { at },
            AdoptFault::KeptSettings(refused) => Fault::KeptSettings(refused),
            AdoptFault::Kept(refused) => Fault::KeptBuild(refused),
            AdoptFault::OutputShort { kept, found } => Fault::OutputShort { kept, found },
            AdoptFault::Fingerprint { kept, found } => Fault::Fingerprint { kept, found },
            AdoptFault::Eras => Fault::Eras,
            AdoptFault::OutputFull { length } => Fault::OutputFull { length },
            AdoptFault::Worn { .. } => Fault::Worn,
            AdoptFault::Memory => Fault::Memory,
        }
    }
}

impl From<AuditFault> for Fault {
    ghost use Rattle.agent_commands.specs.Faults.{auditing_fault};

    ghost from_gives = { λ fault made. made ≡ auditing_fault fault };

    fn from(fault: AuditFault) -> Self {
        match fault {
            AuditFault::Disk => Fault::Disk,
            AuditFault::NothingKept => Fault::NothingKept,
            AuditFault::CheckpointBad { at } => Fault::CheckpointBad { at },
            AuditFault::KeptSettings(refused) => Fault::KeptSettings(refused),
            AuditFault::KeptBuild(refused) => Fault::KeptBuild(refused),
            AuditFault::OutputShort { kept, found } => Fault::OutputShort { kept, found },
            AuditFault::FlushOn => Fault::FlushOn,
            AuditFault::Large { length } => Fault::Large { length },
            AuditFault::Differs { file, line } => Fault::Differs { file, line },
            AuditFault::Memory => Fault::Memory,
        }
    }
}
