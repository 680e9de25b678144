// The steps that other processes do.
ghost use Rattle.std.specs.Prelude.{◌≡◌, IfOk};
ghost use Rattle.mem_world.specs.WorldSteps.{event_of};

use entry_model::Text;
use std::alloc::{AllocError, AllocFailed, Global};

/// The number by which a log file is known, whatever its name is.
#[derive(Clone, Copy)]
pub struct FileName(pub u32);

/// One step of another process.
#[derive(Drop)]
pub enum WorldStep {
    /// A new, empty file with this name.
    Create { file: FileName, path: Text },
    /// The file grows by these bytes.
    Append { file: FileName, bytes: Vec<u8> },
    /// The file has another name from now on.
    Rename { file: FileName, path: Text },
    /// The file has no name any more.
    Remove { file: FileName },
}

/// Why a step was not played.
#[derive(Clone, Copy, PartialEq, Eq)]
pub enum StepFault {
    /// No process can do this step now.
    NotLawful,
    /// Memory ran out.
    Memory,
}

impl From<AllocError> for StepFault {
    ghost use Rattle.mem_world.specs.declared.world.StepFault.TheVariants.{Memory};

    ghost from_gives = { λ _ fault. fault ≡ Memory };

    fn from(_: AllocError) -> Self {
        StepFault::Memory
    }
}

impl WorldStep {
    /// The same step once more.
    pub fn copied(&self, alloc: Global) -> Result<WorldStep, AllocError>
        ensures { IfOk result (λ step. event_of step ≡ event_of self.now) }
    {
        Ok(match self {
            WorldStep::Create { file, path } => WorldStep::Create {
                file: *file,
                path: path.share()?,
            },
            WorldStep::Append { file, bytes } => WorldStep::Append {
                file: *file,
                bytes: Vec::from_slice(alloc, bytes.as_slice())?,
            },
            WorldStep::Rename { file, path } => WorldStep::Rename {
                file: *file,
                path: path.share()?,
            },
            WorldStep::Remove { file } => WorldStep::Remove { file: *file },
        })
    }
}
