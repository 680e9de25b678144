// Why an entry isn't joined.
use entry_model::Entry;
use std::alloc::AllocError;
use std::fmt;
use thiserror::Error;

/// Why an entry isn't taken. It comes back as it was, and the open groups stay.
#[derive(Drop, Error)]
pub enum StepFault {
    /// There is no text at the field whose texts are joined.
    #[error("there is no text to be joined")]
    NotText { entry: Entry },
    /// There is one, but body, attributes or resource are nested deeper than what is saved may be.
    #[error("the entry is nested too deep")]
    TooDeep { entry: Entry },
    #[error("out of memory")]
    Memory,
}

impl fmt::Debug for StepFault {
    fn fmt<W: fmt::Write>(&self, f: &mut fmt::Formatter<W>) -> fmt::Result {
        match self {
            StepFault::NotText { .. } => f.write_str("NotText"),
            StepFault::TooDeep { .. } => f.write_str("TooDeep"),
            StepFault::Memory => f.write_str("Memory"),
        }
    }
}

impl From<AllocError> for StepFault {
    ghost use Rattle.std.specs.Prelude.{◌≡◌};
    ghost use Rattle.recombine.specs.declared.fault.StepFault.TheVariants.{Memory};

    ghost from_gives = { λ _ fault. fault ≡ Memory };

    fn from(_error: AllocError) -> StepFault {
        StepFault::Memory
    }
}
