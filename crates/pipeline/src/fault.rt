// Why settings give no pipeline.
use graph_core::GraphFault;
use op_kinds::OpCause;
use std::alloc::{AllocError, AllocFailed};
use thiserror::Error;

/// Why settings give no pipeline. Places count from 0.
#[derive(Clone, Copy, Debug, PartialEq, Eq, Drop, Error)]
pub enum BuildFault {
    /// The pattern at this place of the includes, or of the excludes, is no glob. It goes wrong at this byte.
    #[error("pattern {place} is no glob at byte {at} (exclude: {exclude})")]
    Glob {
        exclude: bool,
        place: u64,
        at: usize,
    },
    /// The text at the key `multiline` is no pattern.
    #[error("the pattern of multiline can't be read")]
    Multiline,
    /// The operator at this place has the id of one before it.
    #[error("operator {place} has the id of one before it")]
    SameId {
        place: u64,
    },
    /// The operator at this place can't be made.
    #[error("operator {place}: {cause}")]
    Operator {
        place: u64,
        cause: OpCause,
    },
    /// The operators make no graph.
    #[error("{0}")]
    Graph(GraphFault),
    #[error("out of memory")]
    Memory,
}

impl From<AllocError> for BuildFault {
    ghost use Rattle.std.specs.Prelude.{◌≡◌};
    ghost use Rattle.pipeline.specs.declared.fault.BuildFault.TheVariants.{Memory};

    ghost from_gives = { λ _ fault. fault ≡ Memory };

    fn from(_error: AllocError) -> BuildFault {
        BuildFault::Memory
    }
}

impl<T: Drop> From<AllocFailed<T>> for BuildFault {
    ghost use Rattle.std.specs.Prelude.{◌≡◌};
    ghost use Rattle.pipeline.specs.declared.fault.BuildFault.TheVariants.{Memory};

    ghost from_gives = { λ _ fault. fault ≡ Memory };

    fn from(_error: AllocFailed<T>) -> BuildFault {
        BuildFault::Memory
    }
}
