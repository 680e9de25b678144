// Why a text is no JSON.
use std::alloc::{AllocError, AllocFailed};
use thiserror::Error;

#[derive(Clone, Copy, Debug, PartialEq, Eq, Drop, Error)]
pub enum JsonFault {
    /// `at` is the first byte from which the text can't go on, or its length where only more is missing.
    #[error("no JSON at byte {at}")]
    Syntax { at: usize },
    /// `at` is the bracket that opens the 65th level of lists and objects.
    #[error("JSON is nested too deep at byte {at}")]
    TooDeep { at: usize },
    #[error("out of memory")]
    Memory,
}

impl From<AllocError> for JsonFault {
    ghost use Rattle.std.specs.Prelude.{◌≡◌};
    ghost use Rattle.json_text.specs.declared.fault.JsonFault.TheVariants.{Memory};

    ghost from_gives = { λ _ fault. fault ≡ Memory };

    fn from(_error: AllocError) -> JsonFault {
        JsonFault::Memory
    }
}

impl<T: Drop> From<AllocFailed<T>> for JsonFault {
    ghost use Rattle.std.specs.Prelude.{◌≡◌};
    ghost use Rattle.json_text.specs.declared.fault.JsonFault.TheVariants.{Memory};

    ghost from_gives = { λ _ fault. fault ≡ Memory };

    fn from(_error: AllocFailed<T>) -> JsonFault {
        JsonFault::Memory
    }
}
