// Why a value isn't parsed.
use json_text::JsonFault;
use std::alloc::{AllocError, AllocFailed};
use thiserror::Error;

#[derive(Clone, Copy, Debug, PartialEq, Eq, Drop, Error)]
pub enum ParseFault {
    /// The value is no text.
    #[error("the value is no text")]
    NotText,
    /// The pattern is found nowhere in the text.
    #[error("the text doesn't match")]
    NoMatch,
    /// The text goes wrong at this byte.
    #[error("the text is malformed at byte {at}")]
    Syntax { at: usize },
    /// There are `got` fields in place of `want`.
    #[error("the text has {got} fields in place of {want}")]
    FieldCount { want: usize, got: usize },
    /// Nothing parts key and value of what begins at this byte.
    #[error("the text has no delimiter behind byte {at}")]
    NoDelimiter { at: usize },
    #[error("out of memory")]
    Memory,
}

impl From<AllocError> for ParseFault {
    ghost use Rattle.std.specs.Prelude.{◌≡◌};
    ghost use Rattle.text_parsers.specs.declared.fault.ParseFault.TheVariants.{Memory};

    ghost from_gives = { λ _ fault. fault ≡ Memory };

    fn from(_error: AllocError) -> ParseFault {
        ParseFault::Memory
    }
}

impl<T: Drop> From<AllocFailed<T>> for ParseFault {
    ghost use Rattle.std.specs.Prelude.{◌≡◌};
    ghost use Rattle.text_parsers.specs.declared.fault.ParseFault.TheVariants.{Memory};

    ghost from_gives = { λ _ fault. fault ≡ Memory };

    fn from(_error: AllocFailed<T>) -> ParseFault {
        ParseFault::Memory
    }
}

impl From<JsonFault> for ParseFault {
    ghost use Rattle.text_parsers.specs.JsonObjects.{IsToldOfJson};

    ghost from_gives = { IsToldOfJson };

    fn from(fault: JsonFault) -> ParseFault {
        match fault {
            JsonFault::Syntax { at } | JsonFault::TooDeep { at } => ParseFault::Syntax { at },
            JsonFault::Memory => ParseFault::Memory,
        }
    }
}
