// Why a text makes no parser by named groups.
use std::alloc::{AllocError, AllocFailed};
use thiserror::Error;

#[derive(Clone, Copy, Debug, PartialEq, Eq, Drop, Error)]
pub enum RegexFault {
    /// The text isn't a pattern, or nests too deep for one.
    #[error("the text is no pattern")]
    Refused,
    #[error("no group of the pattern has a name")]
    NoNames,
    /// A pattern that is too large for the crate `regex` is told so too.
    #[error("out of memory")]
    Memory,
}

impl From<AllocError> for RegexFault {
    ghost use Rattle.std.specs.Prelude.{◌≡◌};
    ghost use Rattle.text_parsers.specs.declared.regex_fault.RegexFault.TheVariants.{Memory};

    ghost from_gives = { λ _ fault. fault ≡ Memory };

    fn from(_error: AllocError) -> RegexFault {
        RegexFault::Memory
    }
}

impl<T: Drop> From<AllocFailed<T>> for RegexFault {
    ghost use Rattle.std.specs.Prelude.{◌≡◌};
    ghost use Rattle.text_parsers.specs.declared.regex_fault.RegexFault.TheVariants.{Memory};

    ghost from_gives = { λ _ fault. fault ≡ Memory };

    fn from(_error: AllocFailed<T>) -> RegexFault {
        RegexFault::Memory
    }
}
