// Why a text is refused.
use entry_model::Text;
use std::alloc::{AllocError, AllocFailed};
use thiserror::Error;

/// The one refusal of a text. A `key` is a path into the text, as `operators[2].field`.
#[derive(Debug, Drop, Error)]
pub enum SettingsFault {
    /// The text is not one JSON object.
    #[error("not-json")]
    NotJson,
    /// A key that must stand is missing.
    #[error("missing {key}")]
    Missing { key: Text },
    /// A key that no table has.
    #[error("unknown {key}")]
    Unknown { key: Text },
    /// What stands at the key is of another kind than the key's.
    #[error("wrong-kind {key}")]
    WrongKind { key: Text },
    /// What stands at the key is of its kind, and against its rule.
    #[error("out-of-range {key}")]
    OutOfRange { key: Text },
    /// A number at the key is no whole number that fits 64 bits.
    #[error("fraction {key}")]
    Fraction { key: Text },
    /// The text has so many bytes, more than 1,048,576.
    #[error("too-long {length}")]
    TooLong { length: u64 },
    /// Memory ran out.
    #[error("memory")]
    Memory,
}

impl From<AllocError> for SettingsFault {
    ghost use Rattle.std.specs.Prelude.{◌≡◌};
    ghost use Rattle.settings_text.specs.declared.fault.SettingsFault.TheVariants.{Memory};

    ghost from_gives = { λ _ fault. fault ≡ Memory };

    fn from(_refused: AllocError) -> SettingsFault {
        SettingsFault::Memory
    }
}

impl<T: Drop> From<AllocFailed<T>> for SettingsFault {
    ghost use Rattle.std.specs.Prelude.{◌≡◌};
    ghost use Rattle.settings_text.specs.declared.fault.SettingsFault.TheVariants.{Memory};

    ghost from_gives = { λ _ fault. fault ≡ Memory };

    fn from(_refused: AllocFailed<T>) -> SettingsFault {
        SettingsFault::Memory
    }
}
