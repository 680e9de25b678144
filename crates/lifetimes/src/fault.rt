// Why a script has no ending.
ghost use Rattle.std.specs.Prelude.{◌≡◌};
ghost use Rattle.lifetimes.specs.declared.fault.ScriptFault.TheVariants.{Memory};

use poll_core::OpenFault;
use std::alloc::{AllocError, AllocFailed};
use thiserror::Error;

/// Why a script doesn't come to its end. `at` is the place of its event in the script, from 0.
#[derive(Debug, Drop, Error)]
pub enum ScriptFault {
    /// The settings are refused, which is tested before the first event: `Settings` or `Build` alone.
    #[error("{0}")]
    Setup(OpenFault),
    /// A poll without a session.
    #[error("event {at} polls without a session")]
    NotOpen { at: usize },
    /// An opening while there is a session.
    #[error("event {at} opens a session beside another")]
    AlreadyOpen { at: usize },
    /// A step that no process can do then.
    #[error("event {at} is a step that isn't lawful")]
    NotLawful { at: usize },
    #[error("out of memory")]
    Memory,
}

impl From<AllocError> for ScriptFault {
    ghost from_gives = { λ _ fault. fault ≡ Memory };

    fn from(_: AllocError) -> ScriptFault {
        ScriptFault::Memory
    }
}

/// For a mark that found no room.
impl From<AllocFailed<u64>> for ScriptFault {
    ghost from_gives = { λ _ fault. fault ≡ Memory };

    fn from(_: AllocFailed<u64>) -> ScriptFault {
        ScriptFault::Memory
    }
}

impl From<OpenFault> for ScriptFault {
    ghost use Rattle.lifetimes.specs.Refusal.{setup_fault};

    ghost from_gives = { λ given fault. fault ≡ setup_fault given };

    fn from(given: OpenFault) -> ScriptFault {
        match given {
            OpenFault::Memory => ScriptFault::Memory,
            other => ScriptFault::Setup(other),
        }
    }
}
