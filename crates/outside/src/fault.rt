// What a call on the outside answers in place of a result.
ghost use Rattle.std.specs.Prelude.{◌≡◌};
ghost use Rattle.outside.specs.declared.fault.CallFault.TheVariants.{Memory};

use std::alloc::{AllocError, AllocFailed};

/// Why a call that takes memory gave no result.
#[derive(Clone, Copy, Debug, PartialEq, Eq)]
pub enum CallFault {
    /// The outside failed, and its count of faults rose.
    Failed,
    /// Memory ran out.
    Memory,
}

/// The outside failed, and its count of faults rose.
#[derive(Clone, Copy, Debug, PartialEq, Eq)]
pub struct Failed;

impl From<AllocError> for CallFault {
    ghost from_gives = { λ _ fault. fault ≡ Memory };

    fn from(_: AllocError) -> Self {
        CallFault::Memory
    }
}

impl<T: Drop> From<AllocFailed<T>> for CallFault {
    ghost from_gives = { λ _ fault. fault ≡ Memory };

    fn from(_: AllocFailed<T>) -> Self {
        Self::Memory
    }
}
