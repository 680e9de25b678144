//! What readers of a front answer: a value and the bytes behind it, or where it can't go on. Spellings that are built of
//! numbers, bytes and texts are read by these, part after part.
ghost use Rattle.std.specs.Prelude.{◌≡◌};
ghost use Rattle.state_codec.specs.declared.cursor.Fault.TheVariants.{Memory};

use std::alloc::{AllocError, AllocFailed};

/// Why nothing is read from the front of some bytes.
#[derive(Clone, Copy)]
pub enum Fault {
    /// So many bytes are left from the first one that can't be.
    Malformed(usize),
    Memory,
}

impl From<AllocError> for Fault {
    ghost from_gives = { λ _ fault. fault ≡ Memory };

    fn from(_: AllocError) -> Fault {
        Fault::Memory
    }
}

impl<T: Drop> From<AllocFailed<T>> for Fault {
    ghost from_gives = { λ _ fault. fault ≡ Memory };

    fn from(_: AllocFailed<T>) -> Fault {
        Fault::Memory
    }
}
