//! Spellings of entries as bytes: what the agent remembers between two runs.
//!
//! **The contract for the layer above.** Each value has one spelling, a function of the value (`entry_spelling` and its
//! parts). The `put` calls append exactly it. The `get` calls read what stands at a place, whatever follows, and refuse
//! all else at the exact byte; what they answer is spelled so in the bytes, and what is spelled so in the bytes they
//! answer. No spelling begins another of its kind ([`laws`]).
//!
//! Numbers are big-endian. Bytes and texts are a u32 length and the bytes. A value is a tag byte: 0 for null, 1 for
//! false, 2 for true, 3 for an integer (8 bytes, two's complement), 4 for a text, 5 for a list (u32 count, values), 6 for
//! a map (u32 count, text keys in strictly ascending order, each followed by its value). An entry is its body,
//! attributes and resource, a severity byte, the severity text, and a byte 0, or a byte 1 and a u64 time.
#![tactic(auto)]

ghost use Rattle.std.specs.Prelude.{◌≡◌};
ghost use Rattle.state_codec.specs.Limits.{levels};

pub mod cursor;
mod entry;
mod get;
pub mod laws;
mod put;
pub mod read;
mod value;

pub use get::{get_bytes, get_entry, get_text, get_u32, get_u64};
pub use put::{put_bytes, put_entry, put_text, put_u32, put_u64};
use thiserror::Error;

/// The most lists and maps that stand around a value inside an entry.
pub const LEVELS: usize = 4_096;

/// The constant is the limit that the definitions have.
pub fn constants_are_the_limits()
    ensures { LEVELS ≡ levels }
{}

/// Why nothing is read.
#[derive(Clone, Copy, Debug, Error, PartialEq, Eq)]
pub enum CodecFault {
    /// No spelling stands there. `at` is the first byte that can't be, or the number of all bytes where only more is
    /// missing. A key that doesn't stand behind the one before it is told at the first byte of its spelling.
    #[error("malformed at byte {at}")]
    Malformed { at: usize },
    #[error("no memory was left")]
    Memory,
}
