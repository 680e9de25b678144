//! JSON texts after [RFC 8259](https://www.rfc-editor.org/rfc/rfc8259), as values of the data model.
//!
//! The contract for the layer above: [`read`] answers exactly the value that a text spells by the grammar of RFC 8259,
//! in the definition `IsText`, or the first byte from which no such text can go on. A number keeps its spelling unless
//! it is an integer of 64 bits, a repeated name keeps the last value, and half a surrogate pair is U+FFFD.
#![tactic(auto)]

mod bytes;
mod content;
mod escape;
mod fault;
pub mod laws;
mod number;
mod reader;
mod strings;

pub use fault::JsonFault;
pub use reader::read;
