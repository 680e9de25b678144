//! The ends of files' parts: what operators held back of a file comes out, and its next part begins.
//!
//! **The contract for the layer above.** [`close_all`] closes all files of a tracker (`HasClosed` of specs/Closing.antt): each row has
//! one end more, and begins its next part with the state that the next operators begin with (`row_adopted` of `standing`); the lines
//! are those of what was held back, file by file in the order of their ids (`lines_closed` of `standing`), each with the file's next
//! number.
#![tactic(auto)]

mod closing;

pub use closing::{Closer, Closing, close_all};
