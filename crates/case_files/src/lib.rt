//! Cases as plain text: a call, its input, and the answer that is wanted, in files that a person reads and adds to.
//!
//! A file is of blocks with empty lines between them. A block that begins with `#` is a comment. Any other is a case:
//!
//! ```text
//! CALL WORDS..
//! INPUT
//! ----
//! WANTED
//! ```
//!
//! The input has any number of lines, and `\xNN` in it stands for the byte NN. The contract for the layer above:
//! [`Case::read`] takes a block apart (`IsCase`), and [`check_files`] asks for the answer of each case of the files, and prints
//! those that differ.
#![tactic(auto)]

mod case;
mod checking;
mod escapes;

pub use case::Case;
pub use checking::{Answers, check_files};
pub use escapes::{shown, unescaped};
