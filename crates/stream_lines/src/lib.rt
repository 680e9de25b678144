//! The lines of bytes that come as one stream, as those of file 1 with the path `stdin`.
//!
//! **The contract for the layer above.** [`print_lines`] takes a source to its end, in whatever pieces it gives its bytes, and
//! prints their lines. What it printed is told by the bytes and the time of the lines alone: the open lines (`open_lines` of
//! specs/StreamLines.antt) are those of the tokens that more bytes can't change; the whole lines (`whole_lines`) are those of a
//! stream that has ended, with the rest of its bytes, and with what the operators held back. `Streams` of specs/Streams.antt says
//! for each answer which of them the report has. The first begin the second ([`laws::open_lines_stay`]).
#![tactic(auto)]

mod fault;
pub mod laws;
mod printing;
mod reading;
mod stream;

pub use fault::StreamFault;
pub use stream::print_lines;
