//! The lines of one file among those of an output, and what they were made of.
//!
//! An output has the lines of many files, and each line tells at its end whose it is and which of that file's lines
//! (`otlp_json`'s `line_tail`). [`lines_of`] gives those of one file in the order in which they stand, of any bytes, and
//! [`split`] those of several in one walk; [`observed_in`] tells whether a line is that of an entry, and with which observed time. Neither trusts the bytes: what isn't
//! a line as `otlp_json` spells it is no line of any file, and agrees with no entry.
#![tactic(auto)]

mod lines;
mod numbers;
mod observed;
mod splitting;
mod tails;

pub use lines::lines_of;
pub use observed::observed_in;
pub use splitting::split;
