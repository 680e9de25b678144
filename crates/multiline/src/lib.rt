//! Log entries of several lines, as stack traces, out of the bytes of a file.
//!
//! The one contract for the layer above: [`Cutter::next`] answers the first token of the bytes by the definition
//! `MultilineTokens` (in specs/), and [`laws::keeps_tokens`] says that more bytes behind change no token. So a file may be
//! read in pieces: the tokens are those of its bytes as a whole. The tokens are cut by a rule of `line_splitter`
//! ([`laws::tokens_are_cut_by_a_rule`]), whose laws on the cuts up to a bound hold of them as of lines.
//!
//! The settings are those of the fileconsumer of the OpenTelemetry Collector (`multiline` with `line_start_pattern` or
//! `line_end_pattern`, `max_log_size`). The search line by line is this crate's own rule.
#![tactic(auto)]

mod cutter;
mod fault;
pub mod laws;
mod lines;
mod pattern;
mod stops;

pub use cutter::Cutter;
pub use fault::PatternFault;
pub use line_splitter::Token;
