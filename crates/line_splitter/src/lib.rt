//! Log lines out of the bytes of a file.
//!
//! The one contract for the layer above: [`next`] answers the first token of the bytes by the
//! definition `LineTokens` (in specs/), and [`keeps_tokens`] says that more bytes behind change no
//! token. So a file may be read in pieces: the tokens are those of its bytes as a whole.
//! [`entry_text`] is the text that a token gives to a log entry.
//!
//! The rule of lines follows the fileconsumer of the OpenTelemetry Collector (`max_log_size`,
//! `preserve_leading_whitespaces`, `preserve_trailing_whitespaces`).
#![tactic(auto)]

pub mod laws;
mod texts;
mod tokens;

pub use texts::{entry_text, trim};
pub use tokens::{Token, begins_with_first, keeps_tokens, next, text_end};
