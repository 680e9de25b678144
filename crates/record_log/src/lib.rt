//! Records behind the payload that counts: a log whose base is replaced whole, and that grows by one record at a time.
//!
//! A log file is a slot file with frames behind its payload. Such a frame counts where it begins where the payload or
//! an open record ends, its gate is open, the file has it whole, and its sequence number is the one before it plus 1.
//! The records of the log are those up to the first that doesn't count.
//!
//! The contract for the layer above: [`read`] answers the log of what reads give, its base and its records. At each
//! moment of [`Log::append`] a crash leaves the log as it was or with one more record, and at each moment of
//! [`rewrite`] the old log or the new base alone; after Ok the new one. What the base and the records say is the matter
//! of the layer above.
#![tactic(auto)]

pub mod laws;
mod log;
mod parsing;
mod reading;
mod rewriting;

pub use log::Log;
pub use reading::{Contents, read};
pub use rewriting::rewrite;
