//! When what waits at the end of a file is to be flushed, and what it is then.
//!
//! **The contract for the layer above.** [`look`] counts the looks that found a file as it was while something of it waits, and
//! says at which of them it is flushed (`looked` of specs/Looked.antt). [`rest`] gives the first token of the bytes that wait
//! (`rest_cut` of specs/Rests.antt); all of them are used by the tokens of a rest ([`laws::rests_use_all`]).
//!
//! The words follow the fileconsumer of the OpenTelemetry Collector (`force_flush_period`), with looks in place of time.
#![tactic(auto)]

mod idle;
pub mod laws;
mod rests;

pub use idle::{Idle, look};
pub use rests::rest;
