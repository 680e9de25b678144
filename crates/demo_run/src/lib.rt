//! A demonstration of the agent in memory: rounds of lines in three logs, of which one is rotated, with polls of which some
//! are stopped.
//!
//! **The contract for the layer above.** [`play_rounds`] plays the script of `specs/Script` and tells what its ending has
//! (`IsDemo` of `specs/Shown`). The files of every script can be told apart ([`laws::files_are_apart`]).
#![tactic(auto)]

mod ending;
pub mod laws;
mod playing;
mod show;

pub use show::{Demo, play_rounds};
