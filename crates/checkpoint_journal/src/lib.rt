//! The journal: the agent's memory on its disk, a checkpoint and the changes behind it.
//!
//! A journal is a log whose base is the spelling of a checkpoint, and each of whose records is the spelling of a change
//! that fits what stands before it. So a poll writes what it changed, and the whole checkpoint only now and then.
//!
//! The base may be of any version that can be read, and each change behind it is spelled by that version. Only the newest
//! version is written: a change is appended under a base of the newest alone, and a journal over an older base is rewritten.
//!
//! The contract for the layer above: an image has at most one journal and one checkpoint (`HasJournal`). [`peek`] answers
//! those of what reads give, or the first byte that has no reading. [`put`] puts the next checkpoint, by [`Journal::append`]
//! the change to it or, where that is due (`IsDue`), by [`rewrite`] the whole: at each moment of the three a crash leaves the
//! old checkpoint or the new; after Ok the new one. What was read is never trusted: a length is compared with the file's own
//! before memory is asked for, and a file that gets shorter meanwhile ends there.
#![tactic(auto)]

mod fault;
mod journal;
pub mod laws;
mod peeking;
mod putting;
mod reading;
mod rewriting;

pub use fault::JournalFault;
pub use journal::Journal;
pub use peeking::peek;
pub use putting::{Next, put};
pub use rewriting::rewrite;
