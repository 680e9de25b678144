//! The outside world as five traits: the [`Tree`] of log files, the [`Disk`] with the agent's own files, the
//! [`Source`] of control lines, the [`Sink`] of reports and the [`Clock`].
//!
//! Everything that the agent promises is said in the words of this crate. A tree may tell its history: then each
//! call says which events it added, while other processes change the tree between any two calls and within one.
//! A disk may tell which images a crash would leave now, and which it might have left at any moment since an
//! earlier one. What isn't told, as by the real file system, is promised nothing about.
//!
//! The contract for the layers above: counts of faults never fall, and a fault comes only where one rose; a told
//! tree's history grows by lawful steps of others and by the agent's own events; a told disk's images change only
//! as a crash inside the call at hand allows; a told clock gives its readings in turn.
#![tactic(auto)]

mod clock;
mod disk;
mod fault;
pub mod laws;
mod sink;
mod source;
mod tree;

pub use clock::{Clock, MemClock};
pub use disk::{Disk, DiskFile};
pub use fault::{CallFault, Failed};
pub use sink::Sink;
pub use source::Source;
pub use tree::{Handle, Item, Kind, Listed, Opened, Tree};
