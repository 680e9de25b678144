//! Two slot files, of which one at a time counts: a payload that is replaced whole, and that a crash leaves either as
//! it was or as it is to be.
//!
//! A slot file is a frame: a gate byte, a sequence number and a length of 8 bytes each, the more significant byte
//! first, and a payload of that length. It is open where the gate is a5 and the file has the frame whole. The open slot
//! with the greater sequence number counts. [`commit`] writes the slot that doesn't, behind a closed gate, and opens
//! the gate once the rest is on the disk. Before that it cuts the file to nothing: else a gate that is torn open could
//! bring back what a run that was stopped had left there.
//!
//! The contract for the layer above: [`choose`] and [`load`] answer the slot that counts and its payload. At each
//! moment of [`commit`] a crash leaves an image that chooses the old payload or the new, and after Ok the new alone.
//! A frame behind others in one file is written by [`frame`] in the same way.
#![tactic(auto)]

mod choosing;
mod committing;
mod cutting;
mod fault;
pub mod frame;
pub mod laws;
mod reading;
mod slot;
mod writing;

pub use choosing::{choose, load};
pub use committing::commit;
pub use cutting::cut_synced;
pub use fault::CommitFault;
pub use reading::{fill, read_part};
pub use slot::Slot;
pub use writing::write_synced;
