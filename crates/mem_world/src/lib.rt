//! The outside world in memory: log files, a disk, a source and a sink that tell all of their contents, and that move,
//! fail or stop at any call that a test picks.
//!
//! The contract for the layers above: each device meets every clause of its trait in `outside`.
//!
//! A [`MemTree`] is a world of log files that moves: each [`WorldStep`] is played by hand, or is scheduled and then
//! played between two calls of the agent. It tells its whole history: [`MemTree::play`] takes exactly the steps that are
//! lawful after that history, and the history grows by exactly the events that were played or that the agent's calls
//! made. [`MemTree::spoil`] alone does what no process of the world may, and then the tree tells its history no more.
//!
//! What reads give of a [`MemDisk`] and what a crash may leave of it are told by its log: between two syncs of a file
//! each written range, and the part past the old end, may hold any bytes, and a cut leaves the old or the new length.
//! `MemDisk::crash` answers one of these images.
#![tactic(auto)]

mod disk;
mod sink;
mod source;
mod tree;
mod world;

pub use disk::MemDisk;
pub use sink::MemSink;
pub use source::MemSource;
pub use tree::MemTree;
pub use world::{FileName, StepFault, WorldStep};
