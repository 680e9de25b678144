// What a script ends with.
use mem_world::{MemDisk, MemTree};

/// The world and the disk at the end of a script, and what happened on the way.
#[derive(Drop)]
pub struct Ending {
    pub tree: MemTree,
    pub disk: MemDisk,
    /// How many polls there were, those that were stopped too.
    pub polls: u64,
    /// How many polls and openings were stopped.
    pub stops: u64,
    /// For each event, the length of the tree's history after it.
    pub marks: Vec<u64>,
}
