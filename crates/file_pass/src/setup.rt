// What a pass goes by.
use pipeline::Pipeline;
use std::alloc::Global;

#[derive(Clone, Copy)]
pub struct Setup<'s> {
    /// Where memory is had from.
    pub alloc: Global,
    /// What the lines are made by.
    pub pipeline: &'s Pipeline,
    /// The settings of which it was built, byte for byte.
    pub settings: &'s [u8],
    /// How many settings there were, with these.
    pub era: u32,
    /// The time of the lines in nanoseconds since 1970, where they have one.
    pub observed: Option<u64>,
    /// Whether no checkpoint stood: under `start_at: end` new files are then read from their end.
    pub first: bool,
    /// The greatest length of the output in bytes.
    pub limit: u64,
}
