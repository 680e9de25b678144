// Checkpoints and changes whose parts are kept elsewhere, so that nothing is copied to spell them.
ghost use Rattle.std.specs.Prelude.{◌≡◌};
ghost use Rattle.checkpoint_store.specs.Parts.{checkpoint_of_parts};

use crate::{Checkpoint, Eras};
use file_tracker::Row;

/// A checkpoint, as [`Checkpoint`] has it.
#[derive(Clone, Copy)]
pub struct CheckpointParts<'c> {
    pub eras: &'c Eras,
    pub output_length: u64,
    pub observed: u64,
    pub next_id: u32,
    pub rows: &'c [Row],
}

/// A change, as [`Change`](crate::Change) has it, of those rows whose flag is set.
#[derive(Clone, Copy)]
pub struct ChangeParts<'c> {
    pub output_length: u64,
    pub observed: u64,
    pub next_id: u32,
    pub rows: &'c [Row],
    /// Of each row in turn, whether the change has it. Rows past the last flag are none of the change's.
    pub changed: &'c [bool],
}

impl Checkpoint {
    /// The parts of this checkpoint.
    pub fn parts(&self) -> CheckpointParts<'_>
        ensures { checkpoint_of_parts result ≡ self.now }
    {
        CheckpointParts {
            eras: &self.eras,
            output_length: self.output_length,
            observed: self.observed,
            next_id: self.next_id,
            rows: self.rows.as_slice(),
        }
    }
}
