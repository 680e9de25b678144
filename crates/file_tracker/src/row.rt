// What the agent keeps of one file.
ghost use Rattle.std.specs.Prelude.{◌≡◌, IfOk};

use crate::{Bytes, Ends};
use entry_model::Text;
use std::alloc::{AllocError, Global};

/// A file that the agent knows, and how far it was read.
#[derive(Debug, Drop)]
pub struct Row {
    /// Which file this is, for all that was ever written of it.
    pub id: u32,
    /// The name under which the file was admitted.
    pub path: Text,
    /// The file's first bytes, as they were seen.
    pub front: Bytes,
    /// Where reading began, in bytes from the file's begin.
    pub start: u64,
    /// How many bytes of the file are done with, from the file's begin.
    pub offset: u64,
    /// How many records were cut from the bytes between `start` and `offset`.
    pub records: u64,
    /// How many output lines were made of them.
    pub lines: u64,
    /// What the operators hold back of this file, as they spelled it.
    pub state: Bytes,
    /// Which settings were in force when the file was admitted, the first ones being 1.
    pub born: u32,
    /// Where the parts of the file end that were read under those and each later settings but the last.
    pub ends: Ends,
    /// The file's length when it was last looked at, and how many looks in a row found that length while something waited.
    pub seen: u64,
    pub quiet: u32,
}

impl Row {
    /// A row equal to this one, each part of it a copy.
    pub fn copy(&self, alloc: Global) -> Result<Row, AllocError>
        ensures { IfOk result (λ copy. copy ≡ self.now) }
    {
        Ok(Row {
            id: self.id,
            path: self.path.share()?,
            front: Bytes::from_slice(alloc, self.front.as_slice())?,
            start: self.start,
            offset: self.offset,
            records: self.records,
            lines: self.lines,
            state: Bytes::from_slice(alloc, self.state.as_slice())?,
            born: self.born,
            ends: self.ends.copy(alloc)?,
            seen: self.seen,
            quiet: self.quiet,
        })
    }
}
