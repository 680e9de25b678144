// What a pass comes to at a path.
use crate::ending::Ending;

/// What was found at a path.
#[derive(Clone, Copy)]
pub enum Found {
    /// No plain file has the path.
    Gone,
    /// The file couldn't be opened.
    Missed,
    /// The file is empty.
    Nothing,
    /// Its front couldn't be read.
    Unread(Ending),
    /// It begins as a gzip file does.
    Compressed,
    /// No row is the file's, and no more can be had.
    NoRoom,
    /// It is shorter than its row's offset.
    Shorter,
    /// It was read on, which gave so many lines.
    Read {
        ending: Ending,
        /// It was read as far as one pass goes, and there is more.
        more: bool,
        lines: u64,
    },
}
