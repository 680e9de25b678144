// What an audit tells in numbers.

/// What an audit tells in numbers.
#[derive(Clone, Copy, Debug, PartialEq, Eq)]
pub struct Audited {
    /// The files that are known.
    pub rows: u32,
    /// Those whose file wasn't found, or couldn't be read as far as it was before.
    pub absent: u32,
    /// The lines that are kept of the files that were read.
    pub lines: u64,
}
