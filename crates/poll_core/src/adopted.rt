// What adopting settings tells in numbers.

/// What adopting settings tells in numbers.
#[derive(Clone, Copy, Debug, PartialEq, Eq)]
pub struct Adopted {
    /// The files that are known.
    pub rows: u32,
    /// The lines of what the operators before held back.
    pub lines: u64,
    /// The settings that were in force one after another, with these.
    pub eras: u32,
    /// How many bytes of the output are kept.
    pub output: u64,
}
