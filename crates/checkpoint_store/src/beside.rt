// What a row is read beside.

/// The numbers of a checkpoint that the rules of its rows speak of.
#[derive(Clone, Copy)]
pub struct Beside {
    /// By which the rows are spelled.
    pub version: u8,
    /// How many settings texts there are.
    pub eras: u64,
    /// The length of the output.
    pub output_length: u64,
}
