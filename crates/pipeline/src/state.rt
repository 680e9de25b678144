// What is kept of a file from one feed to the next.
use op_kinds::OpState;

/// How far a file was fed.
#[derive(Drop)]
pub struct FileState {
    /// The tokens so far, those without an entry too.
    pub records: u64,
    /// The lines so far.
    pub lines: u64,
    /// What each operator keeps.
    pub states: Vec<OpState>,
}
