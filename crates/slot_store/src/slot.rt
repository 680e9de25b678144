// An open slot.
use outside::DiskFile;

/// A slot file that is open, and what its head says.
#[derive(Clone, Copy, Debug, PartialEq, Eq)]
pub struct Slot {
    pub file: DiskFile,
    pub sequence: u64,
    /// The payload's length in bytes.
    pub length: u64,
}
