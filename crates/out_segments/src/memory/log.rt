// What happened to files in memory.
ghost use Rattle.std.specs.Prelude.{◌≡◌};

use crate::parts::PartFile;

/// A call that changes a file or makes it durable.
#[derive(Drop)]
pub(crate) enum Change {
    /// These bytes became the file, on the disk too.
    Put { bytes: Vec<u8> },
    Write { offset: usize, bytes: Vec<u8> },
    /// The file was cut to this length.
    Cut { length: usize },
    Sync,
}

/// One call of the log.
#[derive(Drop)]
pub(crate) struct Entry {
    pub(crate) file: PartFile,
    pub(crate) change: Change,
    /// Whether the call took effect. Otherwise it was only begun.
    pub(crate) taken: bool,
}

impl Entry {
    ghost use Rattle.out_segments.specs.MemLog.{is_done, is_same};

    /// Whether it is a call on this file.
    pub(crate) fn is_of(&self, file: PartFile) -> bool
        ensures { result ≡ is_same self.now.file file }
    {
        self.file == file
    }

    /// Whether it is a write, a cut or a sync that succeeded.
    pub(crate) fn is_done(&self) -> bool
        ensures { result ≡ is_done self.now }
    {
        self.taken && !matches!(&self.change, Change::Put { .. })
    }
}
