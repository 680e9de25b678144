// An open file, and how reading it ends.
ghost use Rattle.std.specs.Prelude.{◌≡◌, false, true};
ghost use Rattle.file_pass.specs.declared.ending.Ending.TheVariants.{Whole};

use entry_model::Text;
use outside::Handle;

/// An open file, and its length in bytes when it was opened.
#[derive(Clone, Copy)]
pub struct OpenFile {
    pub handle: Handle,
    pub size: u64,
}

/// An open file, and the path under which it was found.
#[derive(Clone, Copy)]
pub struct PathFile<'f> {
    pub path: &'f Text,
    pub file: OpenFile,
}

/// An open file of which the first bytes were seen, and its path.
#[derive(Clone, Copy)]
pub struct SeenFile<'f> {
    pub path: &'f Text,
    pub file: OpenFile,
    pub front: &'f [u8],
}

/// An open file, and the place of its row.
#[derive(Clone, Copy)]
pub struct RowFile {
    pub file: OpenFile,
    pub place: usize,
}

/// How the reading of a file ended.
#[derive(Clone, Copy)]
pub enum Ending {
    /// At the place that was asked for.
    Whole,
    /// At a read that failed.
    Failed,
    /// At the file's end, before that place.
    Shrunk,
}

impl Ending {
    /// Whether it ended at the place that was asked for.
    pub fn is_whole(self) -> bool
        ensures yes { result ≡ true → self ≡ Whole }
        ensures no { result ≡ false → self ≡ Whole → ⊥ }
    {
        match self {
            Ending::Whole => true,
            Ending::Failed => false,
            Ending::Shrunk => false,
        }
    }
}
