// The numbers that a pass tells.
ghost use Rattle.std.specs.Prelude.{◌+◌, ◌<◌, ◌^◌};
ghost use Rattle.file_pass.specs.Gain.{Counted, failures, gain_of, no_gain, one_file, one_if, shrinkings};

use crate::ending::Ending;
use crate::found::Found;

/// How many of the paths led to what. Each of 32 bits stands still at 2^32 - 1.
#[derive(Clone, Copy)]
pub struct Counts {
    /// Files that were opened and not empty.
    pub files: u32,
    /// The lines that were written.
    pub lines: u64,
    /// Files with more bytes past their offset than one pass takes.
    pub left: u32,
    /// Paths that led to no plain file any more.
    pub gone: u32,
    /// Files that could not be opened, or not be read to the end that they had then.
    pub failed: u32,
    /// Files that begin as those of gzip do.
    pub compressed: u32,
    /// Files that are shorter than they were.
    pub shrunk: u32,
    /// New files for which there was no row.
    pub full: u32,
}

impl Counts {
    /// The counts with what was found at one more path.
    pub(crate) fn with(self, found: Found) -> Counts
        requires { self.lines + (gain_of found).lines < 2 ^ 64 }
        ensures { Counted self (gain_of found) result }
    {
        match found {
            Found::Gone => Counts {
                gone: self.gone.saturating_add(1),
                ..self
            },
            Found::Missed => Counts {
                failed: self.failed.saturating_add(1),
                ..self
            },
            Found::Nothing => self,
            Found::Unread(ending) => self.with_file().with_ending(ending),
            Found::Compressed => Counts {
                compressed: self.compressed.saturating_add(1),
                ..self.with_file()
            },
            Found::NoRoom => Counts {
                full: self.full.saturating_add(1),
                ..self.with_file()
            },
            Found::Shorter => Counts {
                shrunk: self.shrunk.saturating_add(1),
                ..self.with_file()
            },
            Found::Read {
                ending,
                more,
                lines,
            } => self.with_file().with_lines(lines, more).with_ending(ending),
        }
    }

    /// The counts without a further path.
    pub(crate) fn stand(self)
        ensures { Counted self no_gain self }
    {}

    fn with_file(self) -> Counts
        ensures { Counted self one_file result }
    {
        Counts {
            files: self.files.saturating_add(1),
            ..self
        }
    }

    fn with_lines(self, lines: u64, more: bool) -> Counts
        requires { self.lines + lines < 2 ^ 64 }
        ensures { Counted self (record no_gain { lines = lines; left = one_if more }) result }
    {
        Counts {
            lines: self.lines + lines,
            left: self.left.saturating_add(u32::from(more)),
            ..self
        }
    }

    fn with_ending(self, ending: Ending) -> Counts
        ensures { Counted self (record no_gain { failed = failures ending; shrunk = shrinkings ending }) result }
    {
        match ending {
            Ending::Whole => self,
            Ending::Failed => Counts {
                failed: self.failed.saturating_add(1),
                ..self
            },
            Ending::Shrunk => Counts {
                shrunk: self.shrunk.saturating_add(1),
                ..self
            },
        }
    }
}
