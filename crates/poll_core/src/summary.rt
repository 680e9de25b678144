// What a poll tells of itself.
use file_pass::Taking;
use tree_walk::Walk;

/// The numbers of one poll. Each of 32 bits stands still at 2^32 - 1.
#[derive(Clone, Copy, Debug)]
pub struct Summary {
    /// Files that were opened and not empty.
    pub files: u32,
    /// The lines that were written.
    pub lines: u64,
    /// Files with more bytes past their offset than one poll takes.
    pub left: u32,
    /// Paths that led to no plain file any more when they were opened.
    pub gone: u32,
    /// Files that could not be opened, or not be read to the end that they had then, folders that could not be listed,
    /// and names that aren't UTF-8.
    pub failed: u32,
    /// Files that begin as those of gzip do, which are passed over.
    pub compressed: u32,
    /// Files that are shorter than they were.
    pub shrunk: u32,
    /// New files that were passed over since 65,536 are known.
    pub full: u32,
    /// Folders that weren't listed since they lie too deep.
    pub deep: u32,
    /// How many bytes of the output are kept.
    pub output: u64,
}

impl Summary {
    ghost use Rattle.poll_core.specs.Summed.{IsSummaryOf};

    /// The numbers of a walk and of the pass over its paths.
    pub(crate) fn of(walk: &Walk, taking: &Taking) -> Summary
        ensures { IsSummaryOf walk.now taking.now result }
    {
        let counts = taking.counts;
        Summary {
            files: counts.files,
            lines: counts.lines,
            left: counts.left,
            gone: counts.gone,
            failed: counts.failed.saturating_add(walk.failed),
            compressed: counts.compressed,
            shrunk: counts.shrunk,
            full: counts.full,
            deep: walk.deep,
            output: taking.end,
        }
    }
}
