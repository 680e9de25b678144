// The walk for the files that patterns include.
ghost use Rattle.std.specs.Prelude.{IfOk};
ghost use Rattle.tree_walk.specs.Calls.{Lasts};
ghost use Rattle.tree_walk.specs.Inner.Finished.{IsFinished};
ghost use Rattle.tree_walk.specs.ListsOnce.{ListsOnce};
ghost use Rattle.tree_walk.specs.Walked.{Finds};

use crate::findings::Findings;
use crate::globs::Globs;
use crate::level::list_level;
use crate::sorted::sorted;
use crate::starts::{add_starts, starts};
use entry_model::Text;
use glob_match::Glob;
use outside::Tree;
use std::alloc::{AllocError, Global};

/// The most components that the path of a folder has which is listed.
pub const MAX_DEPTH: usize = 32;

/// What a walk found.
#[derive(Debug, PartialEq, Drop)]
pub struct Walk {
    /// The paths in byte order, each once.
    pub paths: Vec<Text>,
    /// The lists that failed, and the names that aren't UTF-8. It stands still at 2^32 - 1.
    pub failed: u32,
    /// The folders that weren't listed because their paths have more than `MAX_DEPTH` components. It stands still at
    /// 2^32 - 1.
    pub deep: u32,
}

/// Finds the files that some include matches and no exclude, without the agent's own.
///
/// A walk for an include begins in the folder of its [start](Glob::start). It lists each folder that a listing named as
/// one, in which an include may have a match, once. Links aren't followed, and a folder that is gone when it is to be listed
/// is counted nowhere.
pub fn paths<T: Tree>(
    alloc: Global,
    tree: &mut T,
    include: &[Glob],
    exclude: &[Glob],
) -> Result<Walk, AllocError>
    ensures ok { IfOk result (λ walk. Finds T.meaning include.now exclude.now walk tree.old tree.new) }
    ensures lasts { Lasts T.meaning tree.old tree.new }
    ensures lists { ListsOnce T.meaning include.now tree.old tree.new }
{
    let globs = Globs { include, exclude };
    let starts = starts(alloc, include)?;
    let mut found = Findings::new(alloc);
    for level in 0..MAX_DEPTH + 1 {
        list_level(alloc, tree, &globs, &starts, level, &mut found)?;
    }
    add_starts(&starts, MAX_DEPTH + 1, &mut found.folders)?;
    finish(found)
}

fn finish(found: Findings) -> Result<Walk, AllocError>
    ensures { IfOk result (λ walk. IsFinished found walk) }
{
    let Findings {
        paths,
        folders,
        failed,
    } = found;
    let deep = sorted(folders)?.len();
    Ok(Walk {
        paths: sorted(paths)?,
        failed,
        deep: u32::try_from(deep).unwrap_or(u32::MAX),
    })
}
