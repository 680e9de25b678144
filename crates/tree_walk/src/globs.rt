// What the patterns of a walk say of a path.
ghost use Rattle.std.specs.Prelude.{◌↔◌, IsTrue};
ghost use Rattle.standing.specs.Included.{IsIncluded, MatchesAny};
ghost use Rattle.tree_walk.specs.Starts.{MayHold};

use crate::own_names::is_own_name;
use glob_match::Glob;

/// The patterns of a walk.
#[derive(Clone, Copy)]
pub struct Globs<'g> {
    pub include: &'g [Glob],
    pub exclude: &'g [Glob],
}

impl Globs<'_> {
    /// Whether a file of this path is to be found.
    pub(crate) fn include_path(&self, path: &str) -> bool
        ensures { IsTrue result ↔ IsIncluded self.now.include.now self.now.exclude.now path.now }
    {
        match_any(self.include, path) && !match_any(self.exclude, path) && !is_own_name(path)
    }

    /// Whether a match may lie in the folder, or below it.
    pub(crate) fn may_hold(&self, folder: &str) -> bool
        ensures { IsTrue result ↔ MayHold self.now.include.now folder.now }
    {
        for glob in self.include {
            if glob.lists(folder) {
                return true;
            }
        }
        false
    }
}

fn match_any(globs: &[Glob], path: &str) -> bool
    ensures { IsTrue result ↔ MatchesAny globs.now path.now }
{
    for glob in globs {
        if glob.matches(path) {
            return true;
        }
    }
    false
}
