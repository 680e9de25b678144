// Where the walks for the includes begin.
ghost use Rattle.std.specs.Prelude.{◌≡◌, map, Contains, IfOk, OnOk};
ghost use Rattle.glob_match.specs.Leading.{LeadsToMatches};
ghost use Rattle.glob_match.specs.Pattern.{Pattern};
ghost use Rattle.glob_match.specs.Start.{start};
ghost use Rattle.tree_walk.specs.Depth.{level_of};
ghost use Rattle.tree_walk.specs.Inner.Gained.{Gains};

use crate::path::depth;
use crate::walk::MAX_DEPTH;
use entry_model::Text;
use glob_match::Glob;
use std::alloc::{AllocError, Global};

/// The folder in which the walk for each include begins.
pub(crate) fn starts(alloc: Global, include: &[Glob]) -> Result<Vec<Text>, AllocError>
    ensures starts { IfOk result (λ starts. starts.items ≡ map start include.now) }
    ensures leads { OnOk result ((glob : Pattern) → Contains include.now glob → LeadsToMatches glob) }
{
    let mut starts = Vec::new(alloc);
    for glob in include {
        glob.leads_to_matches();
        starts.push(Text::new(glob.start(alloc)?)?)?;
    }
    Ok(starts)
}

/// Puts the starts of this depth behind the folders. All that lie too deep are one depth.
pub(crate) fn add_starts(
    starts: &[Text],
    level: usize,
    folders: &mut Vec<Text>,
) -> Result<(), AllocError>
    ensures { OnOk result (Gains (λ folder. Contains starts.now folder × (level_of folder ≡ level)) folders.old.items folders.new.items) }
{
    for start in starts {
        if depth(start.as_str()).min(MAX_DEPTH + 1) == level {
            folders.push(start.share()?)?;
        }
    }
    Ok(())
}
