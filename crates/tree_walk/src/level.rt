// Listing the folders of one depth.
ghost use Rattle.std.specs.List.{IsDistinct};
ghost use Rattle.std.specs.Prelude.{◌≡◌, ◌⊎◌, Contains, OnOk};
ghost use Rattle.std.specs.Str.{bytes_eq};
ghost use Rattle.outside.specs.World.{Told};
ghost use Rattle.tree_walk.specs.Calls.{Lasts};
ghost use Rattle.tree_walk.specs.Depth.{level_of};
ghost use Rattle.tree_walk.specs.Inner.Entered.{Enters, EntersLevel};
ghost use Rattle.tree_walk.specs.Inner.FoundAt.{found_at};
ghost use Rattle.tree_walk.specs.Inner.ListsSome.{ListsSome};
ghost use Rattle.tree_walk.specs.Patterns.{patterns};

use crate::findings::Findings;
use crate::folder::list_folder;
use crate::globs::Globs;
use crate::sorted::sorted;
use crate::starts::add_starts;
use entry_model::Text;
use outside::Tree;
use std::alloc::{AllocError, Global};
use std::mem;

/// Lists the folders that were found and the starts of this depth, each once. Their folders are found then.
pub(crate) fn list_level<T: Tree>(
    alloc: Global,
    tree: &mut T,
    globs: &Globs<'_>,
    starts: &[Text],
    level: usize,
    found: &mut Findings,
) -> Result<(), AllocError>
    ensures ok { OnOk result (EntersLevel T.meaning (patterns globs.now.include.now globs.now.exclude.now) starts.now level (found_at found.old tree.old) (found_at found.new tree.new)) }
    ensures lasts { Lasts T.meaning tree.old tree.new }
    ensures lists { Told (ListsSome (λ folder. Contains found.old.folders.items folder ⊎ (Contains starts.now folder × (level_of folder ≡ level))))
        ((T.meaning).listed tree.old) ((T.meaning).listed tree.new) }
{
    add_starts(starts, level, &mut found.folders)?;
    let folders = sorted(mem::replace(&mut found.folders, Vec::new(alloc)))?;
    list_folders(alloc, tree, globs, &folders, found)
}

fn list_folders<T: Tree>(
    alloc: Global,
    tree: &mut T,
    globs: &Globs<'_>,
    folders: &[Text],
    found: &mut Findings,
) -> Result<(), AllocError>
    ensures ok { OnOk result (Enters T.meaning (patterns globs.now.include.now globs.now.exclude.now) folders.now (found_at found.old tree.old) (found_at found.new tree.new)) }
    ensures lasts { Lasts T.meaning tree.old tree.new }
    ensures lists { IsDistinct bytes_eq folders.now
        → Told (ListsSome (Contains folders.now)) ((T.meaning).listed tree.old) ((T.meaning).listed tree.new) }
{
    for folder in folders {
        list_folder(alloc, tree, globs, folder.as_str(), found)?;
    }
    Ok(())
}
