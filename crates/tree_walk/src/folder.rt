// Listing one folder.
ghost use Rattle.std.specs.Prelude.{◌≡◌, ◌∷◌, [], OnOk};
ghost use Rattle.outside.specs.World.{Told};
ghost use Rattle.tree_walk.specs.Calls.{Lasts};
ghost use Rattle.tree_walk.specs.Inner.Entered.{Enters};
ghost use Rattle.tree_walk.specs.Inner.FoundAt.{found_at};
ghost use Rattle.tree_walk.specs.Inner.Gained.{TakesItems};
ghost use Rattle.tree_walk.specs.Inner.ListsSome.{ListsSome};
ghost use Rattle.tree_walk.specs.Patterns.{patterns};

use crate::findings::Findings;
use crate::globs::Globs;
use crate::path::path_within;
use entry_model::Text;
use outside::{CallFault, Item, Kind, Listed, Tree};
use std::alloc::{AllocError, Global};

/// Lists the folder, and adds what is in it to what was found.
pub(crate) fn list_folder<T: Tree>(
    alloc: Global,
    tree: &mut T,
    globs: &Globs<'_>,
    folder: &str,
    found: &mut Findings,
) -> Result<(), AllocError>
    ensures ok { OnOk result (Enters T.meaning (patterns globs.now.include.now globs.now.exclude.now) (folder.now ∷ []) (found_at found.old tree.old) (found_at found.new tree.new)) }
    ensures lasts { Lasts T.meaning tree.old tree.new }
    ensures lists { Told (ListsSome (λ listed. listed ≡ folder.now)) ((T.meaning).listed tree.old) ((T.meaning).listed tree.new) }
{
    match tree.list(alloc, folder) {
        Ok(Listed::Items { items, unnamed }) => {
            found.failed = found.failed.saturating_add(unnamed);
            take_items(alloc, globs, folder, &items, found)
        }
        Ok(Listed::Gone) => Ok(()),
        Err(CallFault::Failed) => {
            found.failed = found.failed.saturating_add(1);
            Ok(())
        }
        Err(CallFault::Memory) => Err(AllocError),
    }
}

fn take_items(
    alloc: Global,
    globs: &Globs<'_>,
    folder: &str,
    items: &[Item],
    found: &mut Findings,
) -> Result<(), AllocError>
    ensures { OnOk result (TakesItems globs.now.include.now globs.now.exclude.now folder.now items.now found.old found.new) }
{
    for item in items {
        take_item(alloc, globs, folder, item, found)?;
    }
    Ok(())
}

fn take_item(
    alloc: Global,
    globs: &Globs<'_>,
    folder: &str,
    item: &Item,
    found: &mut Findings,
) -> Result<(), AllocError>
    ensures { OnOk result (TakesItems globs.now.include.now globs.now.exclude.now folder.now (item.now ∷ []) found.old found.new) }
{
    match item.kind {
        Kind::File => {
            let path = path_within(alloc, folder, item.name.as_str())?;
            if globs.include_path(path.as_str()) {
                found.paths.push(Text::new(path)?)?;
            }
        }
        Kind::Folder => {
            let path = path_within(alloc, folder, item.name.as_str())?;
            if globs.may_hold(path.as_str()) {
                found.folders.push(Text::new(path)?)?;
            }
        }
        Kind::Other => {}
    }
    Ok(())
}
