// What devices in memory keep to. The functions do nothing.
ghost use Rattle.std.specs.Prelude.{◌≤◌, IfSome};
ghost use Rattle.outside.specs.Lawful.{TellsLawful};
ghost use Rattle.outside.specs.Plan.{HasFollowed};

use outside::{Disk, Tree};

// No disk fails more often than its bound says, and no more of its calls succeed than its limit says.
pub(crate) fn disk_keeps_its_terms<D: Disk>(disk: &D)
    ensures bound { IfSome (D.meaning.bound disk.now) (λ most. D.meaning.faults disk.now ≤ most) }
    ensures limit { IfSome (D.meaning.limit disk.now) (λ most. IfSome (D.meaning.done disk.now) (λ count. count ≤ most)) }
{
    let _disk = disk;
}

// A tree's history is lawful and follows its plan, and it fails no more often than its bound says.
pub(crate) fn tree_keeps_its_terms<T: Tree>(tree: &T)
    ensures lawful { TellsLawful (T.meaning.world tree.now) }
    ensures followed { HasFollowed (T.meaning.plan tree.now) (T.meaning.world tree.now) }
    ensures bound { IfSome (T.meaning.bound tree.now) (λ most. T.meaning.faults tree.now ≤ most) }
{
    let _tree = tree;
}
