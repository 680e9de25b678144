// The audit of a folder.
ghost use Rattle.std.specs.Prelude.{◌≡◌, ℕ, IsTrue, Err, IfOk, IfErr};
ghost use Rattle.folder_audit.specs.Audited.{IsAudited, IsDiffering};
ghost use Rattle.folder_audit.specs.Cause.{HasAuditCause};
ghost use Rattle.folder_audit.specs.Findings.{HasFound};
ghost use Rattle.folder_audit.specs.Inner.Tried.{FindsDue};
ghost use Rattle.folder_audit.specs.KeptFiles.{IsFit};
ghost use Rattle.folder_audit.specs.Open.{GoesOn};
ghost use Rattle.folder_audit.specs.Refusals.{IsAuditRefusal};
ghost use Rattle.slot_store.specs.OnlyRead.{OnlyRead};

use crate::audited::Audited;
use crate::eras::last_of;
use crate::fault::AuditFault;
use crate::findings::{Finding, tally};
use crate::kept::{Kept, kept_on};
use crate::looking::look_at_all;
use glob_match::laws::text_spells_one_pattern;
use outside::{Disk, Tree};
use std::alloc::{AllocError, Global};
use tree_walk::paths;

/// Audits what the disk keeps by the files of the tree: of each row that is kept the file is found by its first bytes among those
/// that the last settings include, is read once more from where its reading began, and its lines are made anew and compared with
/// those that the output keeps. Nothing is written to the disk.
///
/// A row counts as absent whose file isn't found or can't be read, is shorter than it was read before, or of which more than
/// 67,108,864 bytes were read. What a tree's call fails at is counted nowhere else.
pub fn audit<T: Tree, D: Disk>(
    alloc: Global,
    tree: &mut T,
    disk: &mut D,
) -> Result<Audited, AuditFault>
    ensures audited { IfOk result (λ audited. IsTrue (D.meaning.images.tells disk.old)
        → IsAudited T.meaning (D.meaning.images.seen disk.old) audited tree.old tree.new) }
    ensures differs { (file line : ℕ) → result ≡ Err (AuditFault.Differs file line) → IsTrue (D.meaning.images.tells disk.old)
        → IsDiffering T.meaning (D.meaning.images.seen disk.old) file line tree.old tree.new }
    ensures refused { IfErr result (λ fault. IsTrue (D.meaning.images.tells disk.old) → IsAuditRefusal (D.meaning.images.seen disk.old) fault) }
    ensures only_read { OnlyRead D.meaning disk.old disk.new }
    ensures cause { HasAuditCause result (D.meaning.faults disk.old) (D.meaning.faults disk.new) }
    ensures tree { GoesOn T.meaning tree.old tree.new }
{
    text_spells_one_pattern();
    let kept = kept_on(alloc, disk)?;
    let found = found_of(alloc, tree, &kept)?;
    tally(kept.rows.as_slice(), &found)
}

// What is found of each row.
fn found_of<T: Tree>(alloc: Global, tree: &mut T, kept: &Kept) -> Result<Vec<Finding>, AllocError>
    requires { IsFit kept.now }
    ensures found { IfOk result (λ found. HasFound kept.now found.items (T.meaning.world tree.old) (T.meaning.world tree.new)) }
    ensures due { IfOk result (λ found. FindsDue T.meaning kept.now found.items tree.old tree.new) }
    ensures tree { GoesOn T.meaning tree.old tree.new }
{
    let last = last_of(&kept.pipes);
    let walk = paths(alloc, tree, last.include(), last.exclude())?;
    look_at_all(alloc, tree, kept, &walk.paths)
}
