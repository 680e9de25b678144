// Looking at the files.
ghost use Rattle.std.specs.Prelude.{◌≡◌, ◌⊎◌, ◌<◌, ℕ, Some, length, slice_get, IfOk, IfSome};
ghost use Rattle.folder_audit.specs.Findings.{HasFound, IsOneFound};
ghost use Rattle.folder_audit.specs.Inner.Tried.{FindsPath, FindsWalked, IsIn, IsOf, IsSome, UnlessRose};
ghost use Rattle.folder_audit.specs.KeptFiles.{AreToRead, IsFit, IsToRead};
ghost use Rattle.folder_audit.specs.Open.{GoesOn};
ghost use Rattle.folder_audit.specs.declared.findings.Finding.{Finding};

use crate::findings::Finding;
use crate::judging::{OpenFile, judge_file};
use crate::kept::Kept;
use entry_model::Text;
use outside::{CallFault, Opened, Tree};
use std::alloc::{AllocError, Global};

/// What is found of each row by the files that have these paths. The first file that could be read counts.
pub(crate) fn look_at_all<T: Tree>(
    alloc: Global,
    tree: &mut T,
    kept: &Kept,
    paths: &[Text],
) -> Result<Vec<Finding>, AllocError>
    requires fit { IsFit kept.now }
    requires included { AreToRead kept.now.pipes.items paths.now }
    ensures found { IfOk result (λ found. HasFound kept.now found.items (T.meaning.world tree.old) (T.meaning.world tree.new)) }
    ensures walked { IfOk result (λ found. FindsWalked T.meaning kept.now found.items paths.now tree.old tree.new) }
    ensures tree { GoesOn T.meaning tree.old tree.new }
{
    let mut found = vec![in alloc; Finding::Absent; kept.rows.len()]?;
    for path in paths {
        let judged = look_at(alloc, tree, kept, path.as_str())?;
        note_judged(&mut found, judged);
    }
    Ok(found)
}

// Notes what is found of a row, where it is something, and nothing was found of it before.
fn note_judged(found: &mut [Finding], judged: Option<(usize, Finding)>)
    ensures many { length found.new ≡ length found.old }
    ensures each { (k : ℕ) (one : Finding) → slice_get found.new k ≡ Some one → (slice_get found.old k ≡ Some one) ⊎ (judged ≡ Some (k, one)) }
    ensures stay { (k : ℕ) → IsIn found.old k → IsIn found.new k }
    ensures noted { (k : ℕ) → k < length found.old → IsOf judged k → IsIn found.new k }
{
    if let Some((place, finding)) = judged {
        note(found, place, finding);
    }
}

// Notes what is found of the row at a place, where nothing was found before.
fn note(found: &mut [Finding], place: usize, finding: Finding)
    ensures many { length found.new ≡ length found.old }
    ensures each { (k : ℕ) (one : Finding) → slice_get found.new k ≡ Some one → (slice_get found.old k ≡ Some one) ⊎ ((k ≡ place) × (one ≡ finding)) }
    ensures stay { (k : ℕ) → IsIn found.old k → IsIn found.new k }
    ensures noted { place < length found.old → IsSome finding → IsIn found.new place }
{
    if let Some(Finding::Absent) = found.get(place) {
        found[place] = finding;
    }
}

// Opens one path, judges the row of the file that has it, and closes it.
fn look_at<T: Tree>(
    alloc: Global,
    tree: &mut T,
    kept: &Kept,
    path: &str,
) -> Result<Option<(usize, Finding)>, AllocError>
    requires fit { IsFit kept.now }
    requires included { IsToRead kept.now.pipes.items path.now }
    ensures ok { IfOk result (λ judged. IfSome judged (λ one. IsOneFound kept.now one.0 one.1 (T.meaning.world tree.old) (T.meaning.world tree.new))) }
    ensures finds { IfOk result (λ judged. UnlessRose T.meaning (FindsPath kept.now (IsOf judged) path.now) tree.old tree.new) }
    ensures tree { GoesOn T.meaning tree.old tree.new }
{
    match tree.open_file(alloc, path) {
        Ok(Opened::File { handle, size }) => {
            let judged = judge_file(alloc, tree, kept, OpenFile { handle, size });
            tree.close(handle);
            judged
        }
        Ok(Opened::Gone) => Ok(None),
        Ok(Opened::NotAFile) => Ok(None),
        Err(CallFault::Failed) => Ok(None),
        Err(CallFault::Memory) => Err(AllocError),
    }
}
