// Judging the row of an open file.
ghost use Rattle.std.specs.Prelude.{◌≡◌, ◌+◌, ◌-◌, ◌<◌, ◌≤◌, IsTrue, All, min, length, IfOk, IfSome};
ghost use Rattle.folder_audit.specs.Inner.Tried.{FindsOpen, JudgesOpen, KnowsOpen, UnlessRose};
ghost use Rattle.folder_audit.specs.KeptFiles.{IsFit, IsLast};
ghost use Rattle.folder_audit.specs.Limits.{largest_read};
ghost use Rattle.folder_audit.specs.Open.{GoesOn, IsOpenFound, IsPlaced, IsRead};
ghost use Rattle.outside.specs.Opening.{largest_size};
ghost use Rattle.pipeline.specs.Parts.{settings_of};
ghost use Rattle.pipeline.specs.declared.Pipeline.{Pipeline};

use crate::eras::last_of;
use crate::findings::Finding;
use crate::kept::Kept;
use crate::reading::read_range;
use auditor::audit_row;
use file_tracker::Row;
use outside::{Handle, Tree};
use pipeline::Pipeline;
use std::alloc::{AllocError, Global};

/// The most bytes of a file that are read between where its reading began and its row's offset.
const LARGEST_READ: u64 = 67_108_864;

/// An open file, and its length in bytes when it was opened.
#[derive(Clone, Copy)]
pub(crate) struct OpenFile {
    pub(crate) handle: Handle,
    pub(crate) size: u64,
}

/// The place of an open file's row, where it has one, and what is found of it.
pub(crate) fn judge_file<T: Tree>(
    alloc: Global,
    tree: &mut T,
    kept: &Kept,
    file: OpenFile,
) -> Result<Option<(usize, Finding)>, AllocError>
    requires fit { IsFit kept.now }
    requires size { file.size ≤ largest_size }
    ensures ok { IfOk result (λ judged. IfSome judged (λ one. IsOpenFound kept.now file one.0 one.1 (T.meaning.world tree.old) (T.meaning.world tree.new))) }
    ensures finds { IfOk result (λ judged. UnlessRose T.meaning (FindsOpen kept.now file judged) tree.old tree.new) }
    ensures tree { GoesOn T.meaning tree.old tree.new }
{
    let Some(place) = place_of(alloc, tree, kept, file)? else {
        return Ok(None);
    };
    let finding = judge(alloc, tree, kept, file, place)?;
    Ok(Some((place, finding)))
}

// The place of an open file's row, where it has one and its first bytes could be read.
fn place_of<T: Tree>(
    alloc: Global,
    tree: &mut T,
    kept: &Kept,
    file: OpenFile,
) -> Result<Option<usize>, AllocError>
    requires fit { IsFit kept.now }
    requires size { file.size ≤ largest_size }
    ensures ok { IfOk result (λ found. IfSome found (λ place. IsPlaced kept.now file place (T.meaning.world tree.old) (T.meaning.world tree.new))) }
    ensures knows { IfOk result (λ found. UnlessRose T.meaning (KnowsOpen kept.now file found) tree.old tree.new) }
    ensures tree { GoesOn T.meaning tree.old tree.new }
{
    let size = front_size(&kept.pipes, file.size);
    let mut front = vec![in alloc; 0; size]?;
    if !read_range(tree, file.handle, 0, &mut front) {
        return Ok(None);
    }
    Ok(kept.rows.find(&front))
}

// How many of a file's first bytes tell it from others.
fn front_size(pipes: &[Pipeline], size: u64) -> usize
    requires { 1 ≤ length pipes.now }
    ensures { (last : Pipeline) → IsLast pipes.now last → result ≡ min (settings_of last).fingerprint_size size }
{
    let most = last_of(pipes).settings().fingerprint_size;
    u64::from(most).min(size) as usize
}

// What is found of the row at this place by the bytes of an open file.
fn judge<T: Tree>(
    alloc: Global,
    tree: &mut T,
    kept: &Kept,
    file: OpenFile,
    place: usize,
) -> Result<Finding, AllocError>
    requires fit { IsFit kept.now }
    requires size { file.size ≤ largest_size }
    requires within { place < length kept.now.rows }
    ensures ok { IfOk result (λ finding. IsRead kept.now file place finding (T.meaning.world tree.old) (T.meaning.world tree.new)) }
    ensures judges { IfOk result (λ finding. UnlessRose T.meaning (JudgesOpen kept.now file place finding) tree.old tree.new) }
    ensures tree { GoesOn T.meaning tree.old tree.new }
{
    let row = kept.rows.row(place);
    if !is_readable(row, file.size) {
        return Ok(Finding::Absent);
    }
    let pipes = &kept.pipes[row.born as usize - 1..];
    let last = last_place(pipes, row.offset).min(file.size);
    let mut bytes = vec![in alloc; 0; (last - row.start) as usize]?;
    if !read_range(tree, file.handle, row.start, &mut bytes) {
        return Ok(Finding::Absent);
    }
    let verdict = audit_row(alloc, pipes, row, &bytes, &kept.lines[place])?;
    Ok(Finding::of(verdict, row.lines))
}

// Whether the file has all that was read of it, which isn't too much.
fn is_readable(row: &Row, size: u64) -> bool
    requires { row.now.start ≤ row.now.offset }
    ensures yes { IsTrue result → (row.now.offset ≤ size) × (row.now.offset - row.now.start ≤ largest_read) }
    ensures no { row.now.offset ≤ size → row.now.offset - row.now.start ≤ largest_read → IsTrue result }
{
    row.offset <= size && row.offset - row.start <= LARGEST_READ
}

// Where the bytes end that decide each token up to the offset.
fn last_place(pipes: &[Pipeline], offset: u64) -> u64
    requires { offset ≤ largest_size }
    ensures past { offset ≤ result }
    ensures each { All (λ (pipe : Pipeline). offset + (settings_of pipe).max_log_size + 2 ≤ result) pipes.now }
{
    let mut most = 0;
    for pipe in pipes {
        most = pipe.settings().max_log_size.max(most);
    }
    offset + u64::from(most) + 2
}
