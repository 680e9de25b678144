// What is kept of a folder.
ghost use Rattle.std.specs.Prelude.{◌≤◌, IsTrue, Some, length, IfOk, IfErr, OnOk};
ghost use Rattle.checkpoint_journal.specs.JournalOf.{HasCheckpoint};
ghost use Rattle.checkpoint_store.specs.Limits.{newest};
ghost use Rattle.checkpoint_store.specs.Rules.{IsCheckpoint};
ghost use Rattle.folder_audit.specs.Cause.{HasAuditCause};
ghost use Rattle.folder_audit.specs.KeptFiles.{IsFit};
ghost use Rattle.folder_audit.specs.Inner.KeptOf.{IsKept};
ghost use Rattle.folder_audit.specs.Limits.{largest_kept};
ghost use Rattle.folder_audit.specs.Refusals.{Flush, IsRefusal};
ghost use Rattle.folder_audit.specs.Inner.Steps.{IsNoOutput, IsOutput, IsPastLimits, IsTooShort};
ghost use Rattle.outside.specs.declared.disk.DiskFile.{DiskFile};
ghost use Rattle.slot_store.specs.OnlyRead.{OnlyRead};

use crate::eras::{flush, operators_of};
use crate::fault::AuditFault;
use checkpoint_journal::peek;
use checkpoint_store::Checkpoint;
use file_tracker::Tracker;
use kept_lines::split;
use outside::{Disk, DiskFile};
use pipeline::Pipeline;
use slot_store::read_part;
use std::alloc::Global;

/// The greatest kept length of an output that is read, in bytes.
const LARGEST_KEPT: u64 = 268_435_456;

/// What an audit goes by.
#[derive(Drop)]
pub(crate) struct Kept {
    /// The operators of each era.
    pub(crate) pipes: Vec<Pipeline>,
    pub(crate) rows: Tracker,
    /// What is kept of the output, as the lines of each row, one behind the other.
    pub(crate) lines: Vec<Vec<u8>>,
}

/// What is kept on the disk, of which nothing is written.
pub(crate) fn kept_on<D: Disk>(alloc: Global, disk: &mut D) -> Result<Kept, AuditFault>
    ensures fit { IfOk result IsFit }
    ensures kept { IfOk result (λ kept. IsTrue (D.meaning.images.tells disk.old) → IsKept (D.meaning.images.seen disk.old) kept) }
    ensures refused { IfErr result (λ fault. IsTrue (D.meaning.images.tells disk.old) → IsRefusal (D.meaning.images.seen disk.old) fault) }
    ensures only_read { OnlyRead D.meaning disk.old disk.new }
    ensures cause { HasAuditCause result (D.meaning.faults disk.old) (D.meaning.faults disk.new) }
{
    let checkpoint = checkpoint_on(alloc, disk)?;
    let pipes = operators_of(alloc, &checkpoint)?;
    let output = output_on(alloc, disk, &pipes, checkpoint.output_length)?;
    let lines = split(alloc, &output, checkpoint.rows.as_slice().len())?;
    Ok(Kept {
        pipes,
        rows: checkpoint.rows.into_tracker(alloc)?,
        lines,
    })
}

// The checkpoint that the disk has.
fn checkpoint_on<D: Disk>(alloc: Global, disk: &mut D) -> Result<Checkpoint, AuditFault>
    ensures has { IfOk result (λ checkpoint. IsTrue (D.meaning.images.tells disk.old)
        → HasCheckpoint (Some checkpoint) (D.meaning.images.seen disk.old)) }
    ensures lawful { IfOk result (IsCheckpoint newest) }
    ensures refused { IfErr result (λ fault. IsTrue (D.meaning.images.tells disk.old) → IsRefusal (D.meaning.images.seen disk.old) fault) }
    ensures only_read { OnlyRead D.meaning disk.old disk.new }
    ensures cause { HasAuditCause result (D.meaning.faults disk.old) (D.meaning.faults disk.new) }
{
    let found = peek(alloc, disk)?;
    match found {
        Some((_, checkpoint)) => Ok(checkpoint),
        None => Err(AuditFault::NothingKept),
    }
}

// What is kept of the output, where it is long enough, nothing is flushed, and it isn't too much.
fn output_on<D: Disk>(
    alloc: Global,
    disk: &mut D,
    pipes: &[Pipeline],
    kept: u64,
) -> Result<Vec<u8>, AuditFault>
    ensures output { IfOk result (λ output. IsTrue (D.meaning.images.tells disk.old)
        → IsOutput pipes.now kept (D.meaning.images.seen disk.old DiskFile.Output) output.items) }
    ensures none { IfErr result (λ fault. IsTrue (D.meaning.images.tells disk.old)
        → IsNoOutput pipes.now kept (D.meaning.images.seen disk.old DiskFile.Output) fault) }
    ensures only_read { OnlyRead D.meaning disk.old disk.new }
    ensures cause { HasAuditCause result (D.meaning.faults disk.old) (D.meaning.faults disk.new) }
{
    check_size(disk, kept)?;
    check_limits(pipes, kept)?;
    let output = read_part(alloc, disk, DiskFile::Output, 0, kept)?;
    Ok(output)
}

// The output is as long as is kept of it.
fn check_size<D: Disk>(disk: &mut D, kept: u64) -> Result<(), AuditFault>
    ensures ok { OnOk result (IsTrue (D.meaning.images.tells disk.old) → kept ≤ length (D.meaning.images.seen disk.old DiskFile.Output)) }
    ensures short { IfErr result (λ fault. IsTrue (D.meaning.images.tells disk.old)
        → IsTooShort kept (D.meaning.images.seen disk.old DiskFile.Output) fault) }
    ensures only_read { OnlyRead D.meaning disk.old disk.new }
    ensures cause { HasAuditCause result (D.meaning.faults disk.old) (D.meaning.faults disk.new) }
{
    let found = disk.length(DiskFile::Output)?;
    if found < kept {
        return Err(AuditFault::OutputShort { kept, found });
    }
    Ok(())
}

// Nothing is flushed, and no more is kept than is read.
fn check_limits(pipes: &[Pipeline], kept: u64) -> Result<(), AuditFault>
    ensures ok { OnOk result ((Flush pipes.now → ⊥) × (kept ≤ largest_kept)) }
    ensures past { IfErr result (IsPastLimits pipes.now kept) }
{
    if flush(pipes) {
        return Err(AuditFault::FlushOn);
    }
    if kept > LARGEST_KEPT {
        return Err(AuditFault::Large { length: kept });
    }
    Ok(())
}
