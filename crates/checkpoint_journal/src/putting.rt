// The next checkpoint, behind the one that stands or beside it.
ghost use Rattle.std.specs.Prelude.{◌≡◌, ℕ, ◌+◌, ◌^◌, ◌≤◌, false, length, Err, Some, IsTrue, IfOk, IfSome, OnOk};
ghost use Rattle.outside.specs.Crash.{Passes};
ghost use Rattle.slot_store.specs.CommitCause.{HasCommitCause};
ghost use Rattle.slot_store.specs.Committed.{LeavesOne};
ghost use Rattle.slot_store.specs.Counted.{DoneFewer};
ghost use Rattle.slot_store.specs.Frame.{last_number};
ghost use Rattle.slot_store.specs.OnlyRead.{KeepsTerms};
ghost use Rattle.slot_store.specs.Synced.{EachLeft};
ghost use Rattle.checkpoint_store.specs.Limits.{newest};
ghost use Rattle.checkpoint_store.specs.Parts.{checkpoint_of_parts};
ghost use Rattle.checkpoint_store.specs.Rules.{IsCheckpoint};
ghost use Rattle.checkpoint_store.specs.Spelling.{checkpoint_spelling};
ghost use Rattle.checkpoint_journal.specs.Costs.{Costs, WrittenAtMost, cost_of_rows};
ghost use Rattle.checkpoint_journal.specs.Due.{IsDue};
ghost use Rattle.checkpoint_journal.specs.JournalOf.{EndsWith};
ghost use Rattle.checkpoint_journal.specs.Memory.{KeepsMemory};
ghost use Rattle.checkpoint_journal.specs.Next.{AwaitsNext, IsNext, change_of_next};
ghost use Rattle.checkpoint_journal.specs.Puts.{Puts};
ghost use Rattle.checkpoint_journal.specs.Short.{IsShort};
ghost use Rattle.checkpoint_journal.specs.Written.{IsWorn};

use crate::journal::Journal;
use crate::rewriting::rewrite;
use checkpoint_store::{ChangeParts, CheckpointParts, NEWEST_VERSION, checkpoint_size};
use outside::Disk;
use slot_store::CommitFault;
use std::alloc::Global;

// How many bytes of changes stand behind a small checkpoint before it is written anew.
const SPARE: u64 = 65_536;

/// The next checkpoint, and what of it the one before hasn't.
#[derive(Clone, Copy)]
pub struct Next<'n> {
    pub checkpoint: CheckpointParts<'n>,
    /// Of each row in turn, whether it is new or differs. Rows past the last flag are as they were.
    pub changed: &'n [bool],
}

/// Puts the next checkpoint: what changed behind the journal that counts or, where that is due, a whole one beside it. It is
/// due where no journal counts, where its version is an older one, and where the changes behind its base have become longer
/// than twice the whole checkpoint and 64 KiB.
///
/// Each image has this journal, or no open slot where there is none, and ends with it; and what changed makes the next
/// checkpoint of what stands there. At each moment a crash leaves the old checkpoint or the next, and after Ok the next.
/// Where fewer than four calls on the disk succeeded it leaves the old one. After a fault the disk is to be read again.
pub fn put<D: Disk>(
    alloc: Global,
    disk: &mut D,
    journal: Option<Journal>,
    next: &Next<'_>,
) -> Result<Journal, CommitFault>
    requires lawful { IsCheckpoint newest (checkpoint_of_parts next.now.checkpoint) }
    requires short { IfSome journal IsShort }
    requires awaits { EachLeft D.meaning.images disk.old (AwaitsNext journal (checkpoint_of_parts next.now.checkpoint) (change_of_next next.now)) }
    ensures put { IfOk result (λ after. EachLeft D.meaning.images disk.new (EndsWith after (checkpoint_of_parts next.now.checkpoint))) }
    ensures one { OnOk result (LeavesOne D.meaning.images disk.old → LeavesOne D.meaning.images disk.new) }
    ensures next { IfOk result (IsNext journal (checkpoint_of_parts next.now.checkpoint) (change_of_next next.now)) }
    ensures not_worn { OnOk result (IsWorn journal → ⊥) }
    ensures crash { Passes D.meaning.images (Puts journal (checkpoint_of_parts next.now.checkpoint)) disk.old disk.new }
    ensures early { DoneFewer 4 (D.meaning.done disk.old) (D.meaning.done disk.new) → Passes D.meaning.images (KeepsMemory journal) disk.old disk.new }
    ensures worn { (sequence : ℕ) → result ≡ Err (CommitFault.Worn sequence) → (sequence ≡ last_number) × IsWorn journal }
    ensures costs { Costs journal (checkpoint_of_parts next.now.checkpoint) (change_of_next next.now).rows (D.meaning.written disk.old) (D.meaning.written disk.new) }
    ensures cause { HasCommitCause result (D.meaning.faults disk.old) (D.meaning.faults disk.new) }
    ensures terms { KeepsTerms D.meaning disk.old disk.new }
{
    match journal {
        Some(behind) => {
            if is_due(behind, next) {
                put_beside(alloc, disk, journal, next)
            } else {
                put_behind(alloc, disk, behind, next)
            }
        }
        None => put_beside(alloc, disk, None, next),
    }
}

// Puts what changed behind the checkpoint.
fn put_behind<D: Disk>(
    alloc: Global,
    disk: &mut D,
    journal: Journal,
    next: &Next<'_>,
) -> Result<Journal, CommitFault>
    requires lawful { IsCheckpoint newest (checkpoint_of_parts next.now.checkpoint) }
    requires short { IsShort journal }
    requires newest { journal.version ≡ newest }
    requires ends { journal.end ≤ 2 ^ 55 }
    requires not_due { IsDue (Some journal) (checkpoint_of_parts next.now.checkpoint) → ⊥ }
    requires awaits { EachLeft D.meaning.images disk.old (AwaitsNext (Some journal) (checkpoint_of_parts next.now.checkpoint) (change_of_next next.now)) }
    ensures put { IfOk result (λ after. EachLeft D.meaning.images disk.new (EndsWith after (checkpoint_of_parts next.now.checkpoint))) }
    ensures one { OnOk result (LeavesOne D.meaning.images disk.old → LeavesOne D.meaning.images disk.new) }
    ensures next { IfOk result (IsNext (Some journal) (checkpoint_of_parts next.now.checkpoint) (change_of_next next.now)) }
    ensures not_worn { OnOk result (IsWorn (Some journal) → ⊥) }
    ensures crash { Passes D.meaning.images (Puts (Some journal) (checkpoint_of_parts next.now.checkpoint)) disk.old disk.new }
    ensures early { DoneFewer 4 (D.meaning.done disk.old) (D.meaning.done disk.new) → Passes D.meaning.images (KeepsMemory (Some journal)) disk.old disk.new }
    ensures worn { (sequence : ℕ) → result ≡ Err (CommitFault.Worn sequence) → (sequence ≡ last_number) × IsWorn (Some journal) }
    ensures costs { WrittenAtMost (cost_of_rows (change_of_next next.now).rows) (D.meaning.written disk.old) (D.meaning.written disk.new) }
    ensures cause { HasCommitCause result (D.meaning.faults disk.old) (D.meaning.faults disk.new) }
    ensures terms { KeepsTerms D.meaning disk.old disk.new }
{
    let Next {
        checkpoint,
        changed,
    } = *next;
    let change = ChangeParts {
        output_length: checkpoint.output_length,
        observed: checkpoint.observed,
        next_id: checkpoint.next_id,
        rows: checkpoint.rows,
        changed,
    };
    journal.append(alloc, disk, &change)
}

// Puts a whole checkpoint into the slot that doesn't count.
fn put_beside<D: Disk>(
    alloc: Global,
    disk: &mut D,
    journal: Option<Journal>,
    next: &Next<'_>,
) -> Result<Journal, CommitFault>
    requires lawful { IsCheckpoint newest (checkpoint_of_parts next.now.checkpoint) }
    requires due { IsDue journal (checkpoint_of_parts next.now.checkpoint) }
    requires awaits { EachLeft D.meaning.images disk.old (AwaitsNext journal (checkpoint_of_parts next.now.checkpoint) (change_of_next next.now)) }
    ensures put { IfOk result (λ after. EachLeft D.meaning.images disk.new (EndsWith after (checkpoint_of_parts next.now.checkpoint))) }
    ensures one { OnOk result (LeavesOne D.meaning.images disk.old → LeavesOne D.meaning.images disk.new) }
    ensures next { IfOk result (IsNext journal (checkpoint_of_parts next.now.checkpoint) (change_of_next next.now)) }
    ensures not_worn { OnOk result (IsWorn journal → ⊥) }
    ensures crash { Passes D.meaning.images (Puts journal (checkpoint_of_parts next.now.checkpoint)) disk.old disk.new }
    ensures early { DoneFewer 4 (D.meaning.done disk.old) (D.meaning.done disk.new) → Passes D.meaning.images (KeepsMemory journal) disk.old disk.new }
    ensures worn { (sequence : ℕ) → result ≡ Err (CommitFault.Worn sequence) → (sequence ≡ last_number) × IsWorn journal }
    ensures costs { WrittenAtMost (length (checkpoint_spelling newest (checkpoint_of_parts next.now.checkpoint)) + 18) (D.meaning.written disk.old) (D.meaning.written disk.new) }
    ensures cause { HasCommitCause result (D.meaning.faults disk.old) (D.meaning.faults disk.new) }
    ensures terms { KeepsTerms D.meaning disk.old disk.new }
{
    rewrite(alloc, journal, disk, &next.checkpoint)
}

// Whether the whole checkpoint is to be written: its version is an older one, or the changes behind it have become longer
// than twice what it would be now.
fn is_due(journal: Journal, next: &Next<'_>) -> bool
    requires lawful { IsCheckpoint newest (checkpoint_of_parts next.now.checkpoint) }
    requires short { IsShort journal }
    ensures due { IsTrue result → IsDue (Some journal) (checkpoint_of_parts next.now.checkpoint) }
    ensures not_due { IsDue (Some journal) (checkpoint_of_parts next.now.checkpoint) → IsTrue result }
    ensures newest { result ≡ false → journal.version ≡ newest }
    ensures ends { result ≡ false → journal.end ≤ 2 ^ 55 }
{
    if journal.version != NEWEST_VERSION {
        return true;
    }
    let changes = journal.end.saturating_sub(17 + journal.slot.length);
    changes > 2 * checkpoint_size(&next.checkpoint) + SPARE
}
