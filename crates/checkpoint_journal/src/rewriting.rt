// A new checkpoint, without changes.
ghost use Rattle.std.specs.Prelude.{◌≡◌, ◌↔◌, ℕ, ◌+◌, length, Err, IsTrue, OnOk, IfOk, IfErr};
ghost use Rattle.outside.specs.Crash.{Passes};
ghost use Rattle.slot_store.specs.ChosenSlot.{IsSlotFile};
ghost use Rattle.slot_store.specs.CommitCause.{HasCommitCause};
ghost use Rattle.slot_store.specs.Committed.{KeepsOthers, LeavesOne};
ghost use Rattle.slot_store.specs.Counted.{HasDone, DoneFewer, HasWritten};
ghost use Rattle.slot_store.specs.Frame.{last_number};
ghost use Rattle.slot_store.specs.OnlyRead.{KeepsTerms};
ghost use Rattle.slot_store.specs.Synced.{EachLeft};
ghost use Rattle.checkpoint_store.specs.Limits.{newest};
ghost use Rattle.checkpoint_store.specs.Parts.{checkpoint_of_parts};
ghost use Rattle.checkpoint_store.specs.Rules.{IsCheckpoint};
ghost use Rattle.checkpoint_store.specs.Spelling.{checkpoint_spelling};
ghost use Rattle.checkpoint_journal.specs.JournalOf.{EndsWith};
ghost use Rattle.checkpoint_journal.specs.Written.{log_before, written_file, started, StandsIn, KeepsOld, Rewrites, IsWorn};

use crate::journal::{Journal, has_next};
use checkpoint_store::{CheckpointParts, NEWEST_VERSION, checkpoint_size, encode};
use outside::Disk;
use record_log::Log;
use slot_store::CommitFault;
use slot_store::frame::HEAD_SIZE;
use std::alloc::Global;

/// Puts a checkpoint into the slot that doesn't count, as the base of a journal without changes, with the sequence
/// number after that of `before`, the journal that counts. The base is of the newest version, whichever that of `before` is.
/// Memory is asked for once, for the bytes that the base takes.
///
/// At each moment a crash leaves the old checkpoint or the new, and after Ok the new. Where fewer than four calls on the
/// disk succeeded it leaves the old one. After a fault the disk is to be read again.
pub fn rewrite<D: Disk>(
    alloc: Global,
    before: Option<Journal>,
    disk: &mut D,
    checkpoint: &CheckpointParts<'_>,
) -> Result<Journal, CommitFault>
    requires { IsCheckpoint newest (checkpoint_of_parts checkpoint.now) }
    ensures journal { IfOk result (λ journal. journal ≡ started before (checkpoint_of_parts checkpoint.now)) }
    ensures file { IfOk result (λ journal. IsSlotFile journal.slot.file) }

    ensures crash { EachLeft D.meaning.images disk.old (StandsIn before)
        → Passes D.meaning.images (Rewrites before (checkpoint_of_parts checkpoint.now)) disk.old disk.new }
    ensures rewritten { OnOk result (EachLeft D.meaning.images disk.old (StandsIn before)
        → EachLeft D.meaning.images disk.new (EndsWith (started before (checkpoint_of_parts checkpoint.now)) (checkpoint_of_parts checkpoint.now))) }
    ensures early { DoneFewer 4 (D.meaning.done disk.old) (D.meaning.done disk.new)
        → EachLeft D.meaning.images disk.old (StandsIn before)
        → Passes D.meaning.images (KeepsOld before) disk.old disk.new }
    ensures one { OnOk result (LeavesOne D.meaning.images disk.old → LeavesOne D.meaning.images disk.new) }
    ensures seen { IsTrue (D.meaning.images.tells disk.old)
        → KeepsOthers (written_file before) (D.meaning.images.seen disk.old) (D.meaning.images.seen disk.new) }

    ensures worn { (result ≡ Err (CommitFault.Worn last_number)) ↔ IsWorn before }
    ensures worn_only { (sequence : ℕ) → result ≡ Err (CommitFault.Worn sequence) → (sequence ≡ last_number) × (disk.new ≡ disk.old) }
    ensures cause { HasCommitCause result (D.meaning.faults disk.old) (D.meaning.faults disk.new) }
    ensures done { HasDone result 8 (D.meaning.done disk.old) (D.meaning.done disk.new) }
    ensures counted { HasWritten result (written_file before) (length (checkpoint_spelling newest (checkpoint_of_parts checkpoint.now)) + 18) (D.meaning.written disk.old) (D.meaning.written disk.new) }
    ensures terms { KeepsTerms D.meaning disk.old disk.new }
{
    let before = log_before(before)?;
    let size = checkpoint_size(checkpoint) + HEAD_SIZE;
    let mut payload = Vec::with_capacity(alloc, size as usize)?;
    encode(alloc, checkpoint, &mut payload)?;
    let log = record_log::rewrite(alloc, disk, before.as_ref(), payload)?;
    Ok(Journal::over(log, NEWEST_VERSION))
}

// Where the bytes of the journal before stand, where a sequence number comes after its last.
fn log_before(before: Option<Journal>) -> Result<Option<Log>, CommitFault>
    ensures log { IfOk result (λ log. log ≡ log_before before) }
    ensures worn { (result ≡ Err (CommitFault.Worn last_number)) ↔ IsWorn before }
    ensures worn_only { IfErr result (λ fault. fault ≡ CommitFault.Worn last_number) }
{
    match before {
        Some(journal) => {
            has_next(journal.sequence)?;
            Ok(Some(journal.log()))
        }
        None => Ok(None),
    }
}
