// A new base, without records.
ghost use Rattle.std.specs.Prelude.{◌≡◌, ◌↔◌, ℕ, ◌+◌, length, Err, IsTrue, OnOk, IfOk};
ghost use Rattle.std.specs.Option.{option_copied};
ghost use Rattle.outside.specs.Crash.{Passes};
ghost use Rattle.slot_store.specs.ChosenSlot.{IsSlotFile};
ghost use Rattle.slot_store.specs.CommitCause.{HasCommitCause};
ghost use Rattle.slot_store.specs.Committed.{KeepsOthers, LeavesOne, free_file, IsWorn};
ghost use Rattle.slot_store.specs.Counted.{HasDone, DoneFewer, HasWritten};
ghost use Rattle.slot_store.specs.Frame.{last_number};
ghost use Rattle.slot_store.specs.OnlyRead.{KeepsTerms};
ghost use Rattle.slot_store.specs.Synced.{EachLeft};
ghost use Rattle.record_log.specs.Appended.{started, slot_before, StandsIn, KeepsOld, IsRewritten, Rewrites};

use crate::log::Log;
use outside::Disk;
use slot_store::frame::HEAD_SIZE;
use slot_store::{CommitFault, Slot, commit};
use std::alloc::Global;

/// Puts a payload into the slot that doesn't count, as the base of a log without records, with the sequence number after
/// that of `before`, the log that counts. The payload is written from where it lies, as by [`commit`].
///
/// At each moment a crash leaves the old log or the new base, and after Ok the new base. Where fewer than four calls on
/// the disk succeeded it leaves the old log. After a fault the disk is to be read again.
pub fn rewrite<D: Disk>(
    alloc: Global,
    disk: &mut D,
    before: Option<&Log>,
    payload: Vec<u8>,
) -> Result<Log, CommitFault>
    ensures log { IfOk result (λ log. log ≡ started (option_copied before.entry) payload.items) }
    ensures file { IfOk result (λ log. IsSlotFile log.slot.file) }

    ensures crash { EachLeft D.meaning.images disk.old (StandsIn (option_copied before.entry))
        → Passes D.meaning.images (Rewrites (option_copied before.entry) payload.items) disk.old disk.new }
    ensures rewritten { OnOk result (EachLeft D.meaning.images disk.old (StandsIn (option_copied before.entry))
        → EachLeft D.meaning.images disk.new (IsRewritten (option_copied before.entry) payload.items)) }
    ensures early { DoneFewer 4 (D.meaning.done disk.old) (D.meaning.done disk.new)
        → EachLeft D.meaning.images disk.old (StandsIn (option_copied before.entry))
        → Passes D.meaning.images (KeepsOld (option_copied before.entry)) disk.old disk.new }
    ensures one { OnOk result (LeavesOne D.meaning.images disk.old → LeavesOne D.meaning.images disk.new) }
    ensures seen { IsTrue (D.meaning.images.tells disk.old)
        → KeepsOthers (free_file (slot_before (option_copied before.entry))) (D.meaning.images.seen disk.old) (D.meaning.images.seen disk.new) }

    ensures worn { (result ≡ Err (CommitFault.Worn last_number)) ↔ IsWorn (slot_before (option_copied before.entry)) }
    ensures worn_only { (sequence : ℕ) → result ≡ Err (CommitFault.Worn sequence) → (sequence ≡ last_number) × (disk.new ≡ disk.old) }
    ensures cause { HasCommitCause result (D.meaning.faults disk.old) (D.meaning.faults disk.new) }
    ensures done { HasDone result 8 (D.meaning.done disk.old) (D.meaning.done disk.new) }
    ensures counted { HasWritten result (free_file (slot_before (option_copied before.entry))) (length payload.items + 18) (D.meaning.written disk.old) (D.meaning.written disk.new) }
    ensures terms { KeepsTerms D.meaning disk.old disk.new }
{
    let before = slot_before(before);
    let end = HEAD_SIZE + payload.len() as u64;
    let slot = commit(alloc, disk, before.as_ref(), payload)?;
    Ok(Log {
        slot,
        end,
        sequence: slot.sequence,
    })
}

// The slot of the log, with the log's sequence number.
fn slot_before(before: Option<&Log>) -> Option<Slot>
    ensures { result ≡ slot_before (option_copied before.entry) }
{
    match before {
        Some(log) => Some(Slot {
            file: log.slot.file,
            sequence: log.sequence,
            length: log.slot.length,
        }),
        None => None,
    }
}
