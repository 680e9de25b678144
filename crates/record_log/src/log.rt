// A log, and one more record.
ghost use Rattle.std.specs.Prelude.{◌≡◌, ◌↔◌, ℕ, ◌+◌, ◌≤◌, [], ◌∷◌, ◌++◌, length, Err, IsTrue, OnOk, IfOk, IfErr};
ghost use Rattle.outside.specs.Crash.{Passes};
ghost use Rattle.slot_store.specs.ChosenSlot.{IsSlotFile};
ghost use Rattle.slot_store.specs.CommitCause.{HasCommitCause};
ghost use Rattle.slot_store.specs.Committed.{KeepsOthers, LeavesOne};
ghost use Rattle.slot_store.specs.Counted.{HasDone, DoneFewer, HasWritten};
ghost use Rattle.slot_store.specs.Frame.{last_number};
ghost use Rattle.slot_store.specs.OnlyRead.{KeepsTerms};
ghost use Rattle.slot_store.specs.Synced.{EachLeft, LeavesChanged};

use outside::Disk;
use slot_store::frame::{self, CLOSED};
use slot_store::{CommitFault, Slot, write_synced};
use std::alloc::Global;

/// Where a log stands: its slot, the place behind its last record, and the last sequence number.
#[derive(Clone, Copy, Debug, PartialEq, Eq)]
pub struct Log {
    pub slot: Slot,
    /// In bytes from the file's begin.
    pub end: u64,
    pub sequence: u64,
}

impl Log {
    ghost use Rattle.record_log.specs.LogOf.{EndsWith};
    ghost use Rattle.record_log.specs.Appended.{appended, KeepsLog, GainsRecord, Appends};

    /// Adds a record with this payload behind the others. The payload is written from where it lies: with room for 17 bytes
    /// more it takes no further memory.
    ///
    /// At each moment a crash leaves the log as it was or with the record, and after Ok with it. Where fewer than four
    /// calls on the disk succeeded it leaves the log as it was. After a fault the disk is to be read again.
    pub fn append<D: Disk>(
        self,
        alloc: Global,
        disk: &mut D,
        payload: Vec<u8>,
    ) -> Result<Log, CommitFault>
        requires file { IsSlotFile self.slot.file }
        requires stands { EachLeft D.meaning.images disk.old (EndsWith self) }
        requires ends { self.end + 17 + length payload.items ≤ last_number }
        ensures log { IfOk result (λ log. log ≡ appended self payload.items) }
        ensures file { IfOk result (λ log. IsSlotFile log.slot.file) }

        ensures crash { Passes D.meaning.images (Appends self payload.items) disk.old disk.new }
        ensures appended { OnOk result (LeavesChanged D.meaning.images (GainsRecord self payload.items) disk.old disk.new) }
        ensures early { DoneFewer 4 (D.meaning.done disk.old) (D.meaning.done disk.new)
            → Passes D.meaning.images (KeepsLog self) disk.old disk.new }
        ensures one { OnOk result (LeavesOne D.meaning.images disk.old → LeavesOne D.meaning.images disk.new) }
        ensures seen { IsTrue (D.meaning.images.tells disk.old)
            → KeepsOthers self.slot.file (D.meaning.images.seen disk.old) (D.meaning.images.seen disk.new) }

        ensures worn { (result ≡ Err (CommitFault.Worn last_number)) ↔ (self.sequence ≡ last_number) }
        ensures worn_only { (sequence : ℕ) → result ≡ Err (CommitFault.Worn sequence) → (sequence ≡ last_number) × (disk.new ≡ disk.old) }
        ensures cause { HasCommitCause result (D.meaning.faults disk.old) (D.meaning.faults disk.new) }
        ensures done { HasDone result 6 (D.meaning.done disk.old) (D.meaning.done disk.new) }
        ensures counted { HasWritten result self.slot.file (length payload.items + 18) (D.meaning.written disk.old) (D.meaning.written disk.new) }
        ensures terms { KeepsTerms D.meaning disk.old disk.new }
    {
        let sequence = next_sequence(self.sequence)?;
        let end = self.end + frame::HEAD_SIZE + payload.len() as u64;
        let body = frame::body(sequence, payload)?;
        write_synced(alloc, disk, self.slot.file, self.end, &[CLOSED])?;
        frame::write(alloc, disk, self.slot.file, self.end, &body)?;
        Ok(Log {
            slot: self.slot,
            end,
            sequence,
        })
    }
}

fn next_sequence(sequence: u64) -> Result<u64, CommitFault>
    ensures ok { IfOk result (λ next. (next ≡ sequence + 1) × (next ≤ last_number)) }
    ensures worn { (result ≡ Err (CommitFault.Worn last_number)) ↔ (sequence ≡ last_number) }
    ensures worn_only { IfErr result (λ fault. fault ≡ CommitFault.Worn last_number) }
{
    match sequence.checked_add(1) {
        Some(next) => Ok(next),
        None => Err(CommitFault::Worn { sequence }),
    }
}
