// A journal, and one more change.
ghost use Rattle.std.specs.Prelude.{◌≡◌, ◌↔◌, ℕ, ◌+◌, ◌≤◌, length, Err, IsTrue, OnOk, IfOk, IfErr};
ghost use Rattle.outside.specs.Crash.{Passes};
ghost use Rattle.slot_store.specs.ChosenSlot.{IsSlotFile};
ghost use Rattle.slot_store.specs.CommitCause.{HasCommitCause};
ghost use Rattle.slot_store.specs.Committed.{KeepsOthers, LeavesOne};
ghost use Rattle.slot_store.specs.Counted.{HasDone, DoneFewer, HasWritten};
ghost use Rattle.slot_store.specs.Frame.{last_number};
ghost use Rattle.slot_store.specs.OnlyRead.{KeepsTerms};
ghost use Rattle.slot_store.specs.Synced.{EachLeft, LeavesChanged};
ghost use Rattle.checkpoint_store.specs.Limits.{newest};
ghost use Rattle.checkpoint_store.specs.Parts.{change_of_parts};
ghost use Rattle.checkpoint_store.specs.Spelling.{change_spelling};

use checkpoint_store::{ChangeParts, change_size, encode_change};
use outside::Disk;
use record_log::Log;
use slot_store::frame::HEAD_SIZE;
use slot_store::{CommitFault, Slot};
use std::alloc::Global;

/// Where a journal stands: its slot, the place behind its last record, the last sequence number, and the version of its
/// base, which is the base's first byte and by which its changes are spelled.
#[derive(Clone, Copy, Debug, PartialEq, Eq)]
pub struct Journal {
    pub slot: Slot,
    /// In bytes from the file's begin.
    pub end: u64,
    pub sequence: u64,
    pub version: u8,
}

impl Journal {
    ghost use Rattle.checkpoint_journal.specs.JournalOf.{log_of, journal_of};
    ghost use Rattle.checkpoint_journal.specs.Written.{Awaits, appended, KeepsJournal, GainsChange, Appends};

    /// Adds a change behind the others. Each image has this journal, its file ends with it, and the change fits its
    /// checkpoint. Only the newest version is written, so a journal over an older base has to be rewritten. Memory is asked
    /// for once, for the bytes that the record takes.
    ///
    /// At each moment a crash leaves the checkpoint as it was or changed, and after Ok changed. Where fewer than four
    /// calls on the disk succeeded it leaves the checkpoint as it was. After a fault the disk is to be read again.
    pub fn append<D: Disk>(
        self,
        alloc: Global,
        disk: &mut D,
        change: &ChangeParts<'_>,
    ) -> Result<Journal, CommitFault>
        requires file { IsSlotFile self.slot.file }
        requires newest { self.version ≡ newest }
        requires stands { EachLeft D.meaning.images disk.old (Awaits self (change_of_parts change.now)) }
        requires ends { self.end + 17 + length (change_spelling newest (change_of_parts change.now)) ≤ last_number }
        ensures journal { IfOk result (λ journal. journal ≡ appended self (change_of_parts change.now)) }
        ensures file { IfOk result (λ journal. IsSlotFile journal.slot.file) }

        ensures crash { Passes D.meaning.images (Appends self (change_of_parts change.now)) disk.old disk.new }
        ensures appended { OnOk result (LeavesChanged D.meaning.images (GainsChange self (change_of_parts change.now)) disk.old disk.new) }
        ensures early { DoneFewer 4 (D.meaning.done disk.old) (D.meaning.done disk.new)
            → Passes D.meaning.images (KeepsJournal self) disk.old disk.new }
        ensures one { OnOk result (LeavesOne D.meaning.images disk.old → LeavesOne D.meaning.images disk.new) }
        ensures seen { IsTrue (D.meaning.images.tells disk.old)
            → KeepsOthers self.slot.file (D.meaning.images.seen disk.old) (D.meaning.images.seen disk.new) }

        ensures worn { (result ≡ Err (CommitFault.Worn last_number)) ↔ (self.sequence ≡ last_number) }
        ensures worn_only { (sequence : ℕ) → result ≡ Err (CommitFault.Worn sequence) → (sequence ≡ last_number) × (disk.new ≡ disk.old) }
        ensures cause { HasCommitCause result (D.meaning.faults disk.old) (D.meaning.faults disk.new) }
        ensures done { HasDone result 6 (D.meaning.done disk.old) (D.meaning.done disk.new) }
        ensures counted { HasWritten result self.slot.file (length (change_spelling newest (change_of_parts change.now)) + 18) (D.meaning.written disk.old) (D.meaning.written disk.new) }
        ensures terms { KeepsTerms D.meaning disk.old disk.new }
    {
        has_next(self.sequence)?;
        let size = change_size(change) + HEAD_SIZE;
        let mut payload = Vec::with_capacity(alloc, size as usize)?;
        encode_change(alloc, change, &mut payload)?;
        let log = self.log().append(alloc, disk, payload)?;
        Ok(Journal::over(log, self.version))
    }

    /// Where the bytes of the journal stand.
    pub fn log(&self) -> Log
        ensures { result ≡ log_of self.now }
    {
        Log {
            slot: self.slot,
            end: self.end,
            sequence: self.sequence,
        }
    }

    /// The journal of these bytes, whose base has this version.
    pub(crate) fn over(log: Log, version: u8) -> Journal
        ensures { result ≡ journal_of log version }
    {
        Journal {
            slot: log.slot,
            end: log.end,
            sequence: log.sequence,
            version,
        }
    }
}

/// A sequence number comes after this one.
pub(crate) fn has_next(sequence: u64) -> Result<(), CommitFault>
    ensures worn { (result ≡ Err (CommitFault.Worn last_number)) ↔ (sequence ≡ last_number) }
    ensures worn_only { IfErr result (λ fault. fault ≡ CommitFault.Worn last_number) }
{
    if sequence == u64::MAX {
        return Err(CommitFault::Worn { sequence });
    }
    Ok(())
}
