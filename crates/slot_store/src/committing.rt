// A new payload in the slot that doesn't count.
ghost use Rattle.std.specs.Prelude.{◌≡◌, ◌⊎◌, ◌↔◌, ℕ, ◌+◌, ◌≤◌, [], ◌∷◌, length, Err, IsTrue, OnOk, IfOk, IfErr};
ghost use Rattle.std.specs.Option.{option_copied};
ghost use Rattle.outside.specs.Count.{HasCause};
ghost use Rattle.outside.specs.Crash.{Passes};
ghost use Rattle.outside.specs.DiskCalls.{last_end};
ghost use Rattle.outside.specs.Image.{AtFile};
ghost use Rattle.outside.specs.declared.disk.DiskFile.{DiskFile};
ghost use Rattle.slot_store.specs.ChosenSlot.{IsSlotFile};
ghost use Rattle.slot_store.specs.CommitCause.{HasCommitCause};
ghost use Rattle.slot_store.specs.Committed.{other_file, free_file, next_slot, Chooses, KeepsChoice, IsCommitted, KeepsOthers, Commits, LeavesOne, IsWorn};
ghost use Rattle.slot_store.specs.Counted.{HasDone, DoneFewer, HasWritten};
ghost use Rattle.slot_store.specs.Frame.{Clears, last_number};
ghost use Rattle.slot_store.specs.OnlyRead.{KeepsTerms};
ghost use Rattle.slot_store.specs.Synced.{EachLeft, LeavesChanged};

use crate::cutting::cut_synced;
use crate::fault::CommitFault;
use crate::frame::{self, CLOSED};
use crate::slot::Slot;
use crate::writing::write_synced;
use outside::{CallFault, Disk, DiskFile};
use std::alloc::Global;

/// Puts a payload into the slot that doesn't count, with the sequence number after that of `before`, or 1. `before` is
/// the slot that counts; its sequence number may be above that slot's own.
///
/// The payload is written from where it lies: with room for 17 bytes more it takes no further memory.
///
/// At each moment a crash leaves the old payload or the new, and after Ok the new. Where fewer than four calls on the
/// disk succeeded it leaves the old one.
pub fn commit<D: Disk>(
    alloc: Global,
    disk: &mut D,
    before: Option<&Slot>,
    payload: Vec<u8>,
) -> Result<Slot, CommitFault>
    ensures slot { IfOk result (λ slot. slot ≡ next_slot (option_copied before.entry) payload.items) }
    ensures file { IfOk result (λ slot. IsSlotFile slot.file) }

    ensures crash { EachLeft D.meaning.images disk.old (Chooses (option_copied before.entry))
        → Passes D.meaning.images (Commits (option_copied before.entry) payload.items) disk.old disk.new }
    ensures committed { OnOk result (EachLeft D.meaning.images disk.old (Chooses (option_copied before.entry))
        → EachLeft D.meaning.images disk.new (IsCommitted (option_copied before.entry) payload.items)) }
    ensures early { DoneFewer 4 (D.meaning.done disk.old) (D.meaning.done disk.new)
        → EachLeft D.meaning.images disk.old (Chooses (option_copied before.entry))
        → Passes D.meaning.images KeepsChoice disk.old disk.new }
    ensures one { OnOk result (LeavesOne D.meaning.images disk.old → LeavesOne D.meaning.images disk.new) }

    // Whatever slot counts, each other file stands.
    ensures others { Passes D.meaning.images (KeepsOthers (free_file (option_copied before.entry))) disk.old disk.new }
    ensures seen { IsTrue (D.meaning.images.tells disk.old)
        → KeepsOthers (free_file (option_copied before.entry)) (D.meaning.images.seen disk.old) (D.meaning.images.seen disk.new) }

    ensures worn { (result ≡ Err (CommitFault.Worn last_number)) ↔ IsWorn (option_copied before.entry) }
    ensures worn_only { (sequence : ℕ) → result ≡ Err (CommitFault.Worn sequence) → (sequence ≡ last_number) × (disk.new ≡ disk.old) }
    ensures cause { HasCommitCause result (D.meaning.faults disk.old) (D.meaning.faults disk.new) }
    ensures done { HasDone result 8 (D.meaning.done disk.old) (D.meaning.done disk.new) }
    ensures counted { HasWritten result (free_file (option_copied before.entry)) (length payload.items + 18) (D.meaning.written disk.old) (D.meaning.written disk.new) }
    ensures terms { KeepsTerms D.meaning disk.old disk.new }
{
    let next = next_slot(before, payload.as_slice())?;
    let body = frame::body(next.sequence, payload)?;
    clear(alloc, disk, next.file)?;
    frame::write(alloc, disk, next.file, 0, &body)?;
    Ok(next)
}

// The slot that is to be written.
fn next_slot(before: Option<&Slot>, payload: &[u8]) -> Result<Slot, CommitFault>
    ensures ok { IfOk result (λ slot. slot ≡ next_slot (option_copied before.entry) payload.now) }
    ensures file { IfOk result (λ slot. IsSlotFile slot.file) }
    ensures within { IfOk result (λ slot. (last_end slot.file ≡ last_number) × (slot.sequence ≤ last_number)
        × (length payload.now + 17 ≤ last_number)) }
    ensures worn { (result ≡ Err (CommitFault.Worn last_number)) ↔ IsWorn (option_copied before.entry) }
    ensures worn_only { IfErr result (λ fault. fault ≡ CommitFault.Worn last_number) }
{
    let length = payload.len() as u64;
    match before {
        None => Ok(Slot {
            file: DiskFile::SlotA,
            sequence: 1,
            length,
        }),
        Some(slot) => match slot.sequence.checked_add(1) {
            Some(sequence) => Ok(Slot {
                file: other_file(slot.file),
                sequence,
                length,
            }),
            None => Err(CommitFault::Worn {
                sequence: slot.sequence,
            }),
        },
    }
}

// The slot file beside this one.
fn other_file(file: DiskFile) -> DiskFile
    ensures other { result ≡ other_file file }
    ensures file { IsSlotFile result }
    ensures within { last_end result ≡ last_number }
{
    match file {
        DiskFile::SlotA => DiskFile::SlotB,
        _ => DiskFile::SlotA,
    }
}

// Leaves a closed gate alone in the file. What stood there can't come back behind a gate that is torn open.
fn clear<D: Disk>(alloc: Global, disk: &mut D, file: DiskFile) -> Result<(), CallFault>
    requires { last_end file ≡ last_number }
    ensures cleared { OnOk result (LeavesChanged D.meaning.images (AtFile file (λ _ new. new ≡ 0 ∷ [])) disk.old disk.new) }
    ensures seen { IsTrue (D.meaning.images.tells disk.old)
        → KeepsOthers file (D.meaning.images.seen disk.old) (D.meaning.images.seen disk.new) }
    ensures crash { Passes D.meaning.images (AtFile file Clears) disk.old disk.new }
    ensures cause { HasCause result (D.meaning.faults disk.old) (D.meaning.faults disk.new) }
    ensures done { HasDone result 4 (D.meaning.done disk.old) (D.meaning.done disk.new) }
    ensures counted { HasWritten result file 1 (D.meaning.written disk.old) (D.meaning.written disk.new) }
    ensures terms { KeepsTerms D.meaning disk.old disk.new }
{
    cut_synced(alloc, disk, file, 0)?;
    write_synced(alloc, disk, file, 0, &[CLOSED])?;
    Ok(())
}
