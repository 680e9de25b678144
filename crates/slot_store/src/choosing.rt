// Which slot counts, and its payload.
ghost use Rattle.std.specs.Prelude.{◌≡◌, take, drop, Some, IsTrue, IfOk, IfSome};
ghost use Rattle.outside.specs.Count.{HasCause, HasOneCause};
ghost use Rattle.slot_store.specs.ChosenSlot.{IsSlotFile, slot_in, greater_of, chosen_slot, chosen_payload};
ghost use Rattle.slot_store.specs.OnlyRead.{OnlyRead};

use crate::frame::{HEAD_SIZE, Head};
use crate::reading::read_part;
use crate::slot::Slot;
use outside::{CallFault, Disk, DiskFile, Failed};
use std::alloc::Global;

/// The slot that counts: the open one with the greater sequence number, SlotA where both are equal. None where no slot
/// is open.
pub fn choose<D: Disk>(disk: &mut D) -> Result<Option<Slot>, Failed>
    ensures slot { IfOk result (λ slot. IsTrue (D.meaning.images.tells disk.old)
        → slot ≡ chosen_slot (D.meaning.images.seen disk.old)) }
    ensures file { IfOk result (λ slot. IfSome slot (λ slot. IsSlotFile slot.file)) }
    ensures only_read { OnlyRead D.meaning disk.old disk.new }
    ensures cause { HasOneCause result (D.meaning.faults disk.old) (D.meaning.faults disk.new) }
{
    let first = open_slot(disk, DiskFile::SlotA)?;
    let second = open_slot(disk, DiskFile::SlotB)?;
    Ok(greater_of(first, second))
}

/// The payload of a slot, and of an open one all of it. Memory is asked for what the file has, whatever length the slot
/// claims.
pub fn load<D: Disk>(alloc: Global, disk: &mut D, slot: &Slot) -> Result<Vec<u8>, CallFault>
    ensures bytes { IfOk result (λ bytes. IsTrue (D.meaning.images.tells disk.old)
        → bytes.items ≡ take slot.now.length (drop 17 (D.meaning.images.seen disk.old slot.now.file))) }
    ensures chosen { IfOk result (λ bytes. IsTrue (D.meaning.images.tells disk.old)
        → chosen_slot (D.meaning.images.seen disk.old) ≡ Some slot.now
        → chosen_payload (D.meaning.images.seen disk.old) ≡ Some bytes.items) }
    ensures only_read { OnlyRead D.meaning disk.old disk.new }
    ensures cause { HasCause result (D.meaning.faults disk.old) (D.meaning.faults disk.new) }
{
    let bytes = read_part(alloc, disk, slot.file, HEAD_SIZE, slot.length)?;
    Ok(bytes)
}

// The slot that a file is, where it is open.
fn open_slot<D: Disk>(disk: &mut D, file: DiskFile) -> Result<Option<Slot>, Failed>
    ensures slot { IfOk result (λ slot. IsTrue (D.meaning.images.tells disk.old)
        → slot ≡ slot_in file (D.meaning.images.seen disk.old file)) }
    ensures file { IfOk result (λ slot. IfSome slot (λ slot. slot.file ≡ file)) }
    ensures only_read { OnlyRead D.meaning disk.old disk.new }
    ensures cause { HasOneCause result (D.meaning.faults disk.old) (D.meaning.faults disk.new) }
{
    let found = Head::find(disk, file, 0)?;
    let slot = match found {
        Some(head) => Some(Slot {
            file,
            sequence: head.sequence,
            length: head.length,
        }),
        None => None,
    };
    Ok(slot)
}

fn greater_of(first: Option<Slot>, second: Option<Slot>) -> Option<Slot>
    ensures greater { result ≡ greater_of first second }
    ensures file { IfSome first (λ slot. IsSlotFile slot.file) → IfSome second (λ slot. IsSlotFile slot.file)
        → IfSome result (λ slot. IsSlotFile slot.file) }
{
    match (first, second) {
        (None, second) => second,
        (Some(first), None) => Some(first),
        (Some(first), Some(second)) => {
            if first.sequence < second.sequence {
                Some(second)
            } else {
                Some(first)
            }
        }
    }
}
