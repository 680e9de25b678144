// The log of a disk.
ghost use Rattle.std.specs.Prelude.{◌≡◌, length, Some, IsTrue, IfOk, IfSome};
ghost use Rattle.outside.specs.Count.{HasCause};
ghost use Rattle.slot_store.specs.ChosenSlot.{IsSlotFile, chosen_slot};
ghost use Rattle.slot_store.specs.OnlyRead.{OnlyRead};
ghost use Rattle.record_log.specs.LogOf.{FoundIn};

use crate::log::Log;
use crate::parsing::parse;
use outside::{CallFault, Disk, Failed};
use slot_store::frame::HEAD_SIZE;
use slot_store::{Slot, choose, load, read_part};
use std::alloc::Global;

/// A log and what it holds.
#[derive(Debug, Drop)]
pub struct Contents {
    pub log: Log,
    /// The payload of its slot.
    pub base: Vec<u8>,
    /// The payloads of its records, the first first.
    pub records: Vec<Vec<u8>>,
}

/// The log that counts: that of the chosen slot, with the records behind its payload. None where no slot is open.
/// Nothing is written. The slot's length is that of the base, on a disk that tells nothing too.
pub fn read<D: Disk>(alloc: Global, disk: &mut D) -> Result<Option<Contents>, CallFault>
    ensures found { IfOk result (λ found. IsTrue (D.meaning.images.tells disk.old) → FoundIn found (D.meaning.images.seen disk.old)) }
    ensures file { IfOk result (λ found. IfSome found (λ found. IsSlotFile found.log.slot.file)) }
    ensures whole { IfOk result (λ found. IfSome found (λ found. found.log.slot.length ≡ length found.base.items)) }
    ensures only_read { OnlyRead D.meaning disk.old disk.new }
    ensures cause { HasCause result (D.meaning.faults disk.old) (D.meaning.faults disk.new) }
{
    let chosen = match choose(disk) {
        Ok(chosen) => chosen,
        Err(Failed) => return Err(CallFault::Failed),
    };
    match chosen {
        Some(slot) => Ok(Some(read_behind(alloc, disk, slot)?)),
        None => Ok(None),
    }
}

// The payload of an open slot and the records behind it.
fn read_behind<D: Disk>(alloc: Global, disk: &mut D, slot: Slot) -> Result<Contents, CallFault>
    ensures found { IfOk result (λ found. IsTrue (D.meaning.images.tells disk.old)
        → chosen_slot (D.meaning.images.seen disk.old) ≡ Some slot → FoundIn (Some found) (D.meaning.images.seen disk.old)) }
    ensures file { IfOk result (λ found. found.log.slot.file ≡ slot.file) }
    ensures whole { IfOk result (λ found. found.log.slot.length ≡ length found.base.items) }
    ensures only_read { OnlyRead D.meaning disk.old disk.new }
    ensures cause { HasCause result (D.meaning.faults disk.old) (D.meaning.faults disk.new) }
{
    let base = load(alloc, disk, &slot)?;
    // A file that gets shorter meanwhile ends there.
    let slot = Slot {
        length: base.len() as u64,
        ..slot
    };
    let size = match disk.length(slot.file) {
        Ok(size) => size,
        Err(Failed) => return Err(CallFault::Failed),
    };
    let place = slot.length.saturating_add(HEAD_SIZE);
    let bytes = read_part(alloc, disk, slot.file, place, size)?;
    let tail = parse(alloc, &bytes, slot.sequence)?;
    let log = Log {
        slot,
        end: place.saturating_add(tail.end as u64),
        sequence: tail.sequence,
    };
    Ok(Contents {
        log,
        base,
        records: tail.records,
    })
}
