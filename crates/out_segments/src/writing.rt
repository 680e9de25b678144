// Writes to the output.
ghost use Rattle.std.specs.Prelude.{◌≡◌, ◌≤◌, ◌<◌, ◌*◌, ◌/◌, ◌+◌, ◌%◌, ◌^◌, length, IsTrue, OnOk};
ghost use Rattle.outside.specs.Count.{HasCause};
ghost use Rattle.outside.specs.Image.{Torn, Holds};
ghost use Rattle.out_segments.specs.Inner.AtOutput.{AtOutput, IsKept, IsShort, IsEmpty, HasRoom, EachLeft};
ghost use Rattle.out_segments.specs.Joined.{IsPartSize, output_of};
ghost use Rattle.out_segments.specs.Inner.Keeping.{Changes};

use crate::calls::{length_of, sync_part, write_within};
use crate::cutting::empty_part;
use crate::parts::Parts;
use outside::CallFault;
use std::alloc::Global;

/// Writes over what is there, and past the end, Part by Part from the lowest.
pub(crate) fn write_output<P: Parts>(
    alloc: Global,
    parts: &mut P,
    size: u64,
    offset: u64,
    bytes: &[u8],
) -> Result<(), CallFault>
    requires size { IsPartSize size }
    requires begins { IsTrue (P.meaning.images.tells parts.old) → offset ≤ length (output_of size (P.meaning.images.seen parts.old)) }
    requires ends { offset + length bytes.now ≤ 2 ^ 40 }
    ensures written { OnOk result (IsTrue (P.meaning.images.tells parts.old)
        → AtOutput size (offset / size) (Holds offset bytes.now) (P.meaning.images.seen parts.old) (P.meaning.images.seen parts.new)) }
    ensures changes { Changes P.meaning (AtOutput size (offset / size) (Torn offset (length bytes.now))) parts.old parts.new }
    ensures cause { HasCause result (P.meaning.faults parts.old) (P.meaning.faults parts.new) }
{
    let mut written = 0;
    while written < bytes.len() {
        let at = offset + written as u64;
        let inside = at % size;
        let count = (size - inside).min((bytes.len() - written) as u64) as usize;
        write_part(alloc, parts, size, at, &bytes[written..written + count])?;
        written += count;
    }
    Ok(())
}

// Writes bytes that lie in one Part.
fn write_part<P: Parts>(
    alloc: Global,
    parts: &mut P,
    size: u64,
    at: u64,
    bytes: &[u8],
) -> Result<(), CallFault>
    requires size { IsPartSize size }
    requires inside { at % size + length bytes.now ≤ size }
    requires begins { IsTrue (P.meaning.images.tells parts.old) → at ≤ length (output_of size (P.meaning.images.seen parts.old)) }
    requires some { 0 < length bytes.now }
    requires ends { at + length bytes.now ≤ 2 ^ 40 }
    ensures written { OnOk result (IsTrue (P.meaning.images.tells parts.old)
        → AtOutput size (at / size) (Holds at bytes.now) (P.meaning.images.seen parts.old) (P.meaning.images.seen parts.new)) }
    ensures changes { Changes P.meaning (AtOutput size (at / size) (Torn at (length bytes.now))) parts.old parts.new }
    ensures cause { HasCause result (P.meaning.faults parts.old) (P.meaning.faults parts.new) }
{
    let place = (at / size) as u32;
    let inside = at % size;
    make_room(alloc, parts, size, place, inside + bytes.len() as u64)?;
    write_within(alloc, parts, place, inside, bytes)?;
    Ok(())
}

// Makes sure, in each image that a crash may leave, that a write up to this place of the Part adds no bytes behind it. A
// write that fills the Part would show what a later one holds.
fn make_room<P: Parts>(
    alloc: Global,
    parts: &mut P,
    size: u64,
    place: u32,
    end: u64,
) -> Result<(), CallFault>
    requires size { IsPartSize size }
    requires inside { end ≤ size }
    requires ends { place * size + end ≤ 2 ^ 40 }
    ensures room { OnOk result (EachLeft P.meaning.images parts.new (HasRoom size place end)) }
    ensures changes { Changes P.meaning (AtOutput size place IsKept) parts.old parts.new }
    ensures cause { HasCause result (P.meaning.faults parts.old) (P.meaning.faults parts.new) }
{
    if end < size {
        return Ok(());
    }
    sync_part(alloc, parts, place)?;
    if length_of(parts, place)? >= size {
        return Ok(());
    }
    empty_synced(alloc, parts, size, place)?;
    Ok(())
}

// Leaves the Part behind one that isn't full in any image empty, in each image.
fn empty_synced<P: Parts>(
    alloc: Global,
    parts: &mut P,
    size: u64,
    place: u32,
) -> Result<(), CallFault>
    requires size { IsPartSize size }
    requires next { place + 1 < 2 ^ 32 }
    requires short { EachLeft P.meaning.images parts.old (IsShort size place) }
    ensures empty { OnOk result (EachLeft P.meaning.images parts.new (IsEmpty (place + 1))) }
    ensures changes { Changes P.meaning (AtOutput size place IsKept) parts.old parts.new }
    ensures cause { HasCause result (P.meaning.faults parts.old) (P.meaning.faults parts.new) }
{
    let next = place + 1;
    empty_part(alloc, parts, size, place, next)?;
    sync_part(alloc, parts, next)?;
    Ok(())
}
