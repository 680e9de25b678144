// Cuts of the output.
ghost use Rattle.std.specs.Prelude.{◌≡◌, ◌≤◌, ◌<◌, ◌*◌, ◌/◌, ◌+◌, ◌^◌, [], ℕ, false, length, IsTrue, IfOk, OnOk};
ghost use Rattle.outside.specs.Count.{HasCause};
ghost use Rattle.outside.specs.Image.{AtFile, MayCut, IsCut, IsWithin};
ghost use Rattle.out_segments.specs.Inner.AtOutput.{AtOutput, IsKept, IsShort, EachLeft, EmptiesBehind};
ghost use Rattle.out_segments.specs.Joined.{IsPartSize, output_of};
ghost use Rattle.out_segments.specs.Inner.Keeping.{Changes};
ghost use Rattle.out_segments.specs.declared.parts.PartFile.TheVariants.{Part};

use crate::calls::{cut_part, length_of, sync_part};
use crate::ending::part_of;
use crate::parts::Parts;
use outside::CallFault;
use std::alloc::Global;

/// Cuts the output to a length in bytes. The Part in which the new end lies decides alone: it is cut and synced first,
/// and the later ones, which then aren't seen, after it.
pub(crate) fn cut_output<P: Parts>(
    alloc: Global,
    parts: &mut P,
    size: u64,
    length: u64,
) -> Result<(), CallFault>
    requires size { IsPartSize size }
    requires within { IsTrue (P.meaning.images.tells parts.old) → IsWithin length (output_of size (P.meaning.images.seen parts.old)) }
    ensures cut { OnOk result (IsTrue (P.meaning.images.tells parts.old)
        → AtOutput size (length / size) (IsCut length) (P.meaning.images.seen parts.old) (P.meaning.images.seen parts.new)) }
    ensures emptied { OnOk result (IsTrue (P.meaning.images.tells parts.old)
        → EmptiesBehind (length / size) (P.meaning.images.seen parts.old) (P.meaning.images.seen parts.new)) }
    ensures changes { Changes P.meaning (AtOutput size (length / size) (MayCut length)) parts.old parts.new }
    ensures cause { HasCause result (P.meaning.faults parts.old) (P.meaning.faults parts.new) }
{
    let Some(place) = part_of(size, length) else {
        return Ok(());
    };
    cut_last(alloc, parts, size, place, length % size)?;
    cut_later(alloc, parts, size, place)?;
    Ok(())
}

// Cuts the Part that becomes the last one, and syncs it.
fn cut_last<P: Parts>(
    alloc: Global,
    parts: &mut P,
    size: u64,
    place: u32,
    inside: u64,
) -> Result<(), CallFault>
    requires size { IsPartSize size }
    requires inside { inside < size }
    requires within { IsTrue (P.meaning.images.tells parts.old) → IsWithin (place * size + inside) (output_of size (P.meaning.images.seen parts.old)) }
    ensures cut { OnOk result (IsTrue (P.meaning.images.tells parts.old)
        → AtOutput size place (IsCut (place * size + inside)) (P.meaning.images.seen parts.old) (P.meaning.images.seen parts.new)) }
    ensures others { OnOk result (IsTrue (P.meaning.images.tells parts.old)
        → AtFile (Part place) (IsCut inside) (P.meaning.images.seen parts.old) (P.meaning.images.seen parts.new)) }
    ensures changes { Changes P.meaning (AtOutput size place (MayCut (place * size + inside))) parts.old parts.new }
    ensures short { OnOk result (EachLeft P.meaning.images parts.new (IsShort size place)) }
    ensures cause { HasCause result (P.meaning.faults parts.old) (P.meaning.faults parts.new) }
{
    cut_part(alloc, parts, place, inside)?;
    sync_part(alloc, parts, place)?;
    Ok(())
}

// Cuts the Parts behind one that isn't full in any image, upwards to the first that is empty.
fn cut_later<P: Parts>(alloc: Global, parts: &mut P, size: u64, place: u32) -> Result<(), CallFault>
    requires size { IsPartSize size }
    requires short { EachLeft P.meaning.images parts.old (IsShort size place) }
    ensures emptied { OnOk result (IsTrue (P.meaning.images.tells parts.old)
        → EmptiesBehind place (P.meaning.images.seen parts.old) (P.meaning.images.seen parts.new)) }
    ensures changes { Changes P.meaning (AtOutput size place IsKept) parts.old parts.new }
    ensures cause { HasCause result (P.meaning.faults parts.old) (P.meaning.faults parts.new) }
{
    let mut number = place;
    while number < u32::MAX {
        number += 1;
        let had_bytes = empty_part(alloc, parts, size, place, number)?;
        if !had_bytes {
            return Ok(());
        }
    }
    Ok(())
}

// Cuts a Part behind one that isn't full in any image to nothing, and answers whether it had bytes.
pub(crate) fn empty_part<P: Parts>(
    alloc: Global,
    parts: &mut P,
    size: u64,
    place: u32,
    number: u32,
) -> Result<bool, CallFault>
    requires size { IsPartSize size }
    requires behind { place < number }
    requires short { EachLeft P.meaning.images parts.old (IsShort size place) }
    ensures empty { OnOk result (IsTrue (P.meaning.images.tells parts.old) → P.meaning.images.seen parts.new (Part number) ≡ []) }
    ensures was_empty { IfOk result (λ had_bytes. had_bytes ≡ false
        → IsTrue (P.meaning.images.tells parts.old) → P.meaning.images.seen parts.old (Part number) ≡ []) }
    ensures others { IsTrue (P.meaning.images.tells parts.old)
        → AtFile (Part number) (MayCut 0) (P.meaning.images.seen parts.old) (P.meaning.images.seen parts.new) }
    ensures changes { Changes P.meaning (AtOutput size place IsKept) parts.old parts.new }
    ensures short { EachLeft P.meaning.images parts.new (IsShort size place) }
    ensures cause { HasCause result (P.meaning.faults parts.old) (P.meaning.faults parts.new) }
{
    if length_of(parts, number)? == 0 {
        return Ok(false);
    }
    cut_part(alloc, parts, number, 0)?;
    Ok(true)
}
