// The sync of the output.
ghost use Rattle.std.specs.Prelude.{◌≡◌, OnOk, IfOk};
ghost use Rattle.outside.specs.Count.{HasCause};
ghost use Rattle.out_segments.specs.Inner.AtOutput.{EachLeft};
ghost use Rattle.out_segments.specs.Joined.{IsPartSize, output_of};
ghost use Rattle.out_segments.specs.Inner.Keeping.{OnlyRead};
ghost use Rattle.out_segments.specs.Inner.Settled.{AreSettled};

use crate::calls::{length_of, sync_part};
use crate::parts::Parts;
use outside::CallFault;
use std::alloc::Global;

/// Syncs each Part of the output, but for those that are settled. Answers the last one: the Parts before it are settled
/// from then on.
pub(crate) fn sync_output<P: Parts>(
    alloc: Global,
    parts: &mut P,
    size: u64,
    settled: u32,
) -> Result<u32, CallFault>
    requires size { IsPartSize size }
    requires settled { AreSettled P.meaning.images size settled parts.old }
    ensures settled { IfOk result (λ last. AreSettled P.meaning.images size last parts.new) }
    ensures durable { OnOk result (EachLeft P.meaning.images parts.new
        (λ image. output_of size image ≡ output_of size (P.meaning.images.seen parts.new))) }
    ensures only_read { OnlyRead P.meaning parts.old parts.new }
    ensures cause { HasCause result (P.meaning.faults parts.old) (P.meaning.faults parts.new) }
{
    let mut place = settled;
    while place < u32::MAX {
        sync_part(alloc, parts, place)?;
        let last = length_of(parts, place)?;
        if last < size {
            return Ok(place);
        }
        place += 1;
    }
    sync_part(alloc, parts, place)?;
    Ok(place)
}
