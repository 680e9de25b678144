// The calls on one Part.
ghost use Rattle.std.specs.Prelude.{◌≡◌, ◌≤◌, ◌<◌, ◌+◌, ◌^◌, length, IsTrue, IfOk, OnOk};
ghost use Rattle.outside.specs.Count.{HasCause};
ghost use Rattle.outside.specs.Crash.{IsDurable};
ghost use Rattle.outside.specs.Image.{AtFile, Torn, Holds, MayCut, IsCut, IsWithin};
ghost use Rattle.out_segments.specs.Inner.Keeping.{OnlyRead, Changes};
ghost use Rattle.out_segments.specs.declared.parts.PartFile.TheVariants.{Part};

use crate::parts::{PartFile, Parts};
use outside::{CallFault, Failed};
use std::alloc::Global;

pub(crate) fn length_of<P: Parts>(parts: &mut P, place: u32) -> Result<u64, CallFault>
    ensures length { IfOk result (λ size. IsTrue (P.meaning.images.tells parts.old)
        → size ≡ length (P.meaning.images.seen parts.old (Part place))) }
    ensures only_read { OnlyRead P.meaning parts.old parts.new }
    ensures cause { HasCause result (P.meaning.faults parts.old) (P.meaning.faults parts.new) }
{
    match parts.length(PartFile::Part(place)) {
        Ok(size) => Ok(size),
        Err(Failed) => Err(CallFault::Failed),
    }
}

pub(crate) fn sync_part<P: Parts>(alloc: Global, parts: &mut P, place: u32) -> Result<(), CallFault>
    ensures durable { OnOk result (IsDurable P.meaning.images (Part place) parts.new) }
    ensures only_read { OnlyRead P.meaning parts.old parts.new }
    ensures cause { HasCause result (P.meaning.faults parts.old) (P.meaning.faults parts.new) }
{
    parts.sync(alloc, PartFile::Part(place))
}

pub(crate) fn cut_part<P: Parts>(
    alloc: Global,
    parts: &mut P,
    place: u32,
    length: u64,
) -> Result<(), CallFault>
    requires { IsTrue (P.meaning.images.tells parts.old) → IsWithin length (P.meaning.images.seen parts.old (Part place)) }
    ensures cut { OnOk result (IsTrue (P.meaning.images.tells parts.old)
        → AtFile (Part place) (IsCut length) (P.meaning.images.seen parts.old) (P.meaning.images.seen parts.new)) }
    ensures changes { Changes P.meaning (AtFile (Part place) (MayCut length)) parts.old parts.new }
    ensures cause { HasCause result (P.meaning.faults parts.old) (P.meaning.faults parts.new) }
{
    parts.cut(alloc, PartFile::Part(place), length)
}

pub(crate) fn write_within<P: Parts>(
    alloc: Global,
    parts: &mut P,
    place: u32,
    offset: u64,
    bytes: &[u8],
) -> Result<(), CallFault>
    requires begins { IsTrue (P.meaning.images.tells parts.old) → offset ≤ length (P.meaning.images.seen parts.old (Part place)) }
    requires ends { offset + length bytes.now < 2 ^ 64 }
    ensures written { OnOk result (IsTrue (P.meaning.images.tells parts.old)
        → AtFile (Part place) (Holds offset bytes.now) (P.meaning.images.seen parts.old) (P.meaning.images.seen parts.new)) }
    ensures changes { Changes P.meaning (AtFile (Part place) (Torn offset (length bytes.now))) parts.old parts.new }
    ensures cause { HasCause result (P.meaning.faults parts.old) (P.meaning.faults parts.new) }
{
    parts.write_at(alloc, PartFile::Part(place), offset, bytes)
}
