// Where the output ends.
ghost use Rattle.std.specs.Prelude.{◌≡◌, ◌≤◌, ◌*◌, ◌/◌, ◌↔◌, length, IsTrue, IfOk, IfSome, IfNone};
ghost use Rattle.outside.specs.Count.{HasOneCause};
ghost use Rattle.out_segments.specs.Joined.{IsPartSize, output_of};
ghost use Rattle.out_segments.specs.Inner.Keeping.{OnlyRead};
ghost use Rattle.out_segments.specs.Inner.Settled.{AreSettled};

use crate::parts::{PartFile, Parts};
use outside::Failed;

// The Part in which a place of the output lies, where there is one.
pub(crate) fn part_of(size: u64, offset: u64) -> Option<u32>
    requires { IsPartSize size }
    ensures some { IfSome result (λ place. place ≡ offset / size) }
    ensures none { IfNone result (4294967296 * size ≤ offset) }
{
    let place = offset / size;
    if place > 4_294_967_295 {
        return None;
    }
    Some(place as u32)
}

// Whether each Part before this one is full. The settled ones are.
pub(crate) fn reaches<P: Parts>(
    parts: &mut P,
    size: u64,
    settled: u32,
    place: u32,
) -> Result<bool, Failed>
    requires size { IsPartSize size }
    requires settled { AreSettled P.meaning.images size settled parts.old }
    ensures reached { IfOk result (λ yes. IsTrue (P.meaning.images.tells parts.old)
        → (IsTrue yes ↔ (place * size ≤ length (output_of size (P.meaning.images.seen parts.old))))) }
    ensures only_read { OnlyRead P.meaning parts.old parts.new }
    ensures cause { HasOneCause result (P.meaning.faults parts.old) (P.meaning.faults parts.new) }
{
    for number in settled..place {
        let last = parts.length(PartFile::Part(number))?;
        if last < size {
            return Ok(false);
        }
    }
    Ok(true)
}

/// The output's length in bytes.
pub(crate) fn output_length<P: Parts>(parts: &mut P, size: u64, settled: u32) -> Result<u64, Failed>
    requires size { IsPartSize size }
    requires settled { AreSettled P.meaning.images size settled parts.old }
    ensures length { IfOk result (λ long. IsTrue (P.meaning.images.tells parts.old)
        → long ≡ length (output_of size (P.meaning.images.seen parts.old))) }
    ensures only_read { OnlyRead P.meaning parts.old parts.new }
    ensures cause { HasOneCause result (P.meaning.faults parts.old) (P.meaning.faults parts.new) }
{
    let mut full = settled as u64;
    while full < 4_294_967_296 {
        let last = parts.length(PartFile::Part(full as u32))?;
        if last < size {
            return Ok(full * size + last);
        }
        full += 1;
    }
    Ok(full * size)
}
