// Reads of the output.
ghost use Rattle.std.specs.Prelude.{◌≡◌, ◌≤◌, length, IsTrue, IfOk};
ghost use Rattle.outside.specs.Content.{Gives};
ghost use Rattle.outside.specs.Count.{HasOneCause};
ghost use Rattle.out_segments.specs.Joined.{IsPartSize, output_of};
ghost use Rattle.out_segments.specs.Inner.Keeping.{OnlyRead};
ghost use Rattle.out_segments.specs.Inner.Settled.{AreSettled};

use crate::ending::{part_of, reaches};
use crate::parts::{PartFile, Parts};
use outside::Failed;

/// Fills the front of `buf` with the output's bytes from `offset`, of one Part at a time, and answers how many it gave:
/// none only at the output's end, or for an empty `buf`.
pub(crate) fn read_output<P: Parts>(
    parts: &mut P,
    size: u64,
    settled: u32,
    offset: u64,
    buf: &mut [u8],
) -> Result<usize, Failed>
    requires size { IsPartSize size }
    requires settled { AreSettled P.meaning.images size settled parts.old }
    ensures within { IfOk result (λ count. count ≤ length buf.new) }
    ensures bytes { IfOk result (λ count. IsTrue (P.meaning.images.tells parts.old)
        → Gives (output_of size (P.meaning.images.seen parts.old)) offset buf.new count) }
    ensures only_read { OnlyRead P.meaning parts.old parts.new }
    ensures cause { HasOneCause result (P.meaning.faults parts.old) (P.meaning.faults parts.new) }
{
    let Some(place) = part_of(size, offset) else {
        return Ok(0);
    };
    if !reaches(parts, size, settled, place)? {
        return Ok(0);
    }
    let inside = offset % size;
    let most = (size - inside).min(buf.len() as u64) as usize;
    let count = parts.read(PartFile::Part(place), inside, &mut buf[..most])?;
    Ok(count)
}
