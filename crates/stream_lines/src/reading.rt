// Reading a stream in pieces.
ghost use Rattle.std.specs.Prelude.{◌≡◌, ◌<◌, ◌≤◌, length, IfOk};
ghost use Rattle.outside.specs.Count.{HasOneCause};
ghost use Rattle.outside.specs.Stream.{TakesFront};
ghost use Rattle.outside.specs.World.{Told};

use outside::{Failed, Source};

/// Reads the next bytes into the front of the buffer, at most `left`, and answers how many came: none only at the end.
pub(crate) fn read_piece<S: Source>(
    source: &mut S,
    left: u64,
    buffer: &mut [u8],
) -> Result<usize, Failed>
    requires some { 0 < left }
    requires room { 0 < length buffer.old }
    ensures long { length buffer.new ≡ length buffer.old }
    ensures within { IfOk result (λ count. count ≤ length buffer.new) }
    ensures left { IfOk result (λ count. count ≤ left) }
    ensures taken { Told (TakesFront buffer.new result) (S.meaning.rest source.old) (S.meaning.rest source.new) }
    ensures cause { HasOneCause result (S.meaning.faults source.old) (S.meaning.faults source.new) }
{
    let room = room(left, buffer.len());
    source.read(&mut buffer[..room])
}

// How many bytes a read is given room for.
fn room(left: u64, most: usize) -> usize
    requires { (0 < left) × (0 < most) }
    ensures { (0 < result) × (result ≤ left) × (result ≤ most) }
{
    if left < most as u64 {
        left as usize
    } else {
        most
    }
}
