// Reading an open file.
ghost use Rattle.std.specs.Prelude.{◌≡◌, ◌+◌, ◌<◌, ◌≤◌, length, take};
ghost use Rattle.file_pass.specs.Reads.{piece_at};
ghost use Rattle.file_pass.specs.TreeTerms.{ReadsOnly};
ghost use Rattle.file_pass.specs.declared.ending.Ending.TheVariants.{Whole};

use crate::ending::Ending;
use outside::{Failed, Handle, Tree};

/// Reads once from a place, at most up to `last`, and answers how many bytes the front of the buffer was given.
pub(crate) fn read_piece<T: Tree>(
    tree: &mut T,
    handle: Handle,
    from: u64,
    last: u64,
    buffer: &mut [u8],
) -> (usize, Ending)
    requires some { from < last }
    requires room { 0 < length buffer.old }
    ensures long { length buffer.new ≡ length buffer.old }
    ensures within { (result.0 ≤ length buffer.new) × (from + result.0 ≤ last) }
    ensures whole { result.1 ≡ Whole → 0 < result.0 }
    ensures none { (result.1 ≡ Whole → ⊥) → result.0 ≡ 0 }
    ensures tree { ReadsOnly T.meaning (piece_at handle.0 from last (take result.0 buffer.new) result.1) result.0 (length buffer.old) tree.old tree.new }
{
    let room = room(last - from, buffer.len());
    match tree.read_at(handle, from, &mut buffer[..room]) {
        Ok(0) => (0, Ending::Shrunk),
        Ok(count) => (count, Ending::Whole),
        Err(Failed) => (0, Ending::Failed),
    }
}

// How many bytes a read is given room for.
fn room(left: u64, most: usize) -> usize
    requires { (0 < left) × (0 < most) }
    ensures { (0 < result) × (result ≤ left) × (result ≤ most) }
{
    if left < most as u64 {
        left as usize
    } else {
        most
    }
}
