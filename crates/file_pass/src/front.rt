// The first bytes of an open file.
ghost use Rattle.std.specs.Prelude.{◌≡◌, ◌≤◌, length, take};
ghost use Rattle.file_pass.specs.Reads.{piece_at};
ghost use Rattle.file_pass.specs.TreeTerms.{ReadsOnly};
ghost use Rattle.file_pass.specs.declared.ending.Ending.TheVariants.{Whole};

use crate::ending::{Ending, OpenFile};
use crate::reading::read_piece;
use outside::Tree;

/// Reads the file's first bytes into `front`, which has room for all that are wanted.
pub(crate) fn read_front<T: Tree>(tree: &mut T, file: OpenFile, front: &mut [u8]) -> (usize, Ending)
    requires { length front.old ≤ file.size }
    ensures long { length front.new ≡ length front.old }
    ensures within { result.0 ≤ length front.new }
    ensures whole { result.1 ≡ Whole → result.0 ≡ length front.new }
    ensures tree { ReadsOnly T.meaning (piece_at file.handle.0 0 (length front.old) (take result.0 front.new) result.1) result.0 (length front.old) tree.old tree.new }
{
    let size = front.len();
    let mut filled = 0;
    while filled < size {
        let (count, ending) = read_piece(
            tree,
            file.handle,
            filled as u64,
            size as u64,
            &mut front[filled..],
        );
        if !ending.is_whole() {
            return (filled, ending);
        }
        filled += count;
    }
    (filled, Ending::Whole)
}
