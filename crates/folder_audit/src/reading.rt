// Reading an open file.
ghost use Rattle.std.specs.Prelude.{◌≡◌, ◌+◌, ◌<◌, ◌^◌, length};
ghost use Rattle.folder_audit.specs.Inner.ReadsRange.{ReadsRange};

use outside::{Failed, Handle, Tree};

/// Fills the buffer with the file's bytes from a place on. Answers whether all of it was filled: not where a call failed or the
/// file ends before.
pub(crate) fn read_range<T: Tree>(
    tree: &mut T,
    handle: Handle,
    from: u64,
    buffer: &mut [u8],
) -> bool
    requires { from + length buffer.old < 2 ^ 64 }
    ensures long { length buffer.new ≡ length buffer.old }
    ensures range { ReadsRange T.meaning handle.0 from buffer.new result tree.old tree.new }
{
    let size = buffer.len();
    let mut filled = 0;
    while filled < size {
        match tree.read_at(handle, from + filled as u64, &mut buffer[filled..]) {
            Ok(0) => return false,
            Ok(count) => filled += count,
            Err(Failed) => return false,
        }
    }
    true
}
