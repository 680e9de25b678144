// Reading a part of a file.
ghost use Rattle.std.specs.Prelude.{◌≡◌, ◌+◌, ◌≤◌, ◌<◌, ◌^◌, length, take, drop, IsTrue, IfOk};
ghost use Rattle.outside.specs.Count.{HasCause, HasOneCause};
ghost use Rattle.slot_store.specs.OnlyRead.{OnlyRead};

use outside::{CallFault, Disk, DiskFile, Failed};
use std::alloc::Global;

/// The file's bytes from a place on, at most so many. Memory is asked for what the file has, whatever `most` is.
pub fn read_part<D: Disk>(
    alloc: Global,
    disk: &mut D,
    file: DiskFile,
    offset: u64,
    most: u64,
) -> Result<Vec<u8>, CallFault>
    ensures bytes { IfOk result (λ bytes. IsTrue (D.meaning.images.tells disk.old)
        → bytes.items ≡ take most (drop offset (D.meaning.images.seen disk.old file))) }
    ensures only_read { OnlyRead D.meaning disk.old disk.new }
    ensures cause { HasCause result (D.meaning.faults disk.old) (D.meaning.faults disk.new) }
{
    let end = length_of(disk, file)?;
    let size = end.saturating_sub(offset).min(most);
    let mut bytes = vec![in alloc; 0; size as usize]?;
    let count = match fill(disk, file, offset, &mut bytes) {
        Ok(count) => count,
        Err(Failed) => return Err(CallFault::Failed),
    };
    bytes.truncate(count);
    Ok(bytes)
}

// The file's length, with the fault of a call that takes memory.
fn length_of<D: Disk>(disk: &mut D, file: DiskFile) -> Result<u64, CallFault>
    ensures length { IfOk result (λ size. IsTrue (D.meaning.images.tells disk.old)
        → size ≡ length (D.meaning.images.seen disk.old file)) }
    ensures only_read { OnlyRead D.meaning disk.old disk.new }
    ensures cause { HasCause result (D.meaning.faults disk.old) (D.meaning.faults disk.new) }
{
    match disk.length(file) {
        Ok(size) => Ok(size),
        Err(Failed) => Err(CallFault::Failed),
    }
}

/// Fills `buf` with the file's bytes from a place on, as far as the file goes, and answers how many these are.
pub fn fill<D: Disk>(
    disk: &mut D,
    file: DiskFile,
    offset: u64,
    buf: &mut [u8],
) -> Result<usize, Failed>
    requires { offset + length buf.old < 2 ^ 64 }
    ensures within { IfOk result (λ count. count ≤ length buf.new) }
    ensures bytes { IfOk result (λ count. IsTrue (D.meaning.images.tells disk.old)
        → take count buf.new ≡ take (length buf.new) (drop offset (D.meaning.images.seen disk.old file))) }
    ensures only_read { OnlyRead D.meaning disk.old disk.new }
    ensures cause { HasOneCause result (D.meaning.faults disk.old) (D.meaning.faults disk.new) }
{
    let mut filled = 0;
    while filled < buf.len() {
        let count = disk.read(file, offset + filled as u64, &mut buf[filled..])?;
        if count == 0 {
            break;
        }
        filled += count;
    }
    Ok(filled)
}
