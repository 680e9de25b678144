// Lines behind the output.
ghost use Rattle.std.specs.Prelude.{◌≡◌, ◌+◌, ◌≤◌, ◌^◌, ℕ, List, length, Err, IsTrue, IfSome, IfNone, OnOk};
ghost use Rattle.outside.specs.Count.{HasCause};
ghost use Rattle.outside.specs.declared.disk.DiskFile.{DiskFile};
ghost use Rattle.file_pass.specs.DiskTerms.{Appends, KeepsDisk};
ghost use Rattle.file_pass.specs.Full.{Crosses, lines_text};
ghost use Rattle.file_pass.specs.PassCause.{HasPassCause};
ghost use Rattle.standing.specs.Marks.{Mark};

use crate::fault::PassFault;
use memchr::memchr;
use otlp_json::laws::line_is_one_line;
use outside::{CallFault, Disk, DiskFile};
use std::alloc::Global;

/// Puts lines behind the output, which ends at `end`, and tells where it ends then.
pub(crate) fn append<D: Disk>(
    alloc: Global,
    disk: &mut D,
    limit: u64,
    lines: &[u8],
    end: &mut u64,
) -> Result<(), PassFault>
    requires limit { limit ≤ 2 ^ 40 }
    requires within { end.old ≤ limit }
    requires long { length lines.now ≤ 2 ^ 63 }
    requires ends { IsTrue (D.meaning.images.tells disk.old) → length (D.meaning.images.seen disk.old DiskFile.Output) ≡ end.old }
    ensures ok { OnOk result (Appends D.meaning lines.now end.old end.new disk.old disk.new) }
    ensures limit { OnOk result (end.new ≤ limit) }
    ensures full { (size : ℕ) → result ≡ Err (PassFault.OutputFull size)
        → (marks : List Mark) → lines.now ≡ lines_text marks → Crosses limit end.old marks size }
    ensures keeps { KeepsDisk D.meaning end.old disk.old disk.new }
    ensures cause { HasPassCause result (D.meaning.faults disk.old) (D.meaning.faults disk.new) }
{
    if let Some(length) = past_limit(lines, *end, limit) {
        return Err(PassFault::OutputFull { length });
    }
    write_behind(alloc, disk, *end, lines)?;
    *end += lines.len() as u64;
    Ok(())
}

/// Puts lines behind the output, which ends at `end`. Without lines nothing is done.
pub fn write_behind<D: Disk>(
    alloc: Global,
    disk: &mut D,
    end: u64,
    lines: &[u8],
) -> Result<(), CallFault>
    requires within { end + length lines.now ≤ 2 ^ 40 }
    requires ends { IsTrue (D.meaning.images.tells disk.old) → length (D.meaning.images.seen disk.old DiskFile.Output) ≡ end }
    ensures ok { OnOk result (Appends D.meaning lines.now end (end + length lines.now) disk.old disk.new) }
    ensures keeps { KeepsDisk D.meaning end disk.old disk.new }
    ensures cause { HasCause result (D.meaning.faults disk.old) (D.meaning.faults disk.new) }
{
    if lines.is_empty() {
        return Ok(());
    }
    disk.write_at(alloc, DiskFile::Output, end, lines)
}

/// The output's length with the first of these lines that passes the limit, where it ends at this place.
pub fn past_limit(lines: &[u8], end: u64, limit: u64) -> Option<u64>
    requires limit { limit ≤ 2 ^ 40 }
    requires within { end ≤ limit }
    requires long { length lines.now ≤ 2 ^ 63 }
    ensures none { IfNone result (end + length lines.now ≤ limit) }
    ensures some { IfSome result (λ size. (marks : List Mark) → lines.now ≡ lines_text marks → Crosses limit end marks size) }
    ensures room { IfSome result (λ size. limit ≤ end + length lines.now) }
{
    line_is_one_line();
    let room = (limit - end) as usize;
    if lines.len() <= room {
        return None;
    }
    match memchr(b'\n', &lines[room..]) {
        Some(at) => Some(limit + at as u64 + 1),
        // Each line has its end.
        None => Some(end + lines.len() as u64),
    }
}
