// Lines behind those that were printed.
ghost use Rattle.std.specs.Prelude.{◌≡◌, ℕ, ◌+◌, ◌≤◌, ◌^◌, List, ◌++◌, length, take, Option, OnOk};
ghost use Rattle.file_pass.specs.Full.{lines_text};
ghost use Rattle.outside.specs.World.{Told};
ghost use Rattle.standing.specs.Marks.{Mark};
ghost use Rattle.stream_lines.specs.Causes.{HasReportCause};
ghost use Rattle.stream_lines.specs.Limits.{most_printed};
ghost use Rattle.stream_lines.specs.Prints.{Prints, Tells};
ghost use Rattle.stream_lines.specs.Inner.WholeFront.{IsWholeFront};

use crate::fault::StreamFault;
use file_pass::past_limit;
use memchr::memrchr;
use otlp_json::laws::line_is_one_line;
use outside::Sink;
use std::alloc::Global;

/// The most bytes of the lines that are printed.
const MOST_PRINTED: u64 = 1 << 40;

/// Prints lines behind those before, which have `printed` bytes, and counts them. Of lines with which these would have too many bytes,
/// those are printed that stand before the one that passes the limit.
pub(crate) fn print<K: Sink>(
    alloc: Global,
    lines: &[u8],
    printed: &mut u64,
    report: &mut K,
) -> Result<(), StreamFault>
    requires within { printed.old ≤ most_printed }
    requires long { length lines.now ≤ 2 ^ 63 }
    ensures tells { (earlier marks : List Mark) (begun : Option (List ℕ)) → lines.now ≡ lines_text marks → printed.old ≡ length (lines_text earlier)
        → Told (Prints (lines_text earlier)) begun (K.meaning.written report.old)
        → Tells (earlier ++ marks) result begun (K.meaning.written report.new) }
    ensures printed { OnOk result (printed.new ≡ printed.old + length lines.now) }
    ensures limit { OnOk result (printed.new ≤ most_printed) }
    ensures cause { HasReportCause result (K.meaning.faults report.old) (K.meaning.faults report.new) }
{
    line_is_one_line();
    if lines.is_empty() {
        return Ok(());
    }
    if let Some(length) = past_limit(lines, *printed, MOST_PRINTED) {
        let room = (MOST_PRINTED - *printed) as usize;
        let before = whole_front(&lines[..room]);
        report.write(alloc, &lines[..before])?;
        return Err(StreamFault::Full { length });
    }
    report.write(alloc, lines)?;
    *printed += lines.len() as u64;
    Ok(())
}

// How many bytes the lines have that end within these bytes.
fn whole_front(bytes: &[u8]) -> usize
    ensures within { result ≤ length bytes.now }
    ensures whole { IsWholeFront bytes.now result }
{
    match memrchr(b'\n', bytes) {
        Some(at) => at + 1,
        None => 0,
    }
}
