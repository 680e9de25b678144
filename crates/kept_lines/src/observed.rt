// What a line was made of.
ghost use Rattle.std.specs.Prelude.{◌≡◌, ℕ, ◌<◌, ◌^◌, Option, Some, is_some, IfSome, MatchOption, IfOk};
ghost use Rattle.entry_model.specs.LogRecord.{log_record};
ghost use Rattle.kept_lines.specs.Made.{IsMade, IsNotMade};
ghost use Rattle.otlp_json.specs.ObservedTime.{HasObservedTime, HasOneTime};
ghost use Rattle.otlp_json.specs.IsOf64Bits.{IsTime};

use crate::numbers::parsed;
use entry_model::Entry;
use memchr::{memchr, memmem};
use otlp_json::laws::line_tells_its_time;
use otlp_json::line as append_line;
use std::alloc::{AllocError, Global};

/// The observed time that a line tells. Of bytes that aren't a line with a time it may be any or none.
fn told_time(line: &[u8]) -> Option<u64>
    ensures { (time : ℕ) → time < 2 ^ 64 → HasOneTime time line.now → result ≡ Some time }
{
    let opening = b",\"observedTimeUnixNano\":\"".as_slice();
    let Some(at) = memmem::find(line, opening) else {
        return None;
    };
    let behind = &line[at + 25..];
    let Some(end) = memchr(b'"', behind) else {
        return None;
    };
    parsed(&behind[..end])
}

/// The time of which the line may be: none where it is to have none.
fn time_in(line: &[u8], stamped: bool) -> Option<Option<u64>>
    ensures told { (time : Option ℕ) → is_some time ≡ stamped → IsTime time → HasObservedTime time line.now → result ≡ Some time }
    ensures has_time { IfSome result (λ time. is_some time ≡ stamped) }
{
    if !stamped {
        return Some(None);
    }
    match told_time(line) {
        Some(time) => Some(Some(time)),
        None => None,
    }
}

/// The observed time with which the line is that of an entry, where it is: `id` is its file's, `number` its own among that file's
/// lines, and it has a time exactly where it is `stamped`.
pub fn observed_in(
    alloc: Global,
    id: u32,
    number: u64,
    stamped: bool,
    entry: &Entry,
    line: &[u8],
) -> Result<Option<Option<u64>>, AllocError>
    ensures { IfOk result (λ found. MatchOption found (IsNotMade id number stamped (log_record entry.now) line.now)
        (λ time. IsMade id number stamped (log_record entry.now) time line.now)) }
{
    line_tells_its_time();
    let Some(time) = time_in(line, stamped) else {
        return Ok(None);
    };
    let mut text = Vec::new(alloc);
    append_line(alloc, id, number, time, entry, &mut text)?;
    if text.as_slice() == line {
        return Ok(Some(time));
    }
    Ok(None)
}
