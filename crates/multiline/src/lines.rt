// Where lines end and begin.
ghost use Rattle.std.specs.Prelude.{◌≡◌, ◌≢◌, ℕ, ◌<◌, ◌≤◌, ◌+◌, List, length, take, slice_index, IfSome, IfNone};
ghost use Rattle.std.specs.Str.Lines.{strip_carriage_return};
ghost use Rattle.multiline.specs.MultilineTokens.{window, line_start};

use memchr::{memchr, memrchr};

/// How many bytes are looked at for an LF: one more than `max`, or all where there are fewer.
pub fn window_end(max: usize, bytes: &[u8]) -> usize
    ensures window { result ≡ window max bytes.now }
    ensures within { result ≤ length bytes.now }
{
    if max < bytes.len() {
        max + 1
    } else {
        bytes.len()
    }
}

/// The place of the first LF from `from` up to `to`.
pub fn line_feed(bytes: &[u8], from: usize, to: usize) -> Option<usize>
    requires ordered { from ≤ to }
    requires within { to ≤ length bytes.now }
    ensures none { IfNone result ((k : ℕ) → from ≤ k → k < to → slice_index bytes.now k ≢ 10) }
    ensures bounds { IfSome result (λ place. (from ≤ place) × (place < to)) }
    ensures before { IfSome result (λ place. (k : ℕ) → from ≤ k → k < place → slice_index bytes.now k ≢ 10) }
    ensures found { IfSome result (λ place. slice_index bytes.now place ≡ 10) }
{
    match memchr(b'\n', &bytes[from..to]) {
        Some(place) => Some(from + place),
        None => None,
    }
}

/// Where the line begins that the LF at `place` ends.
pub fn start_of_line(bytes: &[u8], place: usize) -> usize
    requires { place ≤ length bytes.now }
    ensures start { result ≡ line_start bytes.now place }
    ensures within { result ≤ place }
{
    match memrchr(b'\n', &bytes[..place]) {
        Some(before) => before + 1,
        None => 0,
    }
}

/// The text of a line without its LF: less one CR at its end.
pub fn text_of(line: &[u8]) -> &[u8]
    ensures text { result.now ≡ strip_carriage_return line.now }
    ensures front { take (length result.now) line.now ≡ strip_carriage_return line.now }
    ensures within { length result.now ≤ length line.now }
{
    let end = line.len();
    if end > 0 && line[end - 1] == b'\r' {
        &line[..end - 1]
    } else {
        line
    }
}
