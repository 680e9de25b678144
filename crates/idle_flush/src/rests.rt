// The tokens of what waits at the end of a file.
ghost use Rattle.std.specs.Prelude.{◌≡◌, ◌≤◌, [], Some, None, length, take, slice_range, IfSome, IfNone};
ghost use Rattle.line_splitter.specs.Cuts.{cut};
ghost use Rattle.idle_flush.specs.Rests.{rest_cut, rest_cuts, without_line_end, BeginsRest};

use line_splitter::{Token, text_end};

/// The first token of bytes that are flushed, where lines are cut after `max` bytes: the first `max` of more than that, else all,
/// without an LF at their end and a CR directly before it. `None` exactly for no bytes. It takes no memory.
pub fn rest(max: usize, bytes: &[u8]) -> Option<Token>
    requires { 1 ≤ max }
    ensures none { IfNone result (rest_cut max bytes.now ≡ None) }
    ensures some { IfSome result (λ token. rest_cut max bytes.now ≡ Some (cut (slice_range bytes.now token.from token.to) token.after)) }
    ensures ends { IfNone result (rest_cuts max bytes.now ≡ []) }
    ensures begins { IfSome result (λ token. BeginsRest max bytes.now (cut (slice_range bytes.now token.from token.to) token.after)) }
    ensures from { IfSome result (λ token. token.from ≡ 0) }
    ensures to { IfSome result (λ token. token.to ≤ token.after) }
    ensures taken { IfSome result (λ token. 1 ≤ token.after) }
    ensures after { IfSome result (λ token. token.after ≤ length bytes.now) }
{
    if max < bytes.len() {
        return Some(Token {
            from: 0,
            to: max,
            after: max,
        });
    }
    if bytes.is_empty() {
        return None;
    }
    Some(Token {
        from: 0,
        to: last_text_end(bytes),
        after: bytes.len(),
    })
}

// Where the text of the bytes ends: before the end of their last line, where they have it.
fn last_text_end(bytes: &[u8]) -> usize
    requires { 1 ≤ length bytes.now }
    ensures text { take result bytes.now ≡ without_line_end bytes.now }
    ensures within { result ≤ length bytes.now }
{
    let last = bytes.len() - 1;
    if bytes[last] == b'\n' {
        text_end(bytes, last)
    } else {
        bytes.len()
    }
}
