// Tokens of lines.
ghost use Rattle.std.specs.Prelude.{◌≡◌, ℕ, ◌+◌, ◌<◌, ◌≤◌, List, Some, None, length, take, slice_range, MatchOption, IfSome, IfNone};
ghost use Rattle.std.specs.Str.Lines.{strip_carriage_return};
ghost use Rattle.line_splitter.specs.Cuts.{cut};
ghost use Rattle.line_splitter.specs.LineTokens.{line_end, first_cut, HasNoToken, BeginsWith, KeepsTokens};

use memchr::memchr;

/// A token at the front of some bytes: its text is `bytes[from..to]`, and `after` bytes are used, the
/// line end among them. All three count bytes; `from` is 0.
#[derive(Clone, Copy, Debug, PartialEq, Eq)]
pub struct Token {
    pub from: usize,
    pub to: usize,
    pub after: usize,
}

/// The first token of `bytes`, where lines are cut after `max` bytes; `None` exactly where more bytes
/// are needed to decide it. It takes no memory.
pub fn next(max: usize, bytes: &[u8]) -> Option<Token>
    requires { 1 ≤ max }
    ensures none { IfNone result (first_cut max bytes.now ≡ None) }
    ensures some { IfSome result (λ token. first_cut max bytes.now ≡ Some (cut (slice_range bytes.now token.from token.to) token.after)) }
    ensures from { IfSome result (λ token. token.from ≡ 0) }
    ensures to { IfSome result (λ token. token.to ≤ token.after) }
    ensures taken { IfSome result (λ token. 1 ≤ token.after) }
    ensures after { IfSome result (λ token. token.after ≤ length bytes.now) }
    ensures ends { IfNone result (HasNoToken max bytes.now) }
    ensures begins { IfSome result (λ token. BeginsWith max bytes.now (cut (slice_range bytes.now token.from token.to) token.after)) }
{
    match line_feed_place(max, bytes) {
        Some(end) => Some(Token {
            from: 0,
            to: text_end(bytes, end),
            after: end + 1,
        }),
        None if max < bytes.len() => Some(Token {
            from: 0,
            to: max,
            after: max,
        }),
        None => None,
    }
}

// The place of the first LF among the first `max + 1` bytes.
fn line_feed_place(max: usize, bytes: &[u8]) -> Option<usize>
    ensures none { IfNone result (line_end max bytes.now ≡ length (take (max + 1) bytes.now)) }
    ensures some { IfSome result (λ end. end ≡ line_end max bytes.now) }
    ensures within { IfSome result (λ end. end < length (take (max + 1) bytes.now)) }
{
    if max < bytes.len() {
        memchr(b'\n', &bytes[..max + 1])
    } else {
        memchr(b'\n', bytes)
    }
}

/// Where the text of a line ends whose LF is at `end`: before a CR that stands there.
pub fn text_end(bytes: &[u8], end: usize) -> usize
    requires { end < length bytes.now }
    ensures text { take result bytes.now ≡ strip_carriage_return (take end bytes.now) }
    ensures within { result ≤ end }
{
    if end > 0 && bytes[end - 1] == b'\r' {
        end - 1
    } else {
        end
    }
}

/// A law: without a first token there is none at all; else the others are those of the bytes past it.
pub fn begins_with_first(max: usize, bytes: &[u8])
    requires { 1 ≤ max }
    ensures { MatchOption (first_cut max bytes.now) (HasNoToken max bytes.now) (BeginsWith max bytes.now) }
{}

/// A law: the tokens of some bytes stay the first tokens when more bytes come behind, and then come
/// those of the bytes that were left unused, with the bytes behind them.
pub fn keeps_tokens(max: usize)
    requires { 1 ≤ max }
    ensures { (b more : List ℕ) → KeepsTokens max b more }
{}
