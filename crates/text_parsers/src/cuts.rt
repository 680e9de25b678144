// Where a text is cut: outside of its quoted parts, at a delimiter.
ghost use Rattle.std.specs.Prelude.{◌≡◌, ◌+◌, ◌≤◌, ◌<◌, [], ◌≢◌, ◌&&◌, IsTrue, IfSome, IfNone, IfOk, Some, None, is_none, false, length, drop, nat_eq, slice_index, ℕ};
ghost use Rattle.std.specs.List.{prefix_len, starts_with};
ghost use Rattle.std.specs.Str.{IsCharBoundary};
ghost use Rattle.text_parsers.specs.Cuts.{begins_with, delimiter_len, IsFirstCut, IsUncut};
ghost use Rattle.text_parsers.specs.Inner.Passed.{is_past, is_other};
ghost use Rattle.text_parsers.specs.Quotes.{is_quote};

use crate::blanks::is_blank;
use crate::quotes::{is_quote, open_behind};
use entry_model::Text;
use std::alloc::{AllocError, Global};
use std::marker::Model;

/// What a text is cut at: a text, or any blank.
#[derive(Drop)]
pub struct Delimiter {
    text: Option<Text>,
}

impl Model for Delimiter {
    ghost use Rattle.std.specs.Prelude.{ℕ, List, Option, ◌<◌};
    ghost use Rattle.text_parsers.specs.Cuts.{delimiter_len};

    ghost Value = { Option (List ℕ) };

    ghost view = { λ delimiter. delimiter.text };

    ghost invariant = { λ delimiter. 0 < delimiter_len delimiter.text };
}

impl Delimiter {
    pub fn blank() -> Delimiter
        ensures { result ≡ None }
    {
        Delimiter { text: None }
    }

    pub fn new(alloc: Global, text: &str) -> Result<Delimiter, AllocError>
        requires { text.now ≢ [] }
        ensures { IfOk result (λ delimiter. delimiter ≡ Some text.now) }
    {
        let text = Text::from_str(alloc, text)?;
        Ok(Delimiter { text: Some(text) })
    }

    pub fn len(&self) -> usize
        ensures len { result ≡ delimiter_len self.now }
        ensures some { 0 < result }
    {
        match &self.text {
            Some(text) => text.len(),
            None => 1,
        }
    }

    /// So many bytes at the front neither begin the delimiter nor open a quote, which each of them tells by itself.
    fn passed(&self, bytes: &[u8]) -> usize
        ensures within { result ≤ length bytes.now }
        ensures unquoted { (k : ℕ) → k < result → is_quote (slice_index bytes.now k) ≡ false }
        ensures uncut { (k : ℕ) → k < result → begins_with self.now (drop k bytes.now) ≡ false }
    {
        match &self.text {
            Some(delimiter) => other_len(delimiter.as_str().as_bytes()[0], bytes),
            None => past_len(bytes),
        }
    }

    /// Whether it stands at this place, outside of quoted parts. This quote is open there.
    fn stands(&self, text: &str, at: usize, quote: Option<u8>) -> bool
        requires { at < length text.now }
        ensures stands { result ≡ (is_none quote && begins_with self.now (drop at text.now)) }
        ensures before { IsTrue result → IsCharBoundary text.now at }
        ensures behind { IsTrue result → IsCharBoundary text.now (at + delimiter_len self.now) }
        ensures some { IsTrue result → 0 < delimiter_len self.now }
    {
        if quote.is_some() {
            return false;
        }
        let bytes = text.as_bytes();
        match &self.text {
            Some(delimiter) => begins_with(delimiter.as_str().as_bytes(), bytes, at),
            None => is_blank(bytes[at]),
        }
    }
}

/// Whether what stands from this place on begins with the delimiter. At most places its first byte tells that it doesn't.
fn begins_with(delimiter: &[u8], bytes: &[u8], at: usize) -> bool
    requires some { 0 < length delimiter.now }
    requires inside { at < length bytes.now }
    ensures { result ≡ starts_with nat_eq (drop at bytes.now) delimiter.now }
{
    bytes[at] == delimiter[0] && bytes[at..].starts_with(delimiter)
}

/// The first place at which the text is cut.
pub fn first_cut(delimiter: &Delimiter, text: &str) -> Option<usize>
    ensures cut { IfSome result (IsFirstCut delimiter.now text.now) }
    ensures uncut { IfNone result (IsUncut delimiter.now text.now) }
    ensures before { IfSome result (IsCharBoundary text.now) }
    ensures behind { IfSome result (λ at. IsCharBoundary text.now (at + delimiter_len delimiter.now)) }
    ensures some { IfSome result (λ _. 0 < delimiter_len delimiter.now) }
{
    let bytes = text.as_bytes();
    let mut quote = None;
    for at in delimiter.passed(bytes)..bytes.len() {
        if delimiter.stands(text, at, quote) {
            return Some(at);
        }
        quote = open_behind(quote, bytes[at]);
    }
    None
}

/// How many bytes at the front are past blanks and quotes in ASCII.
fn past_len(bytes: &[u8]) -> usize
    ensures { result ≡ prefix_len is_past bytes.now }
{
    bytes.iter().take_while(|byte| **byte > b'\'').count()
}

/// How many bytes at the front are neither this one nor quotes.
fn other_len(first: u8, bytes: &[u8]) -> usize
    ensures { result ≡ prefix_len (is_other first) bytes.now }
{
    bytes
        .iter()
        .take_while(|byte| is_other(first, **byte))
        .count()
}

fn is_other(first: u8, byte: u8) -> bool
    ensures { result ≡ is_other first byte }
{
    byte != first && !is_quote(byte)
}
