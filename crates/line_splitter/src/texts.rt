// The text of an entry: a token trimmed and made valid UTF-8.
ghost use Rattle.std.specs.Prelude.{◌≡◌, ℕ, ◌-◌, ◌<◌, ◌≤◌, if◌then◌else◌, List, [], length, drop, slice_range, IfOk, IfSome, IfNone, string_bytes};
ghost use Rattle.std.specs.List.{prefix_len, suffix_len};
ghost use Rattle.std.specs.Str.Lossy.{utf8_lossy};
ghost use Rattle.line_splitter.specs.Trim.{is_blank, trim_start, trim_end, trimmed, IsTrimmedTo};
ghost use Rattle.line_splitter.specs.EntryText.{entry_text};

use simdutf8::from_utf8_baseline;
use std::alloc::{AllocError, Global};

/// The part `from..to` of `text` that stays when blank bytes (space, tab, CR and LF) are cut from its
/// ends. `leading` and `trailing` say which end keeps its blanks. Of a text that is all blank an
/// empty part stays: at its end where only the front or both are cut, at its front where only the
/// end is.
#[tactic(auto, using(crate::proofs::TrimLemmas::trim_parts, crate::proofs::TrimLemmas::trim_end_bounds, crate::proofs::TrimLemmas::trim_start_le), unfolding(crate::specs::Trim::trim_end, crate::specs::Trim::trimmed))]
pub fn trim(text: &[u8], leading: bool, trailing: bool) -> (usize, usize)
    ensures from { result.0 ≡ trim_start leading text.now }
    ensures to { result.1 ≡ trim_end leading trailing text.now }
    ensures part { slice_range text.now result.0 result.1 ≡ trimmed leading trailing text.now }
    ensures ends { IsTrimmedTo leading trailing text.now result.0 result.1 }
{
    let from = kept_from(text, leading);
    let to = kept_to(text, from, trailing);
    (from, to)
}

// Past the blanks in front, unless they are kept.
#[tactic(auto, unfolding(crate::specs::Trim::trim_start))]
fn kept_from(text: &[u8], leading: bool) -> usize
    ensures { result ≡ trim_start leading text.now }
{
    if leading {
        return 0;
    }
    leading_blanks(text)
}

// Before the blanks at the end of what is left from `from` on, unless they are kept.
fn kept_to(text: &[u8], from: usize, trailing: bool) -> usize
    requires { from ≤ length text.now }
    ensures { result ≡ (if trailing then length text.now else length text.now - suffix_len is_blank (drop from text.now)) }
{
    if trailing {
        return text.len();
    }
    text.len() - trailing_blanks(&text[from..])
}

fn leading_blanks(text: &[u8]) -> usize
    ensures { result ≡ prefix_len is_blank text.now }
{
    text.iter().take_while(|byte| blank(**byte)).count()
}

#[tactic(auto, using(crate::proofs::TrimLemmas::suffix_len_within))]
fn trailing_blanks(text: &[u8]) -> usize
    ensures count { result ≡ suffix_len is_blank text.now }
    ensures within { result ≤ length text.now }
{
    text.iter().rev().take_while(|byte| blank(**byte)).count()
}

fn blank(byte: u8) -> bool
    ensures { result ≡ is_blank byte }
{
    matches!(byte, b' ' | b'\t' | b'\r' | b'\n')
}

/// The text that a token gives to an entry: trimmed as [`trim`] does, with U+FFFD for each sequence
/// that isn't UTF-8. `None` exactly for an empty text, which makes no entry.
pub fn entry_text(
    alloc: Global,
    token: &[u8],
    leading: bool,
    trailing: bool,
) -> Result<Option<String>, AllocError>
    ensures none { IfOk result (λ text. IfNone text (entry_text leading trailing token.now ≡ [])) }
    ensures some { IfOk result (λ text. IfSome text (λ s. string_bytes s ≡ entry_text leading trailing token.now)) }
    ensures not_empty { IfOk result (λ text. IfSome text (λ s. 0 < length (entry_text leading trailing token.now))) }
{
    let (from, to) = trim(token, leading, trailing);
    if from == to {
        return Ok(None);
    }
    Ok(Some(text_of(alloc, &token[from..to])?))
}

// Valid text is taken as it is; only other bytes are gone through one by one.
fn text_of(alloc: Global, bytes: &[u8]) -> Result<String, AllocError>
    ensures { IfOk result (λ text. string_bytes text ≡ utf8_lossy bytes.now) }
{
    match from_utf8_baseline(bytes) {
        Ok(text) => Ok(String::from_str(alloc, text)?),
        Err(_) => Ok(String::from_utf8_lossy(alloc, bytes)?),
    }
}
