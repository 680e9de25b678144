// How far a text begins a word that can stand in its place.
ghost use Rattle.std.specs.Prelude.{◌≡◌, ◌+◌, ◌≤◌, ◌<◌, ◌-◌, ◌*◌, ◌&&◌, true, false, cond, codes, drop, length, max, nat_le, if◌then◌else◌, Some, None, IfOk};
ghost use Rattle.expr_lang.specs.Begun.{takes, takes_operand as is_for_operand, longest, leaves, openings, joins, comparisons as comparison_words, constants, roots, fixed_length_of};
ghost use Rattle.expr_lang.specs.Inner.BrokenWords.{is_path, quoted_length as length_in_quotes, text_length_of, fitting, int_length_of};
ghost use Rattle.expr_lang.specs.Longest.{common, IsSpelling, IsLongest};
ghost use Rattle.expr_lang.specs.Words.{begins_path};

use crate::lexer::{digit_count, escaped, is_digit, is_quote, is_root, path_end, word_length};
use crate::parser::Wanted;
use field_paths::{FieldPath, PathFault};
use std::alloc::{AllocError, Global};

/// How many bytes from `at` on begin a word that is wanted, where the word that stands there isn't. None do where it
/// `negates` and an operand is wanted: that negation would open one level too many.
pub fn refused_length(
    alloc: Global,
    wanted: Wanted,
    negates: bool,
    text: &str,
    at: usize,
) -> Result<usize, AllocError>
    requires { at < length text.now }
    ensures too_deep { (negates && is_for_operand wanted) ≡ true → IfOk result (λ most. most ≡ 0) }
    ensures longest { (negates && is_for_operand wanted) ≡ false → IfOk result (IsLongest (IsSpelling (λ word. takes wanted word ≡ true)) (drop at text.now)) }
{
    if negates && wanted.takes_operand() {
        return Ok(0);
    }
    begun_length(alloc, wanted, text, at)
}

/// How many bytes from `at` on begin a word that is wanted.
pub fn begun_length(
    alloc: Global,
    wanted: Wanted,
    text: &str,
    at: usize,
) -> Result<usize, AllocError>
    requires { at < length text.now }
    ensures { IfOk result (IsLongest (IsSpelling (λ word. takes wanted word ≡ true)) (drop at text.now)) }
{
    let rest = &text.as_bytes()[at..];
    let fixed = fixed_length(wanted, rest);
    match wanted {
        Wanted::Operand { .. } => {
            let path = path_length(alloc, text, at)?;
            Ok(fixed.max(literal_length(rest)).max(path))
        }
        Wanted::FirstItem | Wanted::NextItem => Ok(fixed.max(literal_length(rest))),
        Wanted::Pattern => Ok(text_length(rest)),
        Wanted::Operator { .. } | Wanted::AfterItem => Ok(fixed),
    }
}

/// How many of the bytes begin a word that is wanted and has a fixed spelling.
fn fixed_length(wanted: Wanted, bytes: &[u8]) -> usize
    ensures { result ≡ fixed_length_of wanted bytes.now }
{
    match wanted {
        Wanted::Operand { nests } => {
            leaf_length(bytes).max(if nests { opening_length(bytes) } else { 0 })
        }
        Wanted::Operator { compared, grouped } => {
            let comparison = comparison_length(compared, bytes);
            join_length(bytes).max(comparison.max(group_end_length(grouped, bytes)))
        }
        Wanted::Pattern => 0,
        Wanted::FirstItem => constant_length(bytes).max(common_front(b"]", bytes)),
        Wanted::NextItem => constant_length(bytes),
        Wanted::AfterItem => common_front(b",", bytes).max(common_front(b"]", bytes)),
    }
}

fn leaf_length(bytes: &[u8]) -> usize
    ensures { result ≡ longest leaves bytes.now }
{
    let most = longer(b"severity_text", bytes, 0);
    let most = longer(b"severity_number", bytes, most);
    let most = longer(b"nil", bytes, most);
    let most = longer(b"false", bytes, most);
    longer(b"true", bytes, most)
}

fn opening_length(bytes: &[u8]) -> usize
    ensures { result ≡ longest openings bytes.now }
{
    let most = longer(b"[", bytes, 0);
    let most = longer(b"(", bytes, most);
    let most = longer(b"!", bytes, most);
    longer(b"not", bytes, most)
}

fn join_length(bytes: &[u8]) -> usize
    ensures { result ≡ longest joins bytes.now }
{
    let most = longer(b"||", bytes, 0);
    let most = longer(b"or", bytes, most);
    let most = longer(b"&&", bytes, most);
    longer(b"and", bytes, most)
}

fn group_end_length(grouped: bool, bytes: &[u8]) -> usize
    ensures { result ≡ cond grouped (common (codes ")") bytes.now) 0 }
{
    if grouped {
        common_front(b")", bytes)
    } else {
        0
    }
}

fn comparison_length(compared: bool, bytes: &[u8]) -> usize
    ensures { result ≡ cond compared 0 (longest comparison_words bytes.now) }
{
    if compared {
        return 0;
    }
    let most = longer(b"matches", bytes, 0);
    let most = longer(b"in", bytes, most);
    let most = longer(b"endsWith", bytes, most);
    let most = longer(b"startsWith", bytes, most);
    let most = longer(b"contains", bytes, most);
    let most = longer(b">", bytes, most);
    let most = longer(b">=", bytes, most);
    let most = longer(b"<", bytes, most);
    let most = longer(b"<=", bytes, most);
    let most = longer(b"!=", bytes, most);
    longer(b"==", bytes, most)
}

fn constant_length(bytes: &[u8]) -> usize
    ensures { result ≡ longest constants bytes.now }
{
    let most = longer(b"nil", bytes, 0);
    let most = longer(b"false", bytes, most);
    longer(b"true", bytes, most)
}

fn root_length(bytes: &[u8]) -> usize
    ensures { result ≡ longest roots bytes.now }
{
    let most = longer(b"resource", bytes, 0);
    let most = longer(b"attributes", bytes, most);
    longer(b"body", bytes, most)
}

/// The most bytes that begin this spelling or another one.
fn longer(spelling: &[u8], bytes: &[u8], most: usize) -> usize
    ensures { result ≡ max (common spelling.now bytes.now) most }
{
    common_front(spelling, bytes).max(most)
}

#[tactic(auto, using(crate::proofs::Loops::common_step, crate::proofs::Loops::common_end))]
fn common_front(spelling: &[u8], bytes: &[u8]) -> usize
    ensures { result ≡ common spelling.now bytes.now }
{
    let shorter = spelling.len().min(bytes.len());
    for index in 0..shorter {
        if spelling[index] != bytes[index] {
            return index;
        }
    }
    shorter
}

/// How many of the bytes begin an int or a text between quotes.
fn literal_length(bytes: &[u8]) -> usize
    ensures { result ≡ max (text_length_of bytes.now) (int_length_of bytes.now) }
{
    text_length(bytes).max(int_length(bytes))
}

fn text_length(bytes: &[u8]) -> usize
    ensures { result ≡ text_length_of bytes.now }
{
    match bytes.split_first() {
        Some((quote, inner)) if is_quote(*quote) => 1 + quoted_length(*quote, inner),
        _ => 0,
    }
}

/// How many bytes behind a quote go on a text, up to the quote that closes it.
#[tactic(auto, using(crate::proofs::Loops::behind_step, crate::proofs::Loops::quoted_step, crate::proofs::Loops::quoted_end))]
fn quoted_length(quote: u8, inner: &[u8]) -> usize
    ensures is { result ≡ length_in_quotes quote false inner.now }
    ensures within { result ≤ length inner.now }
{
    let mut behind = false;
    for (index, byte) in inner.iter().enumerate() {
        if behind {
            if escaped(*byte).is_none() {
                return index;
            }
            behind = false;
        } else if *byte == b'\\' {
            behind = true;
        } else if *byte == quote {
            return index + 1;
        }
    }
    inner.len()
}

fn int_length(bytes: &[u8]) -> usize
    ensures { result ≡ int_length_of bytes.now }
{
    match bytes.split_first() {
        Some((b'-', digits)) => 1 + fitting_count(1 << 63, &digits[..digit_count(digits)]),
        _ => fitting_count((1 << 63) - 1, &bytes[..digit_count(bytes)]),
    }
}

/// How many of the digits write a number of at most `most`.
#[tactic(auto, using(crate::proofs::Loops::fitting_step, crate::proofs::Loops::fitting_end))]
fn fitting_count(most: u64, digits: &[u8]) -> usize
    ensures is { result ≡ fitting most 0 digits.now }
    ensures within { result ≤ length digits.now }
{
    let mut value: u64 = 0;
    for (index, byte) in digits.iter().enumerate() {
        match one_more(most, value, *byte) {
            Some(next) => value = next,
            None => return index,
        }
    }
    digits.len()
}

/// The number with one more digit, where it is at most `most`.
fn one_more(most: u64, value: u64, byte: u8) -> Option<u64>
    ensures { result ≡ (if nat_le (value * 10 + (byte - 48)) most then Some (value * 10 + (byte - 48)) else None) }
{
    let digit = u64::from(byte.saturating_sub(b'0'));
    let next = value.checked_mul(10)?.checked_add(digit)?;
    if next <= most { Some(next) } else { None }
}

/// How many bytes from `at` on begin a path.
fn path_length(alloc: Global, text: &str, at: usize) -> Result<usize, AllocError>
    requires { at < length text.now }
    ensures { IfOk result (IsLongest (IsSpelling (λ word. is_path word ≡ true)) (drop at text.now)) }
{
    let rest = &text.as_bytes()[at..];
    if is_root(&rest[..word_length(rest)]) {
        return rooted_length(alloc, text, at);
    }
    Ok(root_length(rest))
}

fn rooted_length(alloc: Global, text: &str, at: usize) -> Result<usize, AllocError>
    requires inside { at < length text.now }
    requires begins { begins_path (drop at text.now) ≡ true }
    ensures { IfOk result (IsLongest (IsSpelling (λ word. is_path word ≡ true)) (drop at text.now)) }
{
    let end = path_end(text, at);
    match FieldPath::read(alloc, &text[at..end]) {
        Ok(_) => Ok(end - at),
        Err(PathFault::NotAPath { at }) => Ok(at),
        Err(PathFault::Memory) => Err(AllocError),
    }
}
