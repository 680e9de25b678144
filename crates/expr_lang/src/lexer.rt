// Tokens out of the bytes of a text.
ghost use Rattle.std.specs.Prelude.{◌≡◌, ◌≤◌, ◌<◌, ◌^◌, ◌-◌, ◌+◌, true, false, length, drop, option_map, IfOk, IfSome, slice_index, MatchOption, Some, None, pos, nat_le, if◌then◌else◌};
ghost use Rattle.std.specs.List.{take_while};
ghost use Rattle.std.specs.Str.{IsUtf8, IsCharBoundary};
ghost use Rattle.expr_lang.specs.TokenOf.{IsTokenOf};
ghost use Rattle.expr_lang.specs.Row.{past_blanks, path_length as length_of_path, spot_after};
ghost use Rattle.expr_lang.specs.Words.{is_blank as is_blank_byte, is_word_byte as is_word, is_quote as is_quote_byte, word, keyword as keyword_of, operand_word as operand_word_of, operator_word as operator_word_of, symbol as symbol_of, escaped as escaped_as, is_digit as is_digit_byte, is_root as is_root_name, plain_token, int_token, int_of, number as number_of, text_token, begins_path, quoted as quoted_text};

use crate::token::{Comparison, Token};
use entry_model::Text;
use field_paths::{FieldPath, PathFault};
use std::alloc::{AllocError, Global};

/// The first place from `at` on where no blank stands.
#[tactic(auto, using(std::proofs::lemmas::List::take_rest))]
pub fn skip_blanks(bytes: &[u8], at: usize) -> usize
    requires { at ≤ length bytes.now }
    ensures { result ≡ past_blanks bytes.now at }
{
    at + blank_count(&bytes[at..])
}

fn blank_count(bytes: &[u8]) -> usize
    ensures { result ≡ length (take_while is_blank_byte bytes.now) }
{
    bytes.iter().take_while(|byte| is_blank(**byte)).count()
}

fn is_blank(byte: u8) -> bool
    ensures { result ≡ is_blank_byte byte }
{
    byte == b' ' || byte == b'\t' || byte == b'\n' || byte == b'\r'
}

#[tactic(auto, unfolding(crate::specs::Words::is_word_byte))]
pub fn is_word_byte(byte: u8) -> bool
    ensures { result ≡ is_word byte }
{
    byte.is_ascii_alphanumeric() || byte == b'_'
}

#[tactic(auto, unfolding(crate::specs::Words::is_quote))]
pub fn is_quote(byte: u8) -> bool
    ensures { result ≡ is_quote_byte byte }
{
    byte == b'"' || byte == b'\''
}

/// The word that stands at `at`, and its bytes. `None` where none does.
pub fn token_at(alloc: Global, text: &str, at: usize) -> Result<Option<(Token, usize)>, AllocError>
    requires { at < length text.now }
    ensures value { IfOk result (IsTokenOf (drop at text.now)) }
    ensures some { IfOk result (λ found. IfSome found (λ one. 0 < one.1)) }
    ensures within { IfOk result (λ found. IfSome found (λ one. at + one.1 ≤ length text.now)) }
{
    let found = found_at(alloc, text, at)?;
    Ok(found)
}

fn found_at(alloc: Global, text: &str, at: usize) -> Result<Option<(Token, usize)>, AllocError>
    requires { at < length text.now }
    ensures { IfOk result (IsTokenOf (drop at text.now)) }
{
    let rest = &text.as_bytes()[at..];
    if is_root(&rest[..word_length(rest)]) {
        return path(alloc, text, at);
    }
    plain(alloc, text, at)
}

pub fn is_root(word: &[u8]) -> bool
    ensures { result ≡ is_root_name word.now }
{
    word == b"body".as_slice() || word == b"attributes".as_slice() || word == b"resource".as_slice()
}

/// The word at the front, where it is no path.
fn plain(alloc: Global, text: &str, at: usize) -> Result<Option<(Token, usize)>, AllocError>
    requires { at < length text.now }
    ensures { IfOk result (λ found. found ≡ plain_token (drop at text.now)) }
{
    let bytes = &text.as_bytes()[at..];
    let first = bytes[0];
    if is_quote(first) {
        return quoted(alloc, text, at);
    }
    if first == b'-' || is_digit(first) {
        return Ok(int(bytes));
    }
    if is_word_byte(first) {
        return Ok(word_token(bytes));
    }
    let second = if bytes.len() > 1 { bytes[1] } else { 0 };
    Ok(symbol(first, second))
}

/// How many word bytes the bytes begin with.
pub fn word_length(bytes: &[u8]) -> usize
    ensures { result ≡ length (word bytes.now) }
{
    bytes.iter().take_while(|byte| is_word_byte(**byte)).count()
}

fn word_token(bytes: &[u8]) -> Option<(Token, usize)>
    ensures { result ≡ option_map (λ found. (found, length (word bytes.now))) (keyword_of (word bytes.now)) }
{
    let length = word_length(bytes);
    let token = keyword(&bytes[..length])?;
    Some((token, length))
}

fn keyword(word: &[u8]) -> Option<Token>
    ensures { result ≡ keyword_of word.now }
{
    match operand_word(word) {
        Some(token) => Some(token),
        None => operator_word(word),
    }
}

#[tactic(auto, unfolding(crate::specs::Words::operand_word))]
fn operand_word(word: &[u8]) -> Option<Token>
    ensures { result ≡ operand_word_of word.now }
{
    if word == b"true".as_slice() {
        Some(Token::Bool(true))
    } else if word == b"false".as_slice() {
        Some(Token::Bool(false))
    } else if word == b"nil".as_slice() {
        Some(Token::Null)
    } else if word == b"severity_number".as_slice() {
        Some(Token::SeverityNumber)
    } else if word == b"severity_text".as_slice() {
        Some(Token::SeverityText)
    } else if word == b"not".as_slice() {
        Some(Token::Not)
    } else {
        None
    }
}

#[tactic(auto, unfolding(crate::specs::Words::operator_word))]
fn operator_word(word: &[u8]) -> Option<Token>
    ensures { result ≡ operator_word_of word.now }
{
    if word == b"and".as_slice() {
        Some(Token::And)
    } else if word == b"or".as_slice() {
        Some(Token::Or)
    } else if word == b"contains".as_slice() {
        Some(Token::Compares(Comparison::Contains))
    } else if word == b"startsWith".as_slice() {
        Some(Token::Compares(Comparison::StartsWith))
    } else if word == b"endsWith".as_slice() {
        Some(Token::Compares(Comparison::EndsWith))
    } else if word == b"in".as_slice() {
        Some(Token::Compares(Comparison::In))
    } else if word == b"matches".as_slice() {
        Some(Token::Matches)
    } else {
        None
    }
}

#[tactic(auto, unfolding(crate::specs::Words::symbol))]
fn symbol(first: u8, second: u8) -> Option<(Token, usize)>
    ensures { result ≡ symbol_of first second }
{
    match (first, second) {
        (b'(', _) => Some((Token::OpenGroup, 1)),
        (b')', _) => Some((Token::CloseGroup, 1)),
        (b'[', _) => Some((Token::OpenList, 1)),
        (b']', _) => Some((Token::CloseList, 1)),
        (b',', _) => Some((Token::Comma, 1)),
        (b'=', b'=') => Some((Token::Compares(Comparison::Equal), 2)),
        (b'!', b'=') => Some((Token::Compares(Comparison::NotEqual), 2)),
        (b'!', _) => Some((Token::Not, 1)),
        (b'<', b'=') => Some((Token::Compares(Comparison::LessOrEqual), 2)),
        (b'<', _) => Some((Token::Compares(Comparison::Less), 1)),
        (b'>', b'=') => Some((Token::Compares(Comparison::GreaterOrEqual), 2)),
        (b'>', _) => Some((Token::Compares(Comparison::Greater), 1)),
        (b'&', b'&') => Some((Token::And, 2)),
        (b'|', b'|') => Some((Token::Or, 2)),
        _ => None,
    }
}

pub fn is_digit(byte: u8) -> bool
    ensures { result ≡ is_digit_byte byte }
{
    byte.is_ascii_digit()
}

pub fn digit_count(bytes: &[u8]) -> usize
    ensures { result ≡ length (take_while is_digit_byte bytes.now) }
{
    bytes.iter().take_while(|byte| is_digit(**byte)).count()
}

/// An int: `-` or nothing, then digits.
fn int(bytes: &[u8]) -> Option<(Token, usize)>
    requires { 0 < length bytes.now }
    ensures { result ≡ int_token bytes.now }
{
    let start = if bytes[0] == b'-' { 1 } else { 0 };
    let digits = &bytes[start..];
    let count = digit_count(digits);
    let value = int_value(start == 1, &digits[..count])?;
    Some((Token::Int(value), start + count))
}

#[tactic(auto, unfolding(crate::specs::Words::int_of))]
fn int_value(negative: bool, digits: &[u8]) -> Option<i64>
    ensures { result ≡ int_of negative digits.now }
{
    if digits.is_empty() {
        return None;
    }
    let value = number(digits)?;
    if !negative {
        return signed(value);
    }
    if value == 1 << 63 {
        return Some(i64::MIN);
    }
    Some(-signed(value)?)
}

fn signed(value: u64) -> Option<i64>
    ensures { result ≡ (if nat_le value (2 ^ 63 - 1) then Some (pos value) else None) }
{
    if value <= 0x7fff_ffff_ffff_ffff {
        return Some(value as i64);
    }
    None
}

/// The number that the digits write, or `None` where it is 2^64 or more.
#[tactic(auto, using(crate::proofs::Loops::number_step, crate::proofs::Loops::number_grows))]
fn number(digits: &[u8]) -> Option<u64>
    ensures { MatchOption result (2 ^ 64 ≤ number_of 0 digits.now) (λ value. value ≡ number_of 0 digits.now) }
{
    let mut value: u64 = 0;
    for byte in digits {
        let digit = u64::from(byte.saturating_sub(b'0'));
        value = value.checked_mul(10)?.checked_add(digit)?;
    }
    Some(value)
}

#[tactic(auto, unfolding(crate::specs::Words::escaped, crate::specs::Words::is_quote))]
pub fn escaped(byte: u8) -> Option<u8>
    ensures { result ≡ escaped_as byte }
{
    match byte {
        b'n' => Some(b'\n'),
        b't' => Some(b'\t'),
        b'r' => Some(b'\r'),
        b'\\' | b'"' | b'\'' => Some(byte),
        _ => None,
    }
}

/// A text between quotes.
fn quoted(alloc: Global, text: &str, at: usize) -> Result<Option<(Token, usize)>, AllocError>
    requires inside { at < length text.now }
    requires quote { is_quote_byte (slice_index text.now at) ≡ true }
    ensures { IfOk result (λ found. found ≡ text_token (drop at text.now)) }
{
    let bytes = text.as_bytes();
    match content_of(alloc, bytes[at], &bytes[at + 1..])? {
        Some((content, length)) => Ok(Some((Token::Text(text_of(content)?), 1 + length))),
        None => Ok(None),
    }
}

/// The text up to the quote that closes it, and its bytes with that quote.
fn content_of(
    alloc: Global,
    quote: u8,
    inner: &[u8],
) -> Result<Option<(Vec<u8>, usize)>, AllocError>
    ensures value { IfOk result (λ found. quoted_text quote false inner.now ≡ option_map (λ one. (one.0.items, one.1)) found) }
    ensures within { IfOk result (λ found. IfSome found (λ one. one.1 ≤ length inner.now)) }
{
    let mut content: Vec<u8> = Vec::new(alloc);
    let mut behind = false;
    for (index, byte) in inner.iter().enumerate() {
        if behind {
            let Some(byte) = escaped(*byte) else {
                return Ok(None);
            };
            content.push(byte)?;
            behind = false;
        } else if *byte == b'\\' {
            behind = true;
        } else if *byte == quote {
            return Ok(Some((content, index + 1)));
        } else {
            content.push(*byte)?;
        }
    }
    Ok(None)
}

fn text_of(content: Vec<u8>) -> Result<Text, AllocError>
    requires { IsUtf8 content.items }
    ensures { IfOk result (λ text. text ≡ content.items) }
{
    let Ok(content) = String::from_utf8(content) else {
        unreachable!()
    };
    Text::new(content)
}

fn path(alloc: Global, text: &str, at: usize) -> Result<Option<(Token, usize)>, AllocError>
    requires inside { at < length text.now }
    requires begins { begins_path (drop at text.now) ≡ true }
    ensures { IfOk result (IsTokenOf (drop at text.now)) }
{
    let end = path_end(text, at);
    match FieldPath::read(alloc, &text[at..end]) {
        Ok(path) => Ok(Some((Token::Path(path), end - at))),
        Err(PathFault::NotAPath { .. }) => Ok(None),
        Err(PathFault::Memory) => Err(AllocError),
    }
}

/// Where the path that begins at `at` can't go on.
pub fn path_end(text: &str, at: usize) -> usize
    requires inside { at < length text.now }
    requires begins { begins_path (drop at text.now) ≡ true }
    ensures end { result ≡ at + length_of_path Spot.Name (drop at text.now) }
    ensures start_boundary { IsCharBoundary text.now at }
    ensures end_boundary { IsCharBoundary text.now result }
{
    at + path_length(&text.as_bytes()[at..])
}

/// Where in a path a byte stands.
#[derive(Clone, Copy)]
pub enum Spot {
    Name,
    Bracket,
    Quoted(u8),
    Escaped(u8),
    Closing,
    Closed,
}

impl Spot {
    /// The spot behind one more byte, or `None` where the path has ended.
    #[tactic(auto, unfolding(crate::specs::Row::spot_after))]
    fn after(self, byte: u8) -> Option<Spot>
        ensures { result ≡ spot_after self byte }
    {
        match self {
            Spot::Name if is_word_byte(byte) => Some(Spot::Name),
            Spot::Name | Spot::Closed => match byte {
                b'.' => Some(Spot::Name),
                b'[' => Some(Spot::Bracket),
                _ => None,
            },
            Spot::Bracket if is_quote(byte) => Some(Spot::Quoted(byte)),
            Spot::Bracket => None,
            Spot::Quoted(quote) if byte == quote => Some(Spot::Closing),
            Spot::Quoted(quote) if byte == b'\\' => Some(Spot::Escaped(quote)),
            Spot::Quoted(quote) => Some(Spot::Quoted(quote)),
            Spot::Escaped(quote) => Some(Spot::Quoted(quote)),
            Spot::Closing if byte == b']' => Some(Spot::Closed),
            Spot::Closing => None,
        }
    }
}

/// How many bytes at the front may be those of a path.
#[tactic(auto, using(crate::proofs::Loops::path_step))]
fn path_length(bytes: &[u8]) -> usize
    ensures { result ≡ length_of_path Spot.Name bytes.now }
{
    let mut spot = Spot::Name;
    for (length, byte) in bytes.iter().enumerate() {
        match spot.after(*byte) {
            Some(next) => spot = next,
            None => return length,
        }
    }
    bytes.len()
}
