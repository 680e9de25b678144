// The lines of all files.
ghost use Rattle.std.specs.Prelude.{◌≡◌, ◌<◌, ◌^◌, ◌++◌, ℕ, List, Some, MatchOption, map, decimal, IfOk, OnOk};
ghost use Rattle.kept_lines.specs.Split.{AddsLine, AreEmpty, AreTexts, IsWhose, before_id};
ghost use Rattle.otlp_json.specs.OutputLine.{line_tail};

use crate::lines::{first_length, is_of};
use crate::numbers::parsed;
use memchr::memrchr;
use std::alloc::{AllocError, Global};

/// What stands up to the end of the id of a line, behind which only its number comes. Of a line that ends otherwise it may be any
/// or none.
fn front_of(line: &[u8]) -> Option<&[u8]>
    ensures { (front : List ℕ) (id number : ℕ) → line.now ≡ front ++ line_tail id number
        → MatchOption result ⊥ (λ found. found.now ≡ (front ++ before_id) ++ decimal id) }
{
    let Some(end) = line.strip_suffix(b"\"}}],\"name\":\"stanza_agent\"}}]}]}\n".as_slice()) else {
        return None;
    };
    let Some(quote) = memrchr(b'"', end) else {
        return None;
    };
    end[..quote + 1].strip_suffix(
        b"\"}},{\"key\":\"agent.line\",\"value\":{\"intValue\":\"".as_slice(),
    )
}

/// The number behind the last quote of a text.
fn number_behind(text: &[u8]) -> Option<u64>
    ensures { (front : List ℕ) (number : ℕ) → number < 2 ^ 64 → text.now ≡ (front ++ before_id) ++ decimal number → result ≡ Some number }
{
    let Some(quote) = memrchr(b'"', text) else {
        return None;
    };
    parsed(&text[quote + 1..])
}

/// The id at the end of a line. Of a line that ends otherwise it may be any or none.
fn told_file(line: &[u8]) -> Option<u32>
    ensures { (front : List ℕ) (id number : ℕ) → id < 2 ^ 32 → line.now ≡ front ++ line_tail id number → result ≡ Some id }
{
    let Some(front) = front_of(line) else {
        return None;
    };
    let Some(id) = number_behind(front) else {
        return None;
    };
    match u32::try_from(id) {
        Ok(id) => Some(id),
        Err(_) => None,
    }
}

/// The id of the file whose line this is.
fn file_of(alloc: Global, line: &[u8]) -> Result<Option<u32>, AllocError>
    ensures { IfOk result (IsWhose line.now) }
{
    let Some(id) = told_file(line) else {
        return Ok(None);
    };
    if is_of(alloc, id, line)? {
        Ok(Some(id))
    } else {
        Ok(None)
    }
}

/// So many texts without a byte.
fn empty_texts(alloc: Global, count: usize) -> Result<Vec<Vec<u8>>, AllocError>
    ensures { IfOk result (λ texts. AreEmpty count (map (λ text. text.items) texts.items)) }
{
    let mut texts = Vec::new(alloc);
    for _ in 0..count {
        texts.push(Vec::new(alloc))?;
    }
    Ok(texts)
}

/// Puts the line behind the text of its file, where it is one of these.
fn add_line(texts: &mut [Vec<u8>], whose: Option<u32>, line: &[u8]) -> Result<(), AllocError>
    ensures { OnOk result (AddsLine whose line.now (map (λ text. text.items) texts.old) (map (λ text. text.items) texts.new)) }
{
    let Some(id) = whose else {
        return Ok(());
    };
    if id == 0 || id as usize > texts.len() {
        return Ok(());
    }
    let text = &mut texts[id as usize - 1];
    text.extend_from_slice(line)?;
    Ok(())
}

/// The whole lines of each of the files with the ids 1, 2, .. up to `count`, one behind the other in the order in which they
/// stand in the output. Each byte of the output is looked at a bounded number of times, however many files there are.
pub fn split(alloc: Global, output: &[u8], count: usize) -> Result<Vec<Vec<u8>>, AllocError>
    ensures { IfOk result (λ texts. AreTexts output.now count (map (λ text. text.items) texts.items)) }
{
    let mut texts = empty_texts(alloc, count)?;
    let mut rest = output;
    'cutting: while let Some(length) = first_length(rest) {
        let line = &rest[..length];
        let whose = file_of(alloc, line)?;
        add_line(&mut texts, whose, line)?;
        rest = &rest[length..];
    }
    Ok(texts)
}
