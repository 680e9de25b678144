// Tokens: lines, and entries of several lines. A log ends with a LF unless the first word is `unended`.
ghost use Rattle.std.specs.Prelude.{◌≤◌, length};

use crate::texts::{add_line, number, one_line};
use line_splitter::{entry_text, next, trim};
use multiline::{Cutter, Token};
use std::alloc::{AllocError, Global};

/// How many bytes cut a token, the words behind that number, and the bytes of the log.
fn log_of<'w>(
    alloc: Global,
    words: &'w str,
    input: &[u8],
) -> Result<(usize, &'w str, Vec<u8>), AllocError> {
    let mut log = Vec::from_slice(alloc, input)?;
    let words = match words.strip_prefix("unended ") {
        Some(words) => words,
        None => {
            log.push(b'\n')?;
            words
        }
    };
    let (max, rest) = words.split_once(' ').unwrap_or((words, ""));
    let max = usize::try_from(number(max, 0)).unwrap_or(0);
    Ok((max, rest, log))
}

/// The tokens of lines: how many bytes each uses, its text, and that of its entry.
pub fn tokens(alloc: Global, words: &str, input: &[u8]) -> Result<String, AllocError> {
    let (max, _, log) = log_of(alloc, words, input)?;
    let mut answers = String::new(alloc);
    let mut rest = log.as_slice();
    for _ in 0..log.len() {
        if max == 0 {
            break;
        }
        let Some(token) = next(max, rest) else {
            break;
        };
        let text = &rest[token.from..token.to];
        tell_line(alloc, token.after, text, &mut answers)?;
        rest = &rest[token.after..];
    }
    add_line(&mut answers, "and no more")?;
    Ok(answers)
}

fn tell_line(alloc: Global, after: usize, text: &[u8], out: &mut String) -> Result<(), AllocError> {
    tell_token(alloc, after, text, out)?;
    match entry_text(alloc, text, false, false)? {
        Some(entry) => {
            let entry = one_line(alloc, entry.as_bytes())?;
            write!(out, " entry {entry}")
        }
        None => out.push_str(" entry none"),
    }
}

// How many bytes a token uses, and its text.
fn tell_token(
    alloc: Global,
    after: usize,
    text: &[u8],
    out: &mut String,
) -> Result<(), AllocError> {
    add_line(out, "")?;
    let text = one_line(alloc, text)?;
    write!(out, "{after} [{text}]")
}

/// The part that stays where the words name the ends that keep their blanks.
pub fn trimmed(alloc: Global, words: &str, input: &[u8]) -> Result<String, AllocError> {
    let part = trim(input, words.contains("leading"), words.contains("trailing"));
    format!(in alloc; "{part:?}")
}

/// The tokens of several lines: how many bytes each uses, and its text.
pub fn entries(alloc: Global, call: &str, words: &str, input: &[u8]) -> Result<String, AllocError> {
    let (max, pattern, log) = log_of(alloc, words, input)?;
    let cutter = match call {
        "begun" => Cutter::start(alloc, pattern),
        _ => Cutter::end(alloc, pattern),
    };
    match cutter {
        Ok(cutter) if max > 0 => cut(alloc, &cutter, max, &log),
        Ok(_) => String::from_str(alloc, "no bound"),
        Err(fault) => format!(in alloc; "{fault}"),
    }
}

fn cut(alloc: Global, cutter: &Cutter, max: usize, log: &[u8]) -> Result<String, AllocError>
    requires { 1 ≤ max }
{
    let mut answers = String::new(alloc);
    let mut rest = log;
    for _ in 0..log.len() {
        let Some(token) = cutter.next(alloc, max, rest)? else {
            break;
        };
        tell_token(
            alloc,
            token.after,
            &rest[token.from..token.to],
            &mut answers,
        )?;
        tell_others(alloc, cutter, max, rest, token, &mut answers)?;
        rest = &rest[token.after..];
    }
    add_line(&mut answers, "and no more")?;
    Ok(answers)
}

// Where another token comes once some of the bytes come first.
fn tell_others(
    alloc: Global,
    cutter: &Cutter,
    max: usize,
    bytes: &[u8],
    token: Token,
    out: &mut String,
) -> Result<(), AllocError>
    requires { 1 ≤ max }
{
    for first in 0..bytes.len() {
        if next_in_two(alloc, cutter, max, bytes, first)? != Some(token) {
            add_line(out, "")?;
            write!(out, "another one behind {first} bytes")?;
        }
    }
    Ok(())
}

// The first token where some of the bytes come first and then the others.
fn next_in_two(
    alloc: Global,
    cutter: &Cutter,
    max: usize,
    bytes: &[u8],
    first: usize,
) -> Result<Option<Token>, AllocError>
    requires some { 1 ≤ max }
    requires within { first ≤ length bytes.now }
{
    let mut searched = 0;
    match cutter.next_behind(alloc, max, &bytes[..first], &mut searched)? {
        Some(token) => Ok(Some(token)),
        None => cutter.next_behind(alloc, max, bytes, &mut searched),
    }
}
