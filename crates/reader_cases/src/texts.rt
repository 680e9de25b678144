// Texts, numbers and bytes as cases have them.
use case_files::shown;
use std::alloc::{AllocError, Global};
use std::str;

/// The bytes with `«3:ab»` written out as `ababab`.
pub fn expanded(alloc: Global, input: &[u8]) -> Result<Vec<u8>, AllocError> {
    let Ok(text) = str::from_utf8(input) else {
        return Vec::from_slice(alloc, input);
    };
    let mut all = String::new(alloc);
    let mut rest = text;
    for _ in 0..text.len() {
        let Some((front, behind)) = rest.split_once('«') else {
            break;
        };
        all.push_str(front)?;
        let (repeated, behind) = behind.split_once('»').unwrap_or((behind, ""));
        push_repeated(repeated, &mut all)?;
        rest = behind;
    }
    all.push_str(rest)?;
    Vec::from_slice(alloc, all.as_bytes())
}

fn push_repeated(repeated: &str, all: &mut String) -> Result<(), AllocError> {
    let (count, part) = repeated.split_once(':').unwrap_or(("1", repeated));
    for _ in 0..count.parse::<u32>().unwrap_or(0) {
        all.push_str(part)?;
    }
    Ok(())
}

/// What a person reads for these bytes, in one line.
pub fn one_line(alloc: Global, bytes: &[u8]) -> Result<String, AllocError> {
    let text = shown(alloc, bytes)?;
    let mut line = String::new(alloc);
    for letter in text.as_str().chars() {
        if letter == '\n' {
            line.push_str("\\x0a")?;
        } else {
            line.push(letter)?;
        }
    }
    Ok(line)
}

/// Puts a line behind the others.
pub fn add_line(lines: &mut String, line: &str) -> Result<(), AllocError> {
    if !lines.is_empty() {
        lines.push('\n')?;
    }
    lines.push_str(line)
}

/// The word at a place as a number, or 0.
pub fn number(words: &str, place: usize) -> u64 {
    match words.split(' ').nth(place) {
        Some(word) => word.parse::<u64>().unwrap_or(0),
        None => 0,
    }
}

/// The bytes that hexadecimal digits spell, with anything else between them.
pub fn from_hexadecimal(alloc: Global, text: &[u8]) -> Result<Vec<u8>, AllocError> {
    let mut bytes = Vec::new(alloc);
    let mut high = None;
    for letter in text {
        let Some(digit) = char::from(*letter).to_digit(16) else {
            continue;
        };
        high = match high {
            None => Some(digit),
            Some(first) => {
                bytes.push(u8::try_from(first << 4 | digit).unwrap_or(0))?;
                None
            }
        };
    }
    Ok(bytes)
}

/// Two digits a byte.
pub fn hexadecimal(alloc: Global, bytes: &[u8]) -> Result<String, AllocError> {
    let mut text = String::new(alloc);
    for byte in bytes {
        write!(text, "{byte:02x}")?;
    }
    Ok(text)
}
