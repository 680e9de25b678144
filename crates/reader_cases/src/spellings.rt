// Spellings of entries, and what reads bytes.
use crate::checkpoints::{Base, change, checkpoint};
use crate::entries::{entry_of, entry_text};
use crate::texts::{from_hexadecimal, hexadecimal, number};
use crate::values::json;
use entry_model::Entry;
use state_codec::{LEVELS, get_entry, get_u32, put_entry};
use std::alloc::{AllocError, Global};

/// The bytes that digits spell, or those that were kept where there are none. With the words `byte 3 255` the byte at place 3
/// is 255.
pub fn bytes_of(
    alloc: Global,
    words: &str,
    input: &[u8],
    kept: &[u8],
) -> Result<Vec<u8>, AllocError> {
    let mut bytes = match input {
        [] => Vec::from_slice(alloc, kept)?,
        _ => from_hexadecimal(alloc, input)?,
    };
    if words.starts_with("byte ") {
        let place = usize::try_from(number(words, 1)).unwrap_or(usize::MAX);
        if let Some(byte) = bytes.get_mut(place) {
            *byte = u8::try_from(number(words, 2)).unwrap_or(0);
        }
    }
    Ok(bytes)
}

/// What is read out of bytes, or the fault.
pub fn told(alloc: Global, call: &str, words: &str, bytes: &[u8]) -> Result<String, AllocError> {
    match call {
        "json" => {
            let text = String::from_utf8_lossy(alloc, bytes)?;
            json(alloc, text.as_str())
        }
        "read_entry" => read_entry(alloc, words, bytes),
        "read_u32" => match get_u32(bytes, place_of(words)) {
            Ok((number, next)) => format!(in alloc; "{number} up to {next}"),
            Err(fault) => format!(in alloc; "{fault}"),
        },
        "read_checkpoint" => checkpoint(alloc, bytes),
        "read_change" => change(alloc, Base::First, bytes),
        "read_change_2" => change(alloc, Base::Second, bytes),
        "read_change_3" => change(alloc, Base::Third, bytes),
        _ => String::from_str(alloc, "no such call"),
    }
}

/// Each front of the bytes is refused at its end.
pub fn fronts(alloc: Global, call: &str, bytes: &[u8]) -> Result<String, AllocError> {
    for end in 0..bytes.len() {
        let came = told(alloc, call, "", &bytes[..end])?;
        if !is_refused_at(alloc, end, came.as_str())? {
            return format!(in alloc; "{end}: {came}");
        }
    }
    format!(in alloc; "{} are refused at their end", bytes.len())
}

fn is_refused_at(alloc: Global, place: usize, came: &str) -> Result<bool, AllocError> {
    let wanted = format!(in alloc; "at byte {place}")?;
    Ok(came.ends_with(wanted.as_str()))
}

// The place behind the word `at`.
fn place_of(words: &str) -> usize {
    match words.strip_prefix("at ") {
        Some(place) => usize::try_from(number(place, 0)).unwrap_or(0),
        None => 0,
    }
}

fn read_entry(alloc: Global, words: &str, bytes: &[u8]) -> Result<String, AllocError> {
    match get_entry(alloc, bytes, place_of(words)) {
        Ok((entry, next)) => up_to(alloc, words, &entry, next),
        Err(fault) => format!(in alloc; "{fault}"),
    }
}

fn up_to(alloc: Global, words: &str, entry: &Entry, next: usize) -> Result<String, AllocError> {
    if words == "end" {
        return format!(in alloc; "an entry up to {next}");
    }
    let mut text = entry_text(alloc, entry)?;
    write!(text, " up to {next}")?;
    Ok(text)
}

/// The spelling of an entry.
pub fn spell_entry(alloc: Global, text: &str) -> Result<String, AllocError> {
    let entry = entry_of(alloc, text)?;
    spelling_of(alloc, &entry)
}

fn spelling_of(alloc: Global, entry: &Entry) -> Result<String, AllocError> {
    if !entry.nests_within(LEVELS as u32) {
        return String::from_str(alloc, "nested too deep");
    }
    let mut bytes = Vec::new(alloc);
    put_entry(alloc, entry, &mut bytes)?;
    hexadecimal(alloc, &bytes)
}
