// The inputs of cases: settings and logs.
use crate::words::Words;
use std::alloc::{AllocError, Global};

// Entries are lines, and have the attribute `k`, which is `kept`.
const LINES: &str =
    r#"{"include":["a"],"include_file_name":false,"attributes":{"k":"kept"},"operators":["#;

// Entries are written as JSON objects with their body, attributes and resource.
const ENTRIES: &str =
    r#"{"include":["a"],"include_file_name":false,"operators":[{"type":"json_parser","parse_to":"body"},{"type":"move","from":"body.attributes","to":"attributes"},{"type":"move","from":"body.resource","to":"resource"},{"type":"move","from":"body.body","to":"body"},"#;

// Entries are written as JSON objects, whose texts at `t` are joined, those of each source at `s` by themselves.
const JOINED: &str =
    r#"{"include":["a"],"include_file_name":false,"include_file_record_number":true,"max_log_size":4194304,"operators":[{"type":"json_parser","parse_to":"body"},{"type":"recombine","combine_field":"body.t","source_identifier":"body.s","#;

/// The settings of a call that is asked so: its own, or such that these operators, or these keys of a `recombine`, end them.
pub fn settings_of(alloc: Global, call: &str, asked: &[u8]) -> Result<Vec<u8>, AllocError> {
    let (front, behind) = match call {
        "operator" => (LINES, "]}"),
        "entry" => (ENTRIES, "]}"),
        "joined" => (JOINED, "}]}"),
        _ => ("", ""),
    };
    let mut settings = Vec::from_slice(alloc, front.as_bytes())?;
    settings.extend_from_slice(asked)?;
    settings.extend_from_slice(behind.as_bytes())?;
    Ok(settings)
}

/// The settings and what stands behind them: behind a line of two hyphens, or else behind the first line.
pub fn parted(input: &[u8]) -> (&[u8], &[u8]) {
    if let Some(parts) = cut_at(input, b"\n--\n") {
        return parts;
    }
    cut_at(input, b"\n").unwrap_or((input, b""))
}

/// What stands before the first such mark and what behind it.
pub fn cut_at<'b>(bytes: &'b [u8], mark: &[u8]) -> Option<(&'b [u8], &'b [u8])> {
    for at in 0..bytes.len() {
        let (front, rest) = bytes.split_at(at);
        if let Some(behind) = rest.strip_prefix(mark) {
            return Some((front, behind));
        }
    }
    None
}

/// The log, whose last line has its end where the words don't say otherwise. `<COUNT*BYTE>` stands for a byte so often.
pub fn log_of(alloc: Global, lines: &[u8], words: Words) -> Result<Vec<u8>, AllocError> {
    let mut log = Vec::new(alloc);
    let mut rest = lines;
    for _ in 0..lines.len() {
        if let Some((count, byte, behind)) = repeated(rest) {
            for _ in 0..count {
                log.push(byte)?;
            }
            rest = behind;
        } else if let Some((byte, behind)) = rest.split_first() {
            log.push(*byte)?;
            rest = behind;
        }
    }
    if words.ended && !lines.is_empty() {
        log.push(b'\n')?;
    }
    Ok(log)
}

// The byte that `<COUNT*BYTE>` repeats so often, and what stands behind it.
fn repeated(bytes: &[u8]) -> Option<(usize, u8, &[u8])> {
    let (digits, rest) = cut_at(bytes.strip_prefix(b"<")?, b"*")?;
    let count = std::str::from_utf8(digits).ok()?.parse::<usize>().ok()?;
    let (byte, rest) = rest.split_first()?;
    Some((count, *byte, rest.strip_prefix(b">")?))
}
