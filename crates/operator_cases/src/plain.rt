// Lines of the output as a person reads them.
use case_files::shown;
use std::alloc::{AllocError, Global};

/// The records of the lines, each in a line.
pub fn records(alloc: Global, out: &[u8]) -> Result<String, AllocError> {
    let mut found = String::new(alloc);
    for line in std::str::from_utf8(out).unwrap_or("").lines() {
        if !found.is_empty() {
            found.push('\n')?;
        }
        found.push_str(record(alloc, line)?.as_str())?;
    }
    Ok(found)
}

// The record of a line; the line as it stands where it has no record.
fn record(alloc: Global, line: &str) -> Result<String, AllocError> {
    let Some((resource, rest)) = line
        .strip_prefix(r#"{"resourceLogs":[{"resource":{"attributes":["#)
        .and_then(|rest| rest.split_once(r#"]},"scopeLogs":[{"logRecords":[{"#))
    else {
        return String::from_str(alloc, line);
    };
    let Some((record, _scope)) = rest.split_once(r#"}],"scope":{"#) else {
        return String::from_str(alloc, line);
    };
    let mut whole = String::new(alloc);
    if resource.is_empty() {
        write!(whole, "{{{record}}}")?;
    } else {
        write!(whole, r#"{{"resource":[{resource}],{record}}}"#)?;
    }
    simple(alloc, whole.as_str())
}

fn simple(alloc: Global, otlp: &str) -> Result<String, AllocError> {
    let plain = plain(alloc, otlp)?;
    let shown = shown(alloc, plain.as_bytes())?;
    gathered(alloc, shown.as_str())
}

// The text with `<COUNT*LETTER>` for a letter that stands more than 200 times in a row.
fn gathered(alloc: Global, text: &str) -> Result<String, AllocError> {
    let mut out = String::new(alloc);
    let mut last = '\0';
    let mut count = 0u64;
    for letter in text.chars() {
        if letter != last {
            push_often(&mut out, last, count)?;
            last = letter;
            count = 0;
        }
        count = count.saturating_add(1);
    }
    push_often(&mut out, last, count)?;
    Ok(out)
}

fn push_often(out: &mut String, letter: char, count: u64) -> Result<(), AllocError> {
    if count > 200 {
        write!(out, "<{count}*{letter}>")?;
        return Ok(());
    }
    for _ in 0..count {
        out.push(letter)?;
    }
    Ok(())
}

// What opens in OTLP, what stands for it, and what for its end.
const OPENED: [(&str, &str, &str); 8] = [
    (r#"{"stringValue":"#, "", ""),
    (r#"{"boolValue":"#, "", ""),
    (r#"{"key":"#, "", ""),
    (r#"{"arrayValue":{"values":["#, "[", "]"),
    (r#"{"kvlistValue":{"values":["#, "{", "}"),
    (r#""attributes":["#, r#""attributes":{"#, "}"),
    (r#""resource":["#, r#""resource":{"#, "}"),
    ("{", "{", "}"),
];

// What ends what opened.
const ENDS: [&str; 3] = ["]}}", "]", "}"];

// The text with plain values in the place of those of OTLP.
fn plain(alloc: Global, otlp: &str) -> Result<String, AllocError> {
    let mut out = String::new(alloc);
    let mut ends = Vec::new(alloc);
    let mut rest = otlp;
    for _ in 0..otlp.len() {
        let Some(behind) = step(rest, &mut ends, &mut out)? else {
            break;
        };
        rest = behind;
    }
    Ok(out)
}

// What stands behind the first piece of a text, of which what stands for it is put behind `out`.
fn step<'t>(
    text: &'t str,
    ends: &mut Vec<&'static str>,
    out: &mut String,
) -> Result<Option<&'t str>, AllocError> {
    if let Some(rest) = text.strip_prefix("{}") {
        out.push_str("null")?;
        return Ok(Some(rest));
    }
    if let Some((digits, rest)) = text
        .strip_prefix(r#"{"intValue":""#)
        .and_then(|rest| rest.split_once(r#""}"#))
    {
        out.push_str(digits)?;
        return Ok(Some(rest));
    }
    if let Some(rest) = text.strip_prefix(r#","value":"#) {
        out.push(':')?;
        return Ok(Some(rest));
    }
    for (opened, plain, end) in OPENED {
        if let Some(rest) = text.strip_prefix(opened) {
            out.push_str(plain)?;
            ends.push(end)?;
            return Ok(Some(rest));
        }
    }
    for end in ENDS {
        if let Some(rest) = text.strip_prefix(end) {
            out.push_str(ends.pop().unwrap_or(end))?;
            return Ok(Some(rest));
        }
    }
    if let Some(rest) = text.strip_prefix('"') {
        return Ok(Some(string(rest, out)?));
    }
    let mut letters = text.chars();
    let Some(letter) = letters.next() else {
        return Ok(None);
    };
    out.push(letter)?;
    Ok(Some(letters.as_str()))
}

// Puts a string, which has begun, behind `out`. What stands behind its end.
fn string<'t>(text: &'t str, out: &mut String) -> Result<&'t str, AllocError> {
    out.push('"')?;
    let mut rest = text;
    for _ in 0..text.len() {
        let Some((part, behind)) = rest.split_once('"') else {
            break;
        };
        out.push_str(part)?;
        out.push('"')?;
        rest = behind;
        let escapes = part.len() - part.trim_end_matches('\\').len();
        if escapes % 2 == 0 {
            break;
        }
    }
    Ok(rest)
}
