// Members out of texts.
use crate::shown::write_members;
use entry_model::{Fields, Text, Value};
use std::alloc::{AllocError, Global};
use text_parsers::{CsvOp, JsonOp, KeyValueOp, ParseFault, RegexOp};

/// A parser and its words, with a text as the input: the members, or the fault.
///
/// The parsers are `json`, `pairs ["DELIMITER"]` or `pairs ["DELIMITER","PAIR DELIMITER"]`, `csv ["HEADER","DELIMITER"]` and
/// `regex PATTERN`.
pub fn of_text(alloc: Global, call: &str, words: &str, text: &str) -> Result<String, AllocError> {
    let value = Value::Text(Text::from_str(alloc, text)?);
    parsed(alloc, call, words, &value)
}

/// `value PARSER WORDS`, with a value in JSON as the input.
pub fn of_value(alloc: Global, words: &str, text: &str) -> Result<String, AllocError> {
    let (call, words) = words.split_once(' ').unwrap_or((words, ""));
    match json_text::read(alloc, text) {
        Ok(value) => parsed(alloc, call, words, &value),
        Err(_) => String::from_str(alloc, "no value"),
    }
}

fn parsed(alloc: Global, call: &str, words: &str, value: &Value) -> Result<String, AllocError> {
    match call {
        "json" => told(alloc, JsonOp::new().apply(alloc, value)),
        "pairs" => pairs(alloc, words, value),
        "csv" => csv(alloc, words, value),
        "regex" => regex(alloc, words, value),
        _ => String::from_str(alloc, "no such parser"),
    }
}

fn pairs(alloc: Global, words: &str, value: &Value) -> Result<String, AllocError> {
    let (first, second) = two_texts(alloc, words)?;
    let delimiter = first.as_str();
    if delimiter.is_empty() {
        return String::from_str(alloc, "no delimiter");
    }
    let between = second.as_str();
    let pair_delimiter = if between.is_empty() {
        None
    } else {
        Some(between)
    };
    let op = KeyValueOp::new(alloc, delimiter, pair_delimiter)?;
    told(alloc, op.apply(alloc, value))
}

fn csv(alloc: Global, words: &str, value: &Value) -> Result<String, AllocError> {
    let (header, delimiter) = two_texts(alloc, words)?;
    match delimiter.as_str().as_bytes() {
        [byte] if *byte < 128 => {
            let op = CsvOp::new(alloc, header.as_str(), *byte)?;
            told(alloc, op.apply(alloc, value))
        }
        _ => String::from_str(alloc, "no delimiter"),
    }
}

/// Two searches by one parser have one answer.
fn regex(alloc: Global, pattern: &str, value: &Value) -> Result<String, AllocError> {
    match RegexOp::new(alloc, pattern) {
        Ok(op) => searched_twice(alloc, &op, value),
        Err(fault) => format!(in alloc; "{fault:?}"),
    }
}

fn searched_twice(alloc: Global, op: &RegexOp, value: &Value) -> Result<String, AllocError> {
    let mut first = told(alloc, op.apply(alloc, value))?;
    let second = told(alloc, op.apply(alloc, value))?;
    if first != second {
        write!(first, "\nand then {second}")?;
    }
    Ok(first)
}

/// The first two texts of a list in JSON. One that isn't there is empty.
fn two_texts(alloc: Global, words: &str) -> Result<(Text, Text), AllocError> {
    let Ok(Value::List(values)) = json_text::read(alloc, words) else {
        return Ok((Text::empty(), Text::empty()));
    };
    Ok((text_of(values.first())?, text_of(values.get(1))?))
}

fn text_of(value: Option<&Value>) -> Result<Text, AllocError> {
    match value {
        Some(Value::Text(text)) => text.share(),
        _ => Ok(Text::empty()),
    }
}

fn told(alloc: Global, outcome: Result<Fields, ParseFault>) -> Result<String, AllocError> {
    let members = match outcome {
        Ok(members) => members,
        Err(fault) => return format!(in alloc; "{fault:?}"),
    };
    let mut out = String::new(alloc);
    write_members(&members, &mut out)?;
    Ok(out)
}
