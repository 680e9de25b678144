// Entries as JSON text: `body`, `attributes`, `resource`, `severity_number`, `severity_text` and `timestamp`.
use crate::texts::one_line;
use crate::values::value_text;
use entry_model::{Entry, Fields, Severity, Text, Value};
use std::alloc::{AllocError, Global};

// What a text says of an entry.
#[derive(Drop)]
struct Parts {
    body: Value,
    attributes: Fields,
    resource: Fields,
    severity: Severity,
    severity_text: Text,
    timestamp: Option<u64>,
}

/// The entry that a text spells: without body, attributes and resource where it names none.
pub fn entry_of(alloc: Global, text: &str) -> Result<Entry, AllocError> {
    let parts = parts_of(alloc, text);
    Ok(Entry {
        body: parts.body,
        attributes: Value::Map(parts.attributes),
        resource: Value::Map(parts.resource),
        timestamp: parts.timestamp,
        severity: parts.severity,
        severity_text: parts.severity_text,
    })
}

fn parts_of(alloc: Global, text: &str) -> Parts {
    let mut parts = Parts {
        body: Value::Null,
        attributes: Fields::new(alloc),
        resource: Fields::new(alloc),
        severity: Severity { number: 0 },
        severity_text: Text::empty(),
        timestamp: None,
    };
    if let Ok(Value::Map(members)) = json_text::read(alloc, text) {
        for (name, value) in members.into_members() {
            put_member(&mut parts, name.as_str(), value);
        }
    }
    parts
}

fn put_member(parts: &mut Parts, name: &str, value: Value) {
    match name {
        "body" => parts.body = value,
        "attributes" => put_fields(&mut parts.attributes, value),
        "resource" => put_fields(&mut parts.resource, value),
        "severity_number" => parts.severity = severity_of(&value, parts.severity),
        "severity_text" => put_text(&mut parts.severity_text, value),
        "timestamp" => parts.timestamp = time_of(&value),
        _ => {}
    }
}

fn put_fields(fields: &mut Fields, value: Value) {
    if let Value::Map(given) = value {
        *fields = given;
    }
}

fn put_text(text: &mut Text, value: Value) {
    if let Value::Text(given) = value {
        *text = given;
    }
}

fn severity_of(value: &Value, before: Severity) -> Severity {
    match value {
        Value::Int(number) if 0 <= *number && *number <= 24 => Severity {
            number: *number as u8,
        },
        _ => before,
    }
}

fn time_of(value: &Value) -> Option<u64> {
    match value {
        Value::Int(time) => u64::try_from(*time).ok(),
        _ => None,
    }
}

/// All that an entry has, also what is empty.
pub fn entry_text(alloc: Global, entry: &Entry) -> Result<String, AllocError> {
    let mut text = String::new(alloc);
    write_part(alloc, "{\"body\":", &entry.body, &mut text)?;
    write_part(alloc, ",\"attributes\":", &entry.attributes, &mut text)?;
    write_part(alloc, ",\"resource\":", &entry.resource, &mut text)?;
    write_stamps(alloc, entry, &mut text)?;
    text.push('}')?;
    Ok(text)
}

fn write_part(
    alloc: Global,
    before: &str,
    value: &Value,
    out: &mut String,
) -> Result<(), AllocError> {
    out.push_str(before)?;
    let text = value_text(alloc, value)?;
    out.push_str(text.as_str())
}

// The severity and the time, where the entry has them.
fn write_stamps(alloc: Global, entry: &Entry, out: &mut String) -> Result<(), AllocError> {
    if entry.severity.number > 0 {
        write!(out, ",\"severity_number\":{}", entry.severity.number)?;
    }
    if !entry.severity_text.is_empty() {
        let name = one_line(alloc, entry.severity_text.as_str().as_bytes())?;
        write!(out, ",\"severity_text\":\"{name}\"")?;
    }
    match entry.timestamp {
        Some(time) => write!(out, ",\"timestamp\":{time}"),
        None => Ok(()),
    }
}

/// A copy of an entry, once the entry itself is gone.
pub fn copy(alloc: Global, text: &str) -> Result<String, AllocError> {
    let copy = entry_of(alloc, text)?.copy(alloc)?;
    entry_text(alloc, &copy)
}

/// Whether the entries of two lines are equal.
pub fn equal(alloc: Global, text: &str) -> Result<String, AllocError> {
    let (one, other) = text.split_once('\n').unwrap_or((text, ""));
    let one = entry_of(alloc, one)?;
    equals(alloc, &one, other)
}

fn equals(alloc: Global, one: &Entry, other: &str) -> Result<String, AllocError> {
    let other = entry_of(alloc, other)?;
    format!(in alloc; "{}", *one == other)
}

/// A text that is shared twice, once the first is gone.
pub fn share(alloc: Global, content: &str) -> Result<String, AllocError> {
    let first = Text::from_str(alloc, content)?;
    let second = first.share()?;
    drop(first);
    let third = second.share()?;
    let (same, empty, length) = (second == third, third.is_empty(), third.len());
    format!(in alloc; "{third:?} same {same} empty {empty} length {length}")
}

/// Which levels up to 7 are room for a value, and for an entry that has it as its body.
pub fn levels(alloc: Global, text: &str) -> Result<String, AllocError> {
    let mut entry = Entry::new(alloc, Text::empty())?;
    if let Ok(value) = json_text::read(alloc, text) {
        entry.body = value;
    }
    rooms_for(alloc, &entry)
}

fn rooms_for(alloc: Global, entry: &Entry) -> Result<String, AllocError> {
    let mut rooms = String::from_str(alloc, "value")?;
    for room in 0..8u32 {
        if entry.body.nests_within(room) {
            write!(rooms, " {room}")?;
        }
    }
    rooms.push_str("\nentry")?;
    for room in 0..8u32 {
        if entry.nests_within(room) {
            write!(rooms, " {room}")?;
        }
    }
    Ok(rooms)
}
