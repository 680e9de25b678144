// Field paths. Each change is made to a copy of the entry that is kept.
use crate::entries::entry_text;
use crate::values::value_text;
use entry_model::{Entry, Value};
use field_paths::FieldPath;
use std::alloc::{AllocError, Global};

/// The root of a path and its names, or the fault.
pub fn path(alloc: Global, text: &str) -> Result<String, AllocError> {
    match FieldPath::read(alloc, text) {
        Ok(path) => format!(in alloc; "{:?} {:?}", path.root(), path.names()),
        Err(fault) => format!(in alloc; "{fault}"),
    }
}

/// Puts the value of the second line at the path of the first. Answers what is there then, or the fault, and the entry.
pub fn set(alloc: Global, text: &str, kept: &Entry) -> Result<String, AllocError> {
    let (path, value) = text.split_once('\n').unwrap_or((text, "null"));
    match FieldPath::read(alloc, path) {
        Ok(path) => set_text(alloc, &path, value, kept),
        Err(_) => String::from_str(alloc, "no path"),
    }
}

fn set_text(
    alloc: Global,
    path: &FieldPath,
    text: &str,
    kept: &Entry,
) -> Result<String, AllocError> {
    let mut entry = kept.copy(alloc)?;
    let outcome = match json_text::read(alloc, text) {
        Ok(value) => put(alloc, path, value, &mut entry)?,
        Err(_) => String::from_str(alloc, "no value")?,
    };
    changed(alloc, outcome.as_str(), kept, &entry)
}

fn put(
    alloc: Global,
    path: &FieldPath,
    value: Value,
    entry: &mut Entry,
) -> Result<String, AllocError> {
    match path.set(alloc, entry, value) {
        Ok(()) => there(alloc, path, entry),
        Err(fault) => format!(in alloc; "{fault}"),
    }
}

fn there(alloc: Global, path: &FieldPath, entry: &Entry) -> Result<String, AllocError> {
    match path.get(entry) {
        Some(value) => value_text(alloc, value),
        None => String::from_str(alloc, "nothing"),
    }
}

/// What is taken from a path, or the fault, and the entry.
pub fn take(alloc: Global, text: &str, kept: &Entry) -> Result<String, AllocError> {
    match FieldPath::read(alloc, text) {
        Ok(path) => take_at(alloc, &path, kept),
        Err(_) => String::from_str(alloc, "no path"),
    }
}

fn take_at(alloc: Global, path: &FieldPath, kept: &Entry) -> Result<String, AllocError> {
    let mut entry = kept.copy(alloc)?;
    let outcome = taken(alloc, path, &mut entry)?;
    changed(alloc, outcome.as_str(), kept, &entry)
}

fn taken(alloc: Global, path: &FieldPath, entry: &mut Entry) -> Result<String, AllocError> {
    match path.take(alloc, entry) {
        Ok(value) => value_text(alloc, &value),
        Err(fault) => format!(in alloc; "{fault}"),
    }
}

/// The entry once the root of a path is empty.
pub fn empty(alloc: Global, text: &str, kept: &Entry) -> Result<String, AllocError> {
    match FieldPath::read(alloc, text) {
        Ok(path) => emptied(alloc, &path, kept),
        Err(_) => String::from_str(alloc, "no path"),
    }
}

fn emptied(alloc: Global, path: &FieldPath, kept: &Entry) -> Result<String, AllocError> {
    let mut entry = kept.copy(alloc)?;
    path.empty_root(alloc, &mut entry);
    entry_text(alloc, &entry)
}

fn changed(
    alloc: Global,
    outcome: &str,
    before: &Entry,
    after: &Entry,
) -> Result<String, AllocError> {
    if before == after {
        return format!(in alloc; "{outcome}\nthe entry is as it was");
    }
    let entry = entry_text(alloc, after)?;
    format!(in alloc; "{outcome}\n{entry}")
}

/// How the path of the first line stands to that of the second.
pub fn stands(alloc: Global, text: &str) -> Result<String, AllocError> {
    let (one, other) = text.split_once('\n').unwrap_or((text, ""));
    match FieldPath::read(alloc, one) {
        Ok(one) => stands_to(alloc, &one, other),
        Err(_) => String::from_str(alloc, "no path"),
    }
}

fn stands_to(alloc: Global, one: &FieldPath, other: &str) -> Result<String, AllocError> {
    match FieldPath::read(alloc, other) {
        Ok(other) => format!(in alloc; "{:?}", one.stands_to(&other)),
        Err(_) => String::from_str(alloc, "no path"),
    }
}
