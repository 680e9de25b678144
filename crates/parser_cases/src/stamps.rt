// Entries that are stamped with times and severities. Before that an entry has the time 7 and the severity 3, `before`.
use crate::shown::write_text;
use crate::times::kind_of;
use entry_model::{Entry, Severity, Text, Value};
use field_paths::FieldPath;
use std::alloc::{AllocError, Global};
use time_layout::Layout;
use time_severity::{SeverityOp, SeverityRule, StampFault, TimeKind, TimeOp, Want};

/// `mapping FROM FLAGS`, with a rule a line as the input, as `1 INFO` or `17 500..599`. The flags are `preset` and
/// `overwrite_text`, or none of them.
pub fn mapping(alloc: Global, words: &str, text: &str) -> Result<Option<SeverityOp>, AllocError> {
    let (from, flags) = words.split_once(' ').unwrap_or((words, ""));
    let Ok(from) = FieldPath::read(alloc, from) else {
        return Ok(None);
    };
    let Some(rules) = rules_of(alloc, text)? else {
        return Ok(None);
    };
    let preset = flags.contains("preset");
    let overwrite_text = flags.contains("overwrite_text");
    Ok(Some(SeverityOp::new(from, preset, overwrite_text, rules)))
}

fn rules_of(alloc: Global, text: &str) -> Result<Option<Vec<SeverityRule>>, AllocError> {
    let mut rules = Vec::new(alloc);
    for line in text.lines() {
        match rule_of(alloc, line)? {
            Some(rule) => rules.push(rule)?,
            None => return Ok(None),
        }
    }
    Ok(Some(rules))
}

fn rule_of(alloc: Global, line: &str) -> Result<Option<SeverityRule>, AllocError> {
    let Some((number, wanted)) = line.split_once(' ') else {
        return Ok(None);
    };
    let number = match number.parse::<u8>() {
        Ok(number) if number <= 24 => number,
        _ => return Ok(None),
    };
    let severity = Severity { number };
    let want = match range_of(wanted) {
        Some((min, max)) => Want::Range { min, max },
        None => Want::Text(Text::from_str(alloc, wanted)?),
    };
    Ok(Some(SeverityRule { severity, want }))
}

fn range_of(text: &str) -> Option<(i64, i64)> {
    let (min, max) = text.split_once("..")?;
    Some((min.parse::<i64>().ok()?, max.parse::<i64>().ok()?))
}

/// `severity`, with a body in JSON as the input: the entry's number and name by the last mapping, or the fault.
pub fn severity(alloc: Global, op: &Option<SeverityOp>, text: &str) -> Result<String, AllocError> {
    match op {
        Some(op) => severity_by(alloc, op, text),
        None => String::from_str(alloc, "no mapping"),
    }
}

fn severity_by(alloc: Global, op: &SeverityOp, text: &str) -> Result<String, AllocError> {
    match entry_of(alloc, text)? {
        Some(mut entry) => graded(alloc, op, &mut entry, text),
        None => String::from_str(alloc, "no body"),
    }
}

fn graded(
    alloc: Global,
    op: &SeverityOp,
    entry: &mut Entry,
    text: &str,
) -> Result<String, AllocError> {
    let outcome = op.apply(alloc, entry);
    let mut stamp = String::new(alloc);
    write!(stamp, "{} ", entry.severity.number)?;
    write_text(entry.severity_text.as_str(), &mut stamp)?;
    if outcome.is_ok() {
        entry.severity = Severity { number: 3 };
        entry.severity_text = Text::from_str(alloc, "before")?;
    }
    let same = is_before(alloc, entry, text)?;
    stamped(alloc, outcome, stamp.as_str(), same)
}

/// `stamp FROM epoch KIND` or `stamp FROM layout LOCATION LAYOUT`, with a body in JSON as the input: the entry's time, or the
/// fault.
pub fn stamp(alloc: Global, words: &str, text: &str) -> Result<String, AllocError> {
    match time_op(alloc, words)? {
        Some(op) => stamp_by(alloc, &op, text),
        None => String::from_str(alloc, "no operator"),
    }
}

fn stamp_by(alloc: Global, op: &TimeOp, text: &str) -> Result<String, AllocError> {
    match entry_of(alloc, text)? {
        Some(mut entry) => timed(alloc, op, &mut entry, text),
        None => String::from_str(alloc, "no body"),
    }
}

fn timed(alloc: Global, op: &TimeOp, entry: &mut Entry, text: &str) -> Result<String, AllocError> {
    let outcome = op.apply(alloc, entry);
    let stamp = format!(in alloc; "{}", entry.timestamp.unwrap_or(0))?;
    if outcome.is_ok() {
        entry.timestamp = Some(7);
    }
    let same = is_before(alloc, entry, text)?;
    stamped(alloc, outcome, stamp.as_str(), same)
}

fn time_op(alloc: Global, words: &str) -> Result<Option<TimeOp>, AllocError> {
    let (from, told) = words.split_once(' ').unwrap_or((words, ""));
    let (Ok(from), Some(kind)) = (FieldPath::read(alloc, from), time_kind(alloc, told)) else {
        return Ok(None);
    };
    Ok(Some(TimeOp::new(from, kind)))
}

fn time_kind(alloc: Global, told: &str) -> Option<TimeKind> {
    if let Some(name) = told.strip_prefix("epoch ") {
        return Some(TimeKind::Epoch(kind_of(name)?));
    }
    let (location, spelling) = told.strip_prefix("layout ")?.split_once(' ')?;
    let layout = Layout::read(alloc, spelling, location.parse::<i32>().ok()?).ok()?;
    Some(TimeKind::Layout(layout))
}

// Whether an entry is as `entry_of` gave it.
fn is_before(alloc: Global, entry: &Entry, text: &str) -> Result<bool, AllocError> {
    match entry_of(alloc, text)? {
        Some(before) => Ok(before == *entry),
        None => Ok(false),
    }
}

fn entry_of(alloc: Global, text: &str) -> Result<Option<Entry>, AllocError> {
    match json_text::read(alloc, text) {
        Ok(body) => Ok(Some(entry_with(alloc, body)?)),
        Err(_) => Ok(None),
    }
}

fn entry_with(alloc: Global, body: Value) -> Result<Entry, AllocError> {
    let severity_text = Text::from_str(alloc, "before")?;
    let mut entry = Entry::new(alloc, Text::empty())?;
    entry.body = body;
    entry.severity = Severity { number: 3 };
    entry.severity_text = severity_text;
    entry.timestamp = Some(7);
    Ok(entry)
}

/// The stamp or the fault. `same` says that the entry is else as it was.
fn stamped(
    alloc: Global,
    outcome: Result<(), StampFault>,
    stamp: &str,
    same: bool,
) -> Result<String, AllocError> {
    let more = if same { "" } else { ", and more is changed" };
    match outcome {
        Ok(()) => format!(in alloc; "{stamp}{more}"),
        Err(fault) => format!(in alloc; "{fault:?}{more}"),
    }
}
