// Groups that are open.
use crate::plain::records;
use crate::unanswered::Unanswered;
use entry_model::{Entry, Text, Value, Values};
use field_paths::FieldPath;
use otlp_json::line;
use recombine::{Groups, Recombine, StepFault, restore};
use std::alloc::{AllocError, Global};

/// The records that a `recombine` at this field would make of the groups that these bytes spell, if it were closed, each in a
/// line.
pub fn closed(alloc: Global, field: &str, kept: &[u8]) -> Result<String, Unanswered> {
    match FieldPath::read(alloc, field) {
        Ok(field) => closed_at(alloc, field, kept),
        Err(_) => refused(alloc, "no field"),
    }
}

fn refused(alloc: Global, why: &str) -> Result<String, Unanswered> {
    Err(Unanswered::Refused(String::from_str(alloc, why)?))
}

fn closed_at(alloc: Global, field: FieldPath, kept: &[u8]) -> Result<String, Unanswered> {
    let recombine = Recombine::new(false, field, Text::empty(), 1, false);
    match restore(alloc, kept, 0) {
        Ok((mut groups, _next)) => closed_by(alloc, &recombine, &mut groups),
        Err(_) => refused(alloc, "no groups"),
    }
}

fn closed_by(
    alloc: Global,
    recombine: &Recombine,
    groups: &mut Groups,
) -> Result<String, Unanswered> {
    let mut entries = Vec::new(alloc);
    recombine.close(alloc, groups, &mut entries)?;
    Ok(records_of(alloc, &entries)?)
}

fn records_of(alloc: Global, entries: &[Entry]) -> Result<String, AllocError> {
    let mut out = Vec::new(alloc);
    for entry in entries {
        line(alloc, 7, 1, None, entry, &mut out)?;
    }
    records(alloc, &out)
}

/// Whether a `recombine` takes an entry whose body is nested so deep.
pub fn taken(alloc: Global, levels: usize) -> Result<String, Unanswered> {
    let Ok(field) = FieldPath::read(alloc, "attributes.a") else {
        return Err(Unanswered::Memory);
    };
    let entry = deep_entry(alloc, &field, levels)?;
    let recombine = Recombine::new(false, field, Text::empty(), 2, false);
    let answer = outcome(alloc, &recombine, entry)?;
    Ok(String::from_str(alloc, answer)?)
}

fn outcome(alloc: Global, recombine: &Recombine, entry: Entry) -> Result<&'static str, Unanswered> {
    let mut groups = Groups::new(alloc);
    let mut out = Vec::new(alloc);
    match recombine.step(alloc, &mut groups, false, &Text::empty(), entry, &mut out) {
        Ok(()) => Ok("taken"),
        Err(StepFault::TooDeep { .. }) => Ok("too deep"),
        Err(StepFault::NotText { .. }) => Ok("no text"),
        Err(StepFault::Memory) => Err(Unanswered::Memory),
    }
}

fn deep_entry(alloc: Global, field: &FieldPath, levels: usize) -> Result<Entry, Unanswered> {
    let mut entry = Entry::new(alloc, Text::empty())?;
    fill(alloc, field, levels, &mut entry)?;
    Ok(entry)
}

// An empty text at the field, and a body that is nested so deep.
fn fill(
    alloc: Global,
    field: &FieldPath,
    levels: usize,
    entry: &mut Entry,
) -> Result<(), Unanswered> {
    match field.set(alloc, entry, Value::Text(Text::empty())) {
        Ok(()) => {
            entry.body = nested(alloc, levels)?;
            Ok(())
        }
        Err(_) => Err(Unanswered::Memory),
    }
}

// Lists in one another.
fn nested(alloc: Global, levels: usize) -> Result<Value, AllocError> {
    let mut value = Value::Null;
    for _ in 0..levels {
        let mut values = Values::new(alloc);
        values.push(value)?;
        value = Value::List(values);
    }
    Ok(value)
}
