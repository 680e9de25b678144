// Copies, which are equal to what they were made of.
//
// A value is copied, compared and dropped by a recursion as deep as the value is nested. What the agent reads
// bounds that depth: JSON in entries and values in settings nest at most 64 deep, and saved entries 4,096.
ghost use Rattle.std.specs.Prelude.{◌≡◌, IfOk, map};
ghost use Rattle.entry_model.specs.Datum.{datum};
ghost use Rattle.entry_model.specs.LogRecord.{log_record};
ghost use Rattle.entry_model.specs.Seen.{seen, unset_of};

use crate::fields::FIRST_ROOM;
use crate::{Entry, Fields, Value, Values};
use std::alloc::{AllocError, Global};

impl Value {
    /// A value equal to this one, each part of it a copy.
    pub fn copy(&self, alloc: Global) -> Result<Value, AllocError>
        ensures { IfOk result (λ copy. datum copy ≡ datum self.now) }
    {
        copy_value(alloc, self)
    }
}

impl Entry {
    /// An entry equal to this one, each part of it a copy.
    pub fn copy(&self, alloc: Global) -> Result<Entry, AllocError>
        ensures { IfOk result (λ copy. log_record copy ≡ log_record self.now) }
    {
        Ok(Entry {
            body: self.body.copy(alloc)?,
            attributes: self.attributes.copy(alloc)?,
            resource: self.resource.copy(alloc)?,
            timestamp: self.timestamp,
            severity: self.severity,
            severity_text: self.severity_text.share()?,
        })
    }
}

#[cycle(copy)]
#[inline(always)]
fn copy_value(alloc: Global, value: &Value) -> Result<Value, AllocError>
    ensures { IfOk result (λ copy. datum copy ≡ datum value.now) }
{
    match value {
        Value::Null => Ok(Value::Null),
        Value::Bool(flag) => Ok(Value::Bool(*flag)),
        Value::Int(number) => Ok(Value::Int(*number)),
        Value::Text(text) => Ok(Value::Text(text.share()?)),
        Value::List(values) => Ok(Value::List(copy_values(alloc, values)?)),
        Value::Map(fields) => Ok(Value::Map(copy_members(alloc, fields, 0)?)),
    }
}

#[cycle(copy)]
#[inline(never)]
fn copy_values(alloc: Global, values: &Values) -> Result<Values, AllocError>
    ensures { IfOk result (λ copies. map datum copies.items ≡ map datum values.now.items) }
{
    let mut copies = Values::new(alloc);
    for value in values {
        copies.push(copy_value(alloc, value)?)?;
    }
    Ok(copies)
}

// With room for so many members more.
#[cycle(copy)]
#[inline(never)]
fn copy_members(alloc: Global, fields: &Fields, more: usize) -> Result<Fields, AllocError>
    ensures { IfOk result (λ copies. seen copies.entries ≡ seen fields.now.entries) }
{
    let room = fields.len().saturating_add(more);
    let mut copies = Vec::with_capacity(alloc, room)?;
    for (key, value) in fields.members() {
        let copy = copy_value(alloc, value)?;
        copies.push((key.share()?, copy))?;
    }
    Ok(Fields::from_ascending(copies))
}

/// Members equal to these.
#[inline(always)]
pub fn copy_fields(alloc: Global, fields: &Fields) -> Result<Fields, AllocError>
    ensures { IfOk result (λ copies. seen copies.entries ≡ seen fields.now.entries) }
{
    copy_for_more(alloc, fields, 0)
}

/// Members equal to these, with room for so many more where there are any.
#[inline(always)]
pub fn copy_for_more(alloc: Global, fields: &Fields, more: usize) -> Result<Fields, AllocError>
    ensures { IfOk result (λ copies. seen copies.entries ≡ seen fields.now.entries) }
{
    // Most resources have none, and then nothing is called.
    if fields.is_empty() {
        return Ok(Fields::new(alloc));
    }
    copy_members(alloc, fields, more)
}

/// The names of these members, each with `Null`. There is room for as many as the first member of a map makes it for.
pub fn unset_fields(alloc: Global, fields: &Fields) -> Result<Fields, AllocError>
    ensures { IfOk result (λ unset. seen unset.entries ≡ unset_of (seen fields.now.entries)) }
{
    let len = fields.len();
    let room = if len < FIRST_ROOM { FIRST_ROOM } else { len };
    let mut unset = Vec::with_capacity(alloc, room)?;
    for (key, _) in fields.members() {
        unset.push((key.share()?, Value::Null))?;
    }
    Ok(Fields::from_ascending(unset))
}
