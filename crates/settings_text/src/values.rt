// JSON values as values of an entry.
ghost use Rattle.std.specs.Prelude.{◌≡◌, IfOk, map, nat_lt};
ghost use Rattle.entry_model.specs.Datum.{datum, items_of};
ghost use Rattle.serde_json.specs.View.{view, items_view, members_view, number_view};
ghost use Rattle.settings_text.specs.Content.{members_in_memory};
ghost use Rattle.settings_text.specs.ValueData.{value_data, items_data, members_data, number_data, has_fraction, items_have_fraction, members_have_fraction};
ghost use Rattle.serde_json.specs.Data.{depth, items_depth, members_depth};

use entry_model::{Fields, Text, Value, Values};
use serde_json::Map;
use std::alloc::{AllocError, Global};

fn number_of(alloc: Global, number: &serde_json::Number) -> Result<Value, AllocError>
    ensures { IfOk result (λ value. datum value ≡ number_data (number_view number.now)) }
{
    if let Some(number) = number.as_i64() {
        return Ok(Value::Int(number));
    }
    match number.as_u64() {
        Some(number) => Ok(Value::Text(Text::new(format!(in alloc; "{number}")?)?)),
        None => Ok(Value::Null),
    }
}

#[cycle(value)]
pub fn value_of(alloc: Global, value: &serde_json::Value) -> Result<Value, AllocError>
    ensures { IfOk result (λ copy. datum copy ≡ value_data (view value.now)) }
{
    match value {
        serde_json::Value::Null => Ok(Value::Null),
        serde_json::Value::Bool(flag) => Ok(Value::Bool(*flag)),
        serde_json::Value::Number(number) => number_of(alloc, number),
        serde_json::Value::String(text) => Ok(Value::Text(Text::from_str(alloc, text.as_str())?)),
        serde_json::Value::Array(values) => Ok(Value::List(values_of(alloc, values)?)),
        serde_json::Value::Object(members) => Ok(Value::Map(fields_of(alloc, members)?)),
    }
}

#[cycle(value)]
fn values_of(alloc: Global, values: &Vec<serde_json::Value>) -> Result<Values, AllocError>
    ensures { IfOk result (λ copies. items_of (map datum copies.items) ≡ items_data (items_view values.now.items)) }
{
    let mut copies = Values::new(alloc);
    for value in values {
        copies.push(value_of(alloc, value)?)?;
    }
    Ok(copies)
}

#[cycle(value)]
pub fn fields_of(
    alloc: Global,
    members: &Map<String, serde_json::Value>,
) -> Result<Fields, AllocError>
    ensures { IfOk result (λ copies. members_in_memory copies ≡ members_data (members_view members.now.entries)) }
{
    let mut copies = Fields::new(alloc);
    for (key, value) in members.iter() {
        let key = Text::from_str(alloc, key.as_str())?;
        let copy = value_of(alloc, value)?;
        copies.insert(key, copy)?;
    }
    Ok(copies)
}

/// Whether a fraction stands anywhere in it.
#[cycle(fraction)]
pub fn has_fraction(value: &serde_json::Value) -> bool
    ensures { result ≡ has_fraction (view value.now) }
{
    match value {
        serde_json::Value::Number(number) => number.is_f64(),
        serde_json::Value::Array(values) => items_have_fraction(values),
        serde_json::Value::Object(members) => members_have_fraction(members),
        serde_json::Value::Null | serde_json::Value::Bool(_) | serde_json::Value::String(_) =>
            false,
    }
}

#[cycle(fraction)]
fn items_have_fraction(values: &Vec<serde_json::Value>) -> bool
    ensures { result ≡ items_have_fraction (items_view values.now.items) }
{
    for value in values {
        if has_fraction(value) {
            return true;
        }
    }
    false
}

#[cycle(fraction)]
fn members_have_fraction(members: &Map<String, serde_json::Value>) -> bool
    ensures { result ≡ members_have_fraction (members_view members.now.entries) }
{
    for (_key, value) in members.iter() {
        if has_fraction(value) {
            return true;
        }
    }
    false
}

/// Whether lists and objects nest in it more than `most` deep.
#[cycle(nesting)]
pub fn nests_past(value: &serde_json::Value, most: usize) -> bool
    ensures { result ≡ nat_lt most (depth (view value.now)) }
{
    match value {
        serde_json::Value::Array(values) => most == 0 || items_nest_past(values, most - 1),
        serde_json::Value::Object(members) => most == 0 || members_nest_past(members, most - 1),
        serde_json::Value::Null
        | serde_json::Value::Bool(_)
        | serde_json::Value::Number(_)
        | serde_json::Value::String(_) => false,
    }
}

#[cycle(nesting)]
#[tactic(auto, using(crate::proofs::Depths::max_passes, crate::proofs::Depths::max_rest))]
fn items_nest_past(values: &Vec<serde_json::Value>, most: usize) -> bool
    ensures { result ≡ nat_lt most (items_depth (items_view values.now.items)) }
{
    for value in values {
        if nests_past(value, most) {
            return true;
        }
    }
    false
}

#[cycle(nesting)]
#[tactic(auto, using(crate::proofs::Depths::max_passes, crate::proofs::Depths::max_rest))]
fn members_nest_past(members: &Map<String, serde_json::Value>, most: usize) -> bool
    ensures { result ≡ nat_lt most (members_depth (members_view members.now.entries)) }
{
    for (_key, value) in members.iter() {
        if nests_past(value, most) {
            return true;
        }
    }
    false
}
