// The kinds of a key. `at` and `key` name the place: what stands before the key, and the key.
ghost use Rattle.std.specs.Prelude.{◌≡◌, ◌++◌, ◌≤ℤ◌, [], None, IfOk};
ghost use Rattle.entry_model.specs.Datum.{no_members};
ghost use Rattle.serde_json.specs.View.{view, items_view, members_view};
ghost use Rattle.settings_text.specs.Kinds as kinds;
ghost use Rattle.settings_text.specs.Outcome.{Gives};
ghost use Rattle.settings_text.specs.Place.{item_place, member_place};

use crate::fault::SettingsFault;
use crate::literal::Literal;
use crate::place::{item_place, member_place, place};
use crate::texts::{NamedTexts, Texts};
use crate::values::{fields_of, has_fraction, nests_past, value_of};
use crate::words::Words;
use entry_model::{Fields, Text};
use serde_json::{Map, Value};
use std::alloc::Global;

/// How deep lists and objects may nest in a value.
const MOST_NESTED: usize = 64;

/// Refuses the least key of the members that is none of these.
#[tactic(auto, unfolding(crate::specs::Kinds::known))]
pub fn check_known<K: Words>(
    alloc: Global,
    members: &Map<String, Value>,
    at: &str,
    keys: &K,
) -> Result<(), SettingsFault>
    ensures { Gives (λ done. done) result
        (kinds.known (K.test keys.now) at.now (members_view members.now.entries)) }
{
    for (name, _value) in members.iter() {
        if !keys.has(name.as_str()) {
            return Err(SettingsFault::Unknown {
                key: place(alloc, at, name.as_str())?,
            });
        }
    }
    Ok(())
}

/// The name that stands at the place.
pub fn name<'v>(
    alloc: Global,
    value: &'v Value,
    at: &str,
    key: &str,
) -> Result<&'v str, SettingsFault>
    ensures { Gives (λ name. name.now) result (kinds.text (at.now ++ key.now) (view value.now)) }
{
    match value.as_str() {
        Some(name) => Ok(name),
        None => Err(SettingsFault::WrongKind {
            key: place(alloc, at, key)?,
        }),
    }
}

/// A text that must be there.
pub fn text(alloc: Global, object: &Value, at: &str, key: &str) -> Result<Text, SettingsFault>
    ensures { Gives (λ text. text) result (kinds.must at.now key.now kinds.text (view object.now)) }
{
    let Some(value) = object.get(key) else {
        return Err(SettingsFault::Missing {
            key: place(alloc, at, key)?,
        });
    };
    match value.as_str() {
        Some(content) => Ok(Text::from_str(alloc, content)?),
        None => Err(SettingsFault::WrongKind {
            key: place(alloc, at, key)?,
        }),
    }
}

/// A text that may be missing.
pub fn optional_text(
    alloc: Global,
    object: &Value,
    at: &str,
    key: &str,
) -> Result<Option<Text>, SettingsFault>
    ensures { Gives (λ text. text) result (kinds.may at.now key.now (kinds.given kinds.text) None (view object.now)) }
{
    let Some(value) = object.get(key) else {
        return Ok(None);
    };
    let content = name(alloc, value, at, key)?;
    Ok(Some(Text::from_str(alloc, content)?))
}

/// A text that is this one where the key is missing.
pub fn text_or(
    alloc: Global,
    object: &Value,
    at: &str,
    key: &str,
    default: &str,
) -> Result<Text, SettingsFault>
    ensures { Gives (λ text. text) result (kinds.may at.now key.now kinds.text default.now (view object.now)) }
{
    let content = match object.get(key) {
        Some(value) => name(alloc, value, at, key)?,
        None => default,
    };
    Ok(Text::from_str(alloc, content)?)
}

pub fn flag(
    alloc: Global,
    object: &Value,
    at: &str,
    key: &str,
    default: bool,
) -> Result<bool, SettingsFault>
    ensures { Gives (λ flag. flag) result (kinds.may at.now key.now kinds.flag default (view object.now)) }
{
    let Some(value) = object.get(key) else {
        return Ok(default);
    };
    match value.as_bool() {
        Some(flag) => Ok(flag),
        None => Err(SettingsFault::WrongKind {
            key: place(alloc, at, key)?,
        }),
    }
}

/// A whole number from `low` to `high`.
pub fn integer(
    alloc: Global,
    value: &Value,
    at: &str,
    key: &str,
    low: i64,
    high: i64,
) -> Result<i64, SettingsFault>
    ensures read { Gives (λ number. number) result (kinds.integer low high (at.now ++ key.now) (view value.now)) }
    ensures within { IfOk result (λ number. (low ≤ℤ number) × (number ≤ℤ high)) }
{
    let Some(number) = value.as_number() else {
        return Err(SettingsFault::WrongKind {
            key: place(alloc, at, key)?,
        });
    };
    if number.is_f64() {
        return Err(SettingsFault::Fraction {
            key: place(alloc, at, key)?,
        });
    }
    match number.as_i64() {
        Some(number) if low <= number && number <= high => Ok(number),
        _ => Err(SettingsFault::OutOfRange {
            key: place(alloc, at, key)?,
        }),
    }
}

/// A whole number from `low` to `high`, which may be missing.
pub fn whole(
    alloc: Global,
    object: &Value,
    at: &str,
    key: &str,
    low: u32,
    high: u32,
    default: u32,
) -> Result<u32, SettingsFault>
    ensures { Gives (λ number. number) result
        (kinds.may at.now key.now (kinds.whole low high) default (view object.now)) }
{
    let Some(value) = object.get(key) else {
        return Ok(default);
    };
    let number = integer(alloc, value, at, key, i64::from(low), i64::from(high))?;
    Ok(number.unsigned_abs() as u32)
}

/// The text at exactly one of two keys of an object, and whether it is that of the first. `object_key` is the place of the
/// object itself, which both keys together are a fault of; where none is there, the first is missing.
pub fn either_text(
    alloc: Global,
    object: &Value,
    object_key: &str,
    at: &str,
    first: &str,
    second: &str,
) -> Result<(bool, Text), SettingsFault>
    ensures { Gives (λ text. text) result
        (kinds.either_text object_key.now at.now first.now second.now (view object.now)) }
{
    match (object.get(first), object.get(second)) {
        (None, None) => Err(SettingsFault::Missing {
            key: place(alloc, at, first)?,
        }),
        (Some(value), None) => {
            let content = name(alloc, value, at, first)?;
            Ok((true, Text::from_str(alloc, content)?))
        }
        (None, Some(value)) => {
            let content = name(alloc, value, at, second)?;
            Ok((false, Text::from_str(alloc, content)?))
        }
        (Some(_), Some(_)) => Err(SettingsFault::OutOfRange {
            key: Text::from_str(alloc, object_key)?,
        }),
    }
}

fn item_text(
    alloc: Global,
    value: &Value,
    at: &str,
    key: &str,
    index: usize,
) -> Result<Text, SettingsFault>
    ensures { Gives (λ text. text) result (kinds.text (item_place (at.now ++ key.now) index) (view value.now)) }
{
    match value.as_str() {
        Some(content) => Ok(Text::from_str(alloc, content)?),
        None => Err(SettingsFault::WrongKind {
            key: item_place(alloc, at, key, index)?,
        }),
    }
}

fn item_texts(
    alloc: Global,
    values: &Vec<Value>,
    at: &str,
    key: &str,
) -> Result<Texts, SettingsFault>
    ensures { Gives (λ texts. texts) result
        (kinds.item_texts (at.now ++ key.now) (items_view values.now.items)) }
{
    let mut texts = Vec::new(alloc);
    for (index, value) in values.iter().enumerate() {
        let text = item_text(alloc, value, at, key, index)?;
        texts.push(text)?;
    }
    Ok(Texts::new(texts))
}

/// A list of texts, none where the key is missing.
pub fn texts(alloc: Global, object: &Value, at: &str, key: &str) -> Result<Texts, SettingsFault>
    ensures { Gives (λ texts. texts) result (kinds.may at.now key.now kinds.texts [] (view object.now)) }
{
    let Some(value) = object.get(key) else {
        return Ok(Texts::new(Vec::new(alloc)));
    };
    match value.as_array() {
        Some(values) => item_texts(alloc, values, at, key),
        None => Err(SettingsFault::WrongKind {
            key: place(alloc, at, key)?,
        }),
    }
}

/// A list of at least one text.
fn listed_texts(alloc: Global, value: &Value, at: &str, key: &str) -> Result<Texts, SettingsFault>
    ensures { Gives (λ texts. texts) result (kinds.some_texts (at.now ++ key.now) (view value.now)) }
{
    match value.as_array() {
        Some(values) if values.as_slice().is_empty() => Err(SettingsFault::OutOfRange {
            key: place(alloc, at, key)?,
        }),
        Some(values) => item_texts(alloc, values, at, key),
        None => Err(SettingsFault::WrongKind {
            key: place(alloc, at, key)?,
        }),
    }
}

/// A list of at least one text, which must be there.
pub fn some_texts(
    alloc: Global,
    object: &Value,
    at: &str,
    key: &str,
) -> Result<Texts, SettingsFault>
    ensures { Gives (λ texts. texts) result (kinds.must at.now key.now kinds.some_texts (view object.now)) }
{
    match object.get(key) {
        Some(value) => listed_texts(alloc, value, at, key),
        None => Err(SettingsFault::Missing {
            key: place(alloc, at, key)?,
        }),
    }
}

/// A text, which stands for a list of one, or a list of at least one text.
fn one_or_listed(alloc: Global, value: &Value, at: &str, key: &str) -> Result<Texts, SettingsFault>
    ensures { Gives (λ texts. texts) result (kinds.text_or_texts (at.now ++ key.now) (view value.now)) }
{
    match value.as_str() {
        Some(content) => Ok(Texts::new(vec![in alloc; Text::from_str(alloc, content)?]?)),
        None => listed_texts(alloc, value, at, key),
    }
}

/// A text or a list of at least one text, which must be there.
pub fn text_or_texts(
    alloc: Global,
    object: &Value,
    at: &str,
    key: &str,
) -> Result<Texts, SettingsFault>
    ensures { Gives (λ texts. texts) result (kinds.must at.now key.now kinds.text_or_texts (view object.now)) }
{
    match object.get(key) {
        Some(value) => one_or_listed(alloc, value, at, key),
        None => Err(SettingsFault::Missing {
            key: place(alloc, at, key)?,
        }),
    }
}

/// A text or a list of at least one text, which may be missing.
pub fn optional_texts(
    alloc: Global,
    object: &Value,
    at: &str,
    key: &str,
) -> Result<Option<Texts>, SettingsFault>
    ensures { Gives (λ texts. texts) result
        (kinds.may at.now key.now (kinds.given kinds.text_or_texts) None (view object.now)) }
{
    match object.get(key) {
        Some(value) => Ok(Some(one_or_listed(alloc, value, at, key)?)),
        None => Ok(None),
    }
}

#[tactic(auto, unfolding(crate::specs::Kinds::are_texts))]
fn check_texts(
    alloc: Global,
    members: &Map<String, Value>,
    at: &str,
    key: &str,
) -> Result<(), SettingsFault>
    ensures { Gives (λ done. done) result
        (kinds.are_texts (at.now ++ key.now) (members_view members.now.entries)) }
{
    for (name, value) in members.iter() {
        if !value.is_string() {
            return Err(SettingsFault::WrongKind {
                key: member_place(alloc, at, key, name.as_str())?,
            });
        }
    }
    Ok(())
}

/// An object of texts, without members where the key is missing.
pub fn fields(
    alloc: Global,
    object: &Value,
    at: &str,
    key: &str,
) -> Result<NamedTexts, SettingsFault>
    ensures { Gives (λ texts. texts) result (kinds.may at.now key.now kinds.fields no_members (view object.now)) }
{
    let Some(value) = object.get(key) else {
        return Ok(NamedTexts::new(Fields::new(alloc)));
    };
    let Some(members) = value.as_object() else {
        return Err(SettingsFault::WrongKind {
            key: place(alloc, at, key)?,
        });
    };
    check_texts(alloc, members, at, key)?;
    Ok(NamedTexts::new(fields_of(alloc, members)?))
}

/// Any value, which must be there.
pub fn value(alloc: Global, object: &Value, at: &str, key: &str) -> Result<Literal, SettingsFault>
    ensures { Gives (λ value. value) result (kinds.must at.now key.now kinds.value (view object.now)) }
{
    let Some(value) = object.get(key) else {
        return Err(SettingsFault::Missing {
            key: place(alloc, at, key)?,
        });
    };
    if has_fraction(value) {
        return Err(SettingsFault::Fraction {
            key: place(alloc, at, key)?,
        });
    }
    if nests_past(value, MOST_NESTED) {
        return Err(SettingsFault::OutOfRange {
            key: place(alloc, at, key)?,
        });
    }
    Ok(Literal::new(value_of(alloc, value)?))
}
