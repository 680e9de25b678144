// The mapping of a severity, from names of severities to values.
ghost use Rattle.std.specs.Prelude.{◌≡◌, ◌≤◌, [], codes, IfOk, IfSome};
ghost use Rattle.serde_json.specs.View.{view, items_view, members_view};
ghost use Rattle.settings_text.specs.Kinds as kinds;
ghost use Rattle.settings_text.specs.Mappings as mappings;
ghost use Rattle.settings_text.specs.Outcome.{Gives, Adds};
ghost use Rattle.settings_text.specs.Place.{item_place, member_place};

use crate::fault::SettingsFault;
use crate::kinds::{check_known, integer};
use crate::mapping::{MapRule, MapRules, MapWant};
use crate::place::{inner, item_place, member_place, place};
use crate::words::{Words, is_one_of};
use case_table::{find_fold, severities};
use entry_model::{Severity, Text};
use serde_json::{Map, Value};
use std::alloc::{AllocError, Global};

/// The short names of severities, in any case.
struct SeverityNames;

impl Words for SeverityNames {
    ghost use Rattle.settings_text.specs.Mappings.{is_severity};

    ghost test = { λ _. is_severity };

    fn has(&self, name: &str) -> bool {
        severity_named(name).is_some()
    }
}

fn severity_named(name: &str) -> Option<u8>
    ensures is { result ≡ mappings.severity_named name.now }
    ensures in_range { IfSome result (λ number. number ≤ 24) }
{
    match find_fold(&severities(), name) {
        Some(number) => Some(number as u8),
        None => None,
    }
}

/// The keys of a range.
struct RangeKeys;

impl Words for RangeKeys {
    ghost use Rattle.settings_text.specs.Mappings.{is_range_key};

    ghost test = { λ _. is_range_key };

    fn has(&self, name: &str) -> bool {
        is_one_of(name, &["min", "max"])
    }
}

/// A class of HTTP statuses, or a text that is wanted as it is.
fn word(alloc: Global, name: &str) -> Result<MapWant, AllocError>
    ensures { IfOk result (λ want. want ≡ mappings.word name.now) }
{
    if name == "2xx" {
        Ok(MapWant::Range { min: 200, max: 299 })
    } else if name == "3xx" {
        Ok(MapWant::Range { min: 300, max: 399 })
    } else if name == "4xx" {
        Ok(MapWant::Range { min: 400, max: 499 })
    } else if name == "5xx" {
        Ok(MapWant::Range { min: 500, max: 599 })
    } else {
        Ok(MapWant::Text(Text::from_str(alloc, name)?))
    }
}

/// A number that must be there.
fn bound(alloc: Global, object: &Value, at: &str, key: &str) -> Result<i64, SettingsFault>
    ensures { Gives (λ number. number) result
        (kinds.must at.now key.now (kinds.integer mappings.least mappings.greatest) (view object.now)) }
{
    match object.get(key) {
        Some(value) => integer(alloc, value, at, key, i64::MIN, i64::MAX),
        None => Err(SettingsFault::Missing {
            key: place(alloc, at, key)?,
        }),
    }
}

/// The numbers from `min` to `max`.
#[tactic(auto, unfolding(crate::specs::Mappings::range))]
fn range(alloc: Global, value: &Value, key: &str) -> Result<MapWant, SettingsFault>
    ensures { Gives (λ want. want) result (mappings.range key.now (view value.now)) }
{
    let Some(members) = value.as_object() else {
        return Err(SettingsFault::WrongKind {
            key: place(alloc, "", key)?,
        });
    };
    let front = inner(alloc, "", key)?;
    let at = front.as_str();
    check_known(alloc, members, at, &RangeKeys)?;
    let min = bound(alloc, value, at, "min")?;
    let max = bound(alloc, value, at, "max")?;
    if min <= max {
        Ok(MapWant::Range { min, max })
    } else {
        Err(SettingsFault::OutOfRange {
            key: place(alloc, "", key)?,
        })
    }
}

/// A text, a number or a range.
fn want(alloc: Global, value: &Value, key: &str) -> Result<MapWant, SettingsFault>
    ensures { Gives (λ want. want) result (mappings.want key.now (view value.now)) }
{
    match value {
        Value::String(name) => Ok(word(alloc, name.as_str())?),
        Value::Number(_) => {
            let number = integer(alloc, value, "", key, i64::MIN, i64::MAX)?;
            Ok(MapWant::Range {
                min: number,
                max: number,
            })
        }
        Value::Object(_) => range(alloc, value, key),
        Value::Null | Value::Bool(_) | Value::Array(_) => Err(SettingsFault::WrongKind {
            key: place(alloc, "", key)?,
        }),
    }
}

fn rule(
    alloc: Global,
    severity: Severity,
    value: &Value,
    key: &str,
) -> Result<MapRule, SettingsFault>
    ensures { Gives (λ rule. rule) result (mappings.rule_of severity.number key.now (view value.now)) }
{
    let want = want(alloc, value, key)?;
    Ok(MapRule { severity, want })
}

/// The rule of an item of the list at a place.
fn item_rule(
    alloc: Global,
    severity: Severity,
    value: &Value,
    key: &str,
    index: usize,
) -> Result<MapRule, SettingsFault>
    ensures { Gives (λ rule. rule) result (mappings.rule_of severity.number (item_place key.now index) (view value.now)) }
{
    let place = item_place(alloc, "", key, index)?;
    rule(alloc, severity, value, place.as_str())
}

/// Adds the rules of each of a list of values.
fn add_each(
    alloc: Global,
    rules: &mut Vec<MapRule>,
    severity: Severity,
    values: &Vec<Value>,
    key: &str,
) -> Result<(), SettingsFault>
    ensures { Adds rules.old.items rules.new.items result
        (kinds.each (λ n. mappings.rule_of severity.number (item_place key.now n)) 0 (items_view values.now.items)) }
{
    for (index, value) in values.iter().enumerate() {
        let rule = item_rule(alloc, severity, value, key, index)?;
        rules.push(rule)?;
    }
    Ok(())
}

/// Adds the rules of a severity.
fn add_rules(
    alloc: Global,
    rules: &mut Vec<MapRule>,
    severity: Severity,
    value: &Value,
    key: &str,
) -> Result<(), SettingsFault>
    ensures { Adds rules.old.items rules.new.items result
        (mappings.rules_of severity.number key.now (view value.now)) }
{
    if let Some(values) = value.as_array() {
        return add_each(alloc, rules, severity, values, key);
    }
    let rule = rule(alloc, severity, value, key)?;
    rules.push(rule)?;
    Ok(())
}

/// Adds the rules of a member. One without the name of a severity has none.
fn add_named(
    alloc: Global,
    rules: &mut Vec<MapRule>,
    name: &str,
    value: &Value,
    key: &str,
) -> Result<(), SettingsFault>
    ensures { Adds rules.old.items rules.new.items result
        (mappings.rules_named (mappings.severity_named name.now) (member_place key.now name.now) (view value.now)) }
{
    let Some(number) = severity_named(name) else {
        return Ok(());
    };
    let place = member_place(alloc, "", key, name)?;
    add_rules(alloc, rules, Severity { number }, value, place.as_str())
}

/// The rules of the members.
fn rules(
    alloc: Global,
    members: &Map<String, Value>,
    key: &str,
) -> Result<Vec<MapRule>, SettingsFault>
    ensures { Gives (λ rules. rules.items) result
        (mappings.rules key.now (members_view members.now.entries)) }
{
    let mut rules = Vec::new(alloc);
    for (name, value) in members.iter() {
        add_named(alloc, &mut rules, name.as_str(), value, key)?;
    }
    Ok(rules)
}

/// The rules of a mapping, none where the key is missing.
pub fn mapping(alloc: Global, object: &Value, at: &str) -> Result<MapRules, SettingsFault>
    ensures { Gives (λ rules. rules) result
        (kinds.may at.now (codes "mapping") mappings.mapping [] (view object.now)) }
{
    let Some(value) = object.get("mapping") else {
        return Ok(MapRules::new(Vec::new(alloc)));
    };
    let Some(members) = value.as_object() else {
        return Err(SettingsFault::WrongKind {
            key: place(alloc, at, "mapping")?,
        });
    };
    let front = inner(alloc, at, "mapping")?;
    check_known(alloc, members, front.as_str(), &SeverityNames)?;
    let key = place(alloc, at, "mapping")?;
    Ok(MapRules::new(rules(alloc, members, key.as_str())?))
}
