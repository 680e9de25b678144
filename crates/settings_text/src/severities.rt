// The keys of a severity.
ghost use Rattle.std.specs.Prelude.{◌≡◌, ◌++◌, codes, None, true, []};
ghost use Rattle.serde_json.specs.View.{view};
ghost use Rattle.settings_text.specs.Kinds as kinds;
ghost use Rattle.settings_text.specs.Outcome.{Gives};
ghost use Rattle.settings_text.specs.Severities as severities;

use crate::fault::SettingsFault;
use crate::kinds::{check_known, flag, text};
use crate::mappings::mapping;
use crate::parsing::SeveritySpec;
use crate::place::{inner, place};
use crate::words::{Words, is_one_of, named_or};
use serde_json::Value;
use std::alloc::Global;

/// The keys of a severity.
struct SeverityKeys;

impl Words for SeverityKeys {
    ghost use Rattle.settings_text.specs.Severities.{is_key};

    ghost test = { λ _. is_key };

    fn has(&self, name: &str) -> bool {
        is_key(name)
    }
}

pub fn is_key(name: &str) -> bool
    ensures { result ≡ severities.is_key name.now }
{
    is_one_of(name, &["parse_from", "preset", "overwrite_text", "mapping"])
}

fn preset(alloc: Global, object: &Value, at: &str) -> Result<bool, SettingsFault>
    ensures { Gives (λ preset. preset) result
        (kinds.may at.now (codes "preset") (kinds.name severities.preset_named) true (view object.now)) }
{
    let words = [("default", true), ("none", false)];
    named_or(alloc, object, at, "preset", &words, true)
}

#[tactic(auto, unfolding(crate::specs::Severities::read))]
pub fn read(alloc: Global, object: &Value, at: &str) -> Result<SeveritySpec, SettingsFault>
    ensures { Gives (λ severity. severity) result (severities.read at.now (view object.now)) }
{
    let parse_from = text(alloc, object, at, "parse_from")?;
    let preset = preset(alloc, object, at)?;
    let overwrite_text = flag(alloc, object, at, "overwrite_text", false)?;
    let mapping = mapping(alloc, object, at)?;
    Ok(SeveritySpec {
        parse_from,
        preset,
        overwrite_text,
        mapping,
    })
}

/// An object of these keys.
fn block(alloc: Global, value: &Value, at: &str, key: &str) -> Result<SeveritySpec, SettingsFault>
    ensures { Gives (λ severity. severity) result (severities.block (at.now ++ key.now) (view value.now)) }
{
    let Some(members) = value.as_object() else {
        return Err(SettingsFault::WrongKind {
            key: place(alloc, at, key)?,
        });
    };
    let front = inner(alloc, at, key)?;
    check_known(alloc, members, front.as_str(), &SeverityKeys)?;
    read(alloc, value, front.as_str())
}

/// An object of these keys, which may be missing.
pub fn optional_block(
    alloc: Global,
    object: &Value,
    at: &str,
    key: &str,
) -> Result<Option<SeveritySpec>, SettingsFault>
    ensures { Gives (λ severity. severity) result
        (kinds.may at.now key.now (kinds.given severities.block) None (view object.now)) }
{
    match object.get(key) {
        Some(value) => Ok(Some(block(alloc, value, at, key)?)),
        None => Ok(None),
    }
}
