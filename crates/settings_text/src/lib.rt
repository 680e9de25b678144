//! The agent's settings, as people write them: one JSON object (RFC 8259) of at most 1,048,576 bytes.
//!
//! **The contract for the layer above.** `grammar.settings` of `specs/Grammar.antt` gives, for a list of bytes,
//! what the settings say, or the one reason for which they are refused, with the key that it is about. [`read`]
//! answers `Ok` exactly where the definition gives settings, and with those; it answers each refusal exactly where
//! the definition does. Want of memory alone is free. The declared types are themselves what the definition gives: their
//! lists, maps and values are small types that contracts see as their content, whatever their place in memory.
//!
//! **The order of refusals.** A text that is too long is refused before it is looked into, then one that is not
//! an object. In each object the least unknown key in byte order comes first, then its keys in the order of the
//! table: a key that is missing, of the wrong kind, a fraction, out of its range. An inner object or list is read
//! when its key is reached, and a list that is empty or too long is refused before its members. An operator's
//! `type` comes before its other keys; those that types share come next, as `id`, `output`, `if`, `on_error`, and
//! then the type's own. Of a key that stands twice the last counts. `1.0`, `1e3` and `-0` are no whole numbers.
//!
//! **A key more** is one name in `is_top_key` and one line in `settings_of`, in the definition and in the code alike;
//! a type of operators is one file in `types`, and one line in each function over `OpType`.
#![tactic(auto)]

ghost use Rattle.settings_text.specs.Grammar as grammar;
ghost use Rattle.settings_text.specs.Outcome.{Gives, or_fault};
ghost use Rattle.std.specs.Prelude.{◌≡◌, codes, Some, []};
ghost use Rattle.serde_json.specs.View.{view};
ghost use Rattle.settings_text.specs.Kinds as kinds;

mod fault;
mod ids;
mod kinds;
pub mod laws;
mod lists;
mod literal;
mod mapping;
mod mappings;
mod multilines;
mod names;
mod operators;
mod parsers;
mod parsing;
mod place;
mod settings;
mod severities;
mod texts;
mod times;
mod types;
mod values;
mod words;

pub use fault::SettingsFault;
use kinds::{check_known, fields, flag, some_texts, texts, whole};
pub use lists::{Operators, Routes};
pub use literal::Literal;
pub use mapping::{MapRule, MapRules, MapWant};
use multilines::multiline;
use operators::operators;
pub use parsing::{FormatSpec, LayoutType, ParserKeys, SeveritySpec, TimeSpec};
use serde_json::Value;
pub use settings::{Multiline, OnError, OpKind, OpSpec, RouteSpec, Settings, StartAt};
use std::alloc::Global;
pub use texts::{NamedTexts, Texts};
use words::{Words, is_one_of, named_or};

/// The greatest length of a text, in bytes.
pub const MAX_LENGTH: usize = 1_048_576;

fn start_at(alloc: Global, object: &Value) -> Result<StartAt, SettingsFault>
    ensures { Gives (λ start. start) result
        (kinds.may [] (codes "start_at") (kinds.name grammar.start_named) StartAt.End (view object.now)) }
{
    let words = [("beginning", StartAt::Beginning), ("end", StartAt::End)];
    named_or(alloc, object, "", "start_at", &words, StartAt::End)
}

/// The keys of the whole.
struct TopKeys;

impl Words for TopKeys {
    ghost use Rattle.settings_text.specs.Grammar.{is_top_key};

    ghost test = { λ _. is_top_key };

    fn has(&self, name: &str) -> bool {
        let words = [
            "include",
            "exclude",
            "start_at",
            "fingerprint_size",
            "max_log_size",
            "multiline",
            "preserve_leading_whitespaces",
            "preserve_trailing_whitespaces",
            "include_file_name",
            "include_file_path",
            "include_file_record_number",
            "attributes",
            "resource",
            "operators",
            "include_observed_time",
            "flush_after_polls",
        ];
        is_one_of(name, &words)
    }
}

#[derive(Clone, Copy)]
struct Flags {
    preserve_leading_whitespaces: bool,
    preserve_trailing_whitespaces: bool,
    include_file_name: bool,
    include_file_path: bool,
    include_file_record_number: bool,
}

fn flags_of(alloc: Global, object: &Value) -> Result<Flags, SettingsFault>
    ensures { Gives (λ flags. flags) result (grammar.flags_of (view object.now)) }
{
    Ok(Flags {
        preserve_leading_whitespaces: flag(
            alloc,
            object,
            "",
            "preserve_leading_whitespaces",
            false,
        )?,
        preserve_trailing_whitespaces: flag(
            alloc,
            object,
            "",
            "preserve_trailing_whitespaces",
            false,
        )?,
        include_file_name: flag(alloc, object, "", "include_file_name", true)?,
        include_file_path: flag(alloc, object, "", "include_file_path", false)?,
        include_file_record_number: flag(alloc, object, "", "include_file_record_number", false)?,
    })
}

#[tactic(auto, unfolding(crate::specs::Grammar::settings_of))]
fn settings_of(alloc: Global, object: &Value) -> Result<Settings, SettingsFault>
    ensures { Gives (λ settings. settings) result (grammar.settings_of (view object.now)) }
{
    let Some(members) = object.as_object() else {
        return Err(SettingsFault::NotJson);
    };
    check_known(alloc, members, "", &TopKeys)?;
    let include = some_texts(alloc, object, "", "include")?;
    let exclude = texts(alloc, object, "", "exclude")?;
    let start_at = start_at(alloc, object)?;
    let fingerprint_size = whole(alloc, object, "", "fingerprint_size", 16, 4_096, 1_000)?;
    let max_log_size = whole(alloc, object, "", "max_log_size", 64, 4_194_304, 1_048_576)?;
    let multiline = multiline(alloc, object)?;
    let flags = flags_of(alloc, object)?;
    let attributes = fields(alloc, object, "", "attributes")?;
    let resource = fields(alloc, object, "", "resource")?;
    let operators = operators(alloc, object)?;
    let include_observed_time = flag(alloc, object, "", "include_observed_time", false)?;
    let flush_after_polls = whole(alloc, object, "", "flush_after_polls", 0, 1_000, 0)?;
    Ok(Settings {
        include,
        exclude,
        start_at,
        fingerprint_size,
        max_log_size,
        multiline,
        preserve_leading_whitespaces: flags.preserve_leading_whitespaces,
        preserve_trailing_whitespaces: flags.preserve_trailing_whitespaces,
        include_file_name: flags.include_file_name,
        include_file_path: flags.include_file_path,
        include_file_record_number: flags.include_file_record_number,
        attributes,
        resource,
        operators,
        include_observed_time,
        flush_after_polls,
    })
}

fn json_of(alloc: Global, bytes: &[u8]) -> Result<Value, SettingsFault>
    ensures { Gives view result (or_fault SettingsFault.NotJson (grammar.json_of bytes.now)) }
{
    match Value::from_slice(alloc, bytes) {
        Ok(value) => Ok(value),
        Err(fault) => {
            if fault.is_memory() {
                return Err(SettingsFault::Memory);
            }
            Err(SettingsFault::NotJson)
        }
    }
}

/// The settings of a text.
#[tactic(auto, unfolding(crate::specs::Grammar::settings))]
pub fn read(alloc: Global, bytes: &[u8]) -> Result<Settings, SettingsFault>
    ensures { Gives (λ settings. settings) result (grammar.settings bytes.now) }
{
    if bytes.len() > MAX_LENGTH {
        return Err(SettingsFault::TooLong {
            length: bytes.len() as u64,
        });
    }
    let value = json_of(alloc, bytes)?;
    settings_of(alloc, &value)
}
