// The type `key_value_parser`.
ghost use Rattle.std.specs.Prelude.{◌≡◌, ◌∷◌, [], None, codes};
ghost use Rattle.serde_json.specs.View.{view};
ghost use Rattle.settings_text.specs.Kinds as kinds;
ghost use Rattle.settings_text.specs.Outcome.{Gives};
ghost use Rattle.settings_text.specs.Types.KeyValueParsing as key_value_parsing;

use crate::fault::SettingsFault;
use crate::names::is_delimiter;
use crate::parsers;
use crate::settings::OpKind;
use crate::words::{Words, is_one_of, tested};
use entry_model::Text;
use serde_json::Value;
use std::alloc::Global;

pub fn is_key(name: &str) -> bool
    ensures { result ≡ key_value_parsing.is_key name.now }
{
    is_one_of(name, &["delimiter", "pair_delimiter"]) || parsers::is_key(name)
}

/// What can part keys, values and pairs.
struct Delimiters;

impl Words for Delimiters {
    ghost use Rattle.settings_text.specs.Names.{is_delimiter};

    ghost test = { λ _. is_delimiter };

    fn has(&self, text: &str) -> bool {
        is_delimiter(text.as_bytes())
    }
}

/// Delimiters other than this one.
#[derive(Clone, Copy)]
struct OtherDelimiters<'d> {
    delimiter: &'d Text,
}

impl Words for OtherDelimiters<'_> {
    ghost use Rattle.std.specs.Prelude.{not, ◌&&◌};
    ghost use Rattle.std.specs.Str.{bytes_eq};
    ghost use Rattle.settings_text.specs.Names.{is_delimiter};

    ghost test = { λ others text. is_delimiter text && not (bytes_eq text others.delimiter.now) };

    fn has(&self, text: &str) -> bool {
        is_delimiter(text.as_bytes()) && text != self.delimiter.as_str()
    }
}

/// What parts a key from its value.
fn within(alloc: Global, object: &Value, at: &str) -> Result<Text, SettingsFault>
    ensures { Gives (λ delimiter. delimiter) result
        (kinds.may at.now (codes "delimiter") key_value_parsing.within (61 ∷ []) (view object.now)) }
{
    match object.get("delimiter") {
        Some(value) => tested(alloc, value, at, "delimiter", &Delimiters),
        None => Ok(Text::from_str(alloc, "=")?),
    }
}

/// What parts pairs, which may be missing.
fn between(
    alloc: Global,
    object: &Value,
    at: &str,
    delimiter: &Text,
) -> Result<Option<Text>, SettingsFault>
    ensures { Gives (λ between. between) result
        (kinds.may at.now (codes "pair_delimiter") (kinds.given (key_value_parsing.between delimiter.now)) None (view object.now)) }
{
    let others = OtherDelimiters { delimiter };
    match object.get("pair_delimiter") {
        Some(value) => Ok(Some(tested(alloc, value, at, "pair_delimiter", &others)?)),
        None => Ok(None),
    }
}

#[tactic(auto, unfolding(crate::specs::Types::KeyValueParsing::read))]
pub fn read(alloc: Global, object: &Value, at: &str) -> Result<OpKind, SettingsFault>
    ensures { Gives (λ kind. kind) result (key_value_parsing.read at.now (view object.now)) }
{
    let delimiter = within(alloc, object, at)?;
    let pair_delimiter = between(alloc, object, at, &delimiter)?;
    let parser = parsers::read(alloc, object, at)?;
    Ok(OpKind::KeyValue {
        delimiter,
        pair_delimiter,
        parser,
    })
}
