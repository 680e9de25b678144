// The keys that parsers share.
ghost use Rattle.std.specs.Prelude.{◌≡◌};
ghost use Rattle.serde_json.specs.View.{view};
ghost use Rattle.settings_text.specs.Outcome.{Gives};
ghost use Rattle.settings_text.specs.Parsers as parsers;

use crate::fault::SettingsFault;
use crate::kinds::text_or;
use crate::parsing::ParserKeys;
use crate::words::is_one_of;
use crate::{severities, times};
use serde_json::Value;
use std::alloc::Global;

pub fn is_key(name: &str) -> bool
    ensures { result ≡ parsers.is_key name.now }
{
    is_one_of(name, &["parse_from", "parse_to", "timestamp", "severity"])
}

/// The keys of a parser whose texts tell time and severity themselves.
pub fn is_field_key(name: &str) -> bool
    ensures { result ≡ parsers.is_field_key name.now }
{
    is_one_of(name, &["parse_from", "parse_to"])
}

#[tactic(auto, unfolding(crate::specs::Parsers::read))]
pub fn read(alloc: Global, object: &Value, at: &str) -> Result<ParserKeys, SettingsFault>
    ensures { Gives (λ parser. parser) result (parsers.read at.now (view object.now)) }
{
    let parse_from = text_or(alloc, object, at, "parse_from", "body")?;
    let parse_to = text_or(alloc, object, at, "parse_to", "attributes")?;
    let timestamp = times::optional_block(alloc, object, at, "timestamp")?;
    let severity = severities::optional_block(alloc, object, at, "severity")?;
    Ok(ParserKeys {
        parse_from,
        parse_to,
        timestamp,
        severity,
    })
}

/// The keys of a parser whose texts tell time and severity themselves.
#[tactic(auto, unfolding(crate::specs::Parsers::read_fields))]
pub fn read_fields(alloc: Global, object: &Value, at: &str) -> Result<ParserKeys, SettingsFault>
    ensures { Gives (λ parser. parser) result (parsers.read_fields at.now (view object.now)) }
{
    let parse_from = text_or(alloc, object, at, "parse_from", "body")?;
    let parse_to = text_or(alloc, object, at, "parse_to", "attributes")?;
    Ok(ParserKeys {
        parse_from,
        parse_to,
        timestamp: None,
        severity: None,
    })
}
