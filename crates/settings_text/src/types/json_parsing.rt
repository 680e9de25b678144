// The type `json_parser`.
ghost use Rattle.std.specs.Prelude.{◌≡◌};
ghost use Rattle.serde_json.specs.View.{view};
ghost use Rattle.settings_text.specs.Outcome.{Gives};
ghost use Rattle.settings_text.specs.Types.JsonParsing as json_parsing;

use crate::fault::SettingsFault;
use crate::parsers;
use crate::settings::OpKind;
use serde_json::Value;
use std::alloc::Global;

pub fn is_key(name: &str) -> bool
    ensures { result ≡ json_parsing.is_key name.now }
{
    parsers::is_key(name)
}

pub fn read(alloc: Global, object: &Value, at: &str) -> Result<OpKind, SettingsFault>
    ensures { Gives (λ kind. kind) result (json_parsing.read at.now (view object.now)) }
{
    Ok(OpKind::Json {
        parser: parsers::read(alloc, object, at)?,
    })
}
