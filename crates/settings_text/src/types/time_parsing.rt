// The type `time_parser`.
ghost use Rattle.std.specs.Prelude.{◌≡◌};
ghost use Rattle.serde_json.specs.View.{view};
ghost use Rattle.settings_text.specs.Outcome.{Gives};
ghost use Rattle.settings_text.specs.Types.TimeParsing as time_parsing;

use crate::fault::SettingsFault;
use crate::settings::OpKind;
use crate::times;
use serde_json::Value;
use std::alloc::Global;

pub fn is_key(name: &str) -> bool
    ensures { result ≡ time_parsing.is_key name.now }
{
    times::is_key(name)
}

pub fn read(alloc: Global, object: &Value, at: &str) -> Result<OpKind, SettingsFault>
    ensures { Gives (λ kind. kind) result (time_parsing.read at.now (view object.now)) }
{
    Ok(OpKind::Time(times::read(alloc, object, at)?))
}
