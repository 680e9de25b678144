// The type `filter`.
ghost use Rattle.std.specs.Prelude.{◌≡◌};
ghost use Rattle.serde_json.specs.View.{view};
ghost use Rattle.settings_text.specs.Outcome.{Gives};
ghost use Rattle.settings_text.specs.Types.Filtering as filtering;

use crate::fault::SettingsFault;
use crate::kinds::text;
use crate::settings::OpKind;
use serde_json::Value;
use std::alloc::Global;

pub fn is_key(name: &str) -> bool
    ensures { result ≡ filtering.is_key name.now }
{
    name == "expr"
}

pub fn read(alloc: Global, object: &Value, at: &str) -> Result<OpKind, SettingsFault>
    ensures { Gives (λ kind. kind) result (filtering.read at.now (view object.now)) }
{
    Ok(OpKind::Filter {
        expr: text(alloc, object, at, "expr")?,
    })
}
