// The type `flatten`.
ghost use Rattle.std.specs.Prelude.{◌≡◌};
ghost use Rattle.serde_json.specs.View.{view};
ghost use Rattle.settings_text.specs.Outcome.{Gives};
ghost use Rattle.settings_text.specs.Types.Flattening as flattening;

use crate::fault::SettingsFault;
use crate::kinds::text;
use crate::settings::OpKind;
use serde_json::Value;
use std::alloc::Global;

pub fn is_key(name: &str) -> bool
    ensures { result ≡ flattening.is_key name.now }
{
    name == "field"
}

pub fn read(alloc: Global, object: &Value, at: &str) -> Result<OpKind, SettingsFault>
    ensures { Gives (λ kind. kind) result (flattening.read at.now (view object.now)) }
{
    Ok(OpKind::Flatten {
        field: text(alloc, object, at, "field")?,
    })
}
