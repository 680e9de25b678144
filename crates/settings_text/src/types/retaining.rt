// The type `retain`.
ghost use Rattle.std.specs.Prelude.{◌≡◌};
ghost use Rattle.serde_json.specs.View.{view};
ghost use Rattle.settings_text.specs.Outcome.{Gives};
ghost use Rattle.settings_text.specs.Types.Retaining as retaining;

use crate::fault::SettingsFault;
use crate::kinds::some_texts;
use crate::settings::OpKind;
use serde_json::Value;
use std::alloc::Global;

pub fn is_key(name: &str) -> bool
    ensures { result ≡ retaining.is_key name.now }
{
    name == "fields"
}

pub fn read(alloc: Global, object: &Value, at: &str) -> Result<OpKind, SettingsFault>
    ensures { Gives (λ kind. kind) result (retaining.read at.now (view object.now)) }
{
    Ok(OpKind::Retain {
        fields: some_texts(alloc, object, at, "fields")?,
    })
}
