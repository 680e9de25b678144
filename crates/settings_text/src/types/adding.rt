// The type `add`.
ghost use Rattle.std.specs.Prelude.{◌≡◌};
ghost use Rattle.serde_json.specs.View.{view};
ghost use Rattle.settings_text.specs.Outcome.{Gives};
ghost use Rattle.settings_text.specs.Types.Adding as adding;

use crate::fault::SettingsFault;
use crate::kinds::{text, value};
use crate::settings::OpKind;
use crate::words::is_one_of;
use serde_json::Value;
use std::alloc::Global;

pub fn is_key(name: &str) -> bool
    ensures { result ≡ adding.is_key name.now }
{
    is_one_of(name, &["field", "value"])
}

pub fn read(alloc: Global, object: &Value, at: &str) -> Result<OpKind, SettingsFault>
    ensures { Gives (λ kind. kind) result (adding.read at.now (view object.now)) }
{
    Ok(OpKind::Add {
        field: text(alloc, object, at, "field")?,
        value: value(alloc, object, at, "value")?,
    })
}
