// The type `move`.
ghost use Rattle.std.specs.Prelude.{◌≡◌};
ghost use Rattle.serde_json.specs.View.{view};
ghost use Rattle.settings_text.specs.Outcome.{Gives};
ghost use Rattle.settings_text.specs.Types.Moving as moving;

use crate::fault::SettingsFault;
use crate::kinds::text;
use crate::settings::OpKind;
use crate::words::is_one_of;
use serde_json::Value;
use std::alloc::Global;

pub fn is_key(name: &str) -> bool
    ensures { result ≡ moving.is_key name.now }
{
    is_one_of(name, &["from", "to"])
}

pub fn read(alloc: Global, object: &Value, at: &str) -> Result<OpKind, SettingsFault>
    ensures { Gives (λ kind. kind) result (moving.read at.now (view object.now)) }
{
    Ok(OpKind::Move {
        from: text(alloc, object, at, "from")?,
        to: text(alloc, object, at, "to")?,
    })
}
