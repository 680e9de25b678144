// The type `copy`.
ghost use Rattle.std.specs.Prelude.{◌≡◌};
ghost use Rattle.serde_json.specs.View.{view};
ghost use Rattle.settings_text.specs.Outcome.{Gives};
ghost use Rattle.settings_text.specs.Types.Copying as copying;

use crate::fault::SettingsFault;
use crate::kinds::text;
use crate::settings::OpKind;
use crate::words::is_one_of;
use serde_json::Value;
use std::alloc::Global;

pub fn is_key(name: &str) -> bool
    ensures { result ≡ copying.is_key name.now }
{
    is_one_of(name, &["from", "to"])
}

pub fn read(alloc: Global, object: &Value, at: &str) -> Result<OpKind, SettingsFault>
    ensures { Gives (λ kind. kind) result (copying.read at.now (view object.now)) }
{
    Ok(OpKind::Copy {
        from: text(alloc, object, at, "from")?,
        to: text(alloc, object, at, "to")?,
    })
}
