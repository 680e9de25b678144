// The type `container`.
ghost use Rattle.std.specs.Prelude.{◌≡◌, codes, None};
ghost use Rattle.serde_json.specs.View.{view};
ghost use Rattle.settings_text.specs.Kinds as kinds;
ghost use Rattle.settings_text.specs.Outcome.{Gives};
ghost use Rattle.settings_text.specs.Types.ContainerReading as container_reading;

use crate::fault::SettingsFault;
use crate::kinds::flag;
use crate::parsing::FormatSpec;
use crate::settings::OpKind;
use crate::words::{is_one_of, named};
use serde_json::Value;
use std::alloc::Global;

pub fn is_key(name: &str) -> bool
    ensures { result ≡ container_reading.is_key name.now }
{
    is_one_of(name, &["format", "add_metadata_from_filepath"])
}

/// The format, where one is written.
fn format(alloc: Global, object: &Value, at: &str) -> Result<Option<FormatSpec>, SettingsFault>
    ensures { Gives (λ format. format) result
        (kinds.may at.now (codes "format") (kinds.given (kinds.name container_reading.format_named)) None (view object.now)) }
{
    let words = [
        ("docker", FormatSpec::Docker),
        ("crio", FormatSpec::Crio),
        ("containerd", FormatSpec::Containerd),
    ];
    match object.get("format") {
        Some(value) => Ok(Some(named(alloc, value, at, "format", &words)?)),
        None => Ok(None),
    }
}

pub fn read(alloc: Global, object: &Value, at: &str) -> Result<OpKind, SettingsFault>
    ensures { Gives (λ kind. kind) result (container_reading.read at.now (view object.now)) }
{
    Ok(OpKind::Container {
        format: format(alloc, object, at)?,
        add_metadata_from_filepath: flag(alloc, object, at, "add_metadata_from_filepath", true)?,
    })
}
