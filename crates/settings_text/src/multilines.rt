// The key `multiline`.
ghost use Rattle.std.specs.Prelude.{◌≡◌, codes, []};
ghost use Rattle.serde_json.specs.View.{view};
ghost use Rattle.settings_text.specs.Kinds as kinds;
ghost use Rattle.settings_text.specs.Multilines as multilines;
ghost use Rattle.settings_text.specs.Outcome.{Gives};

use crate::fault::SettingsFault;
use crate::kinds::{check_known, either_text};
use crate::place::place;
use crate::settings::Multiline;
use crate::words::{Words, is_one_of};
use serde_json::Value;
use std::alloc::Global;

/// The keys of `multiline`.
struct MultilineKeys;

impl Words for MultilineKeys {
    ghost use Rattle.settings_text.specs.Multilines.{is_key};

    ghost test = { λ _. is_key };

    fn has(&self, name: &str) -> bool {
        is_one_of(name, &["line_start_pattern", "line_end_pattern"])
    }
}

/// An object of exactly one of these keys.
fn block(alloc: Global, value: &Value) -> Result<Multiline, SettingsFault>
    ensures { Gives (λ multiline. multiline) result (multilines.multiline (codes "multiline") (view value.now)) }
{
    let Some(members) = value.as_object() else {
        return Err(SettingsFault::WrongKind {
            key: place(alloc, "", "multiline")?,
        });
    };
    check_known(alloc, members, "multiline.", &MultilineKeys)?;
    let (starts, pattern) = either_text(
        alloc,
        value,
        "multiline",
        "multiline.",
        "line_start_pattern",
        "line_end_pattern",
    )?;
    if starts {
        Ok(Multiline::Start(pattern))
    } else {
        Ok(Multiline::End(pattern))
    }
}

/// Lines are tokens where the key is missing.
pub fn multiline(alloc: Global, object: &Value) -> Result<Multiline, SettingsFault>
    ensures { Gives (λ multiline. multiline) result
        (kinds.may [] (codes "multiline") multilines.multiline Multiline.Lines (view object.now)) }
{
    match object.get("multiline") {
        Some(value) => block(alloc, value),
        None => Ok(Multiline::Lines),
    }
}
