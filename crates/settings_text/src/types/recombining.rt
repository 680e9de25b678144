// The type `recombine`.
ghost use Rattle.std.specs.Prelude.{◌≡◌, codes, false};
ghost use Rattle.serde_json.specs.View.{view};
ghost use Rattle.settings_text.specs.Kinds as kinds;
ghost use Rattle.settings_text.specs.Outcome.{Gives};
ghost use Rattle.settings_text.specs.Types.Recombining as recombining;

use crate::fault::SettingsFault;
use crate::kinds::{either_text, optional_text, text, text_or, whole};
use crate::settings::OpKind;
use crate::words::{is_one_of, named_or};
use entry_model::Text;
use serde_json::Value;
use std::alloc::Global;

/// The most entries that a group may have, and as many as it may have where nothing is written.
const MOST_ENTRIES: u32 = 1_000_000;

const USUAL_ENTRIES: u32 = 1_000;

pub fn is_key(name: &str) -> bool
    ensures { result ≡ recombining.is_key name.now }
{
    is_one_of(
        name,
        &[
            "combine_field",
            "is_first_entry",
            "is_last_entry",
            "combine_with",
            "max_batch_size",
            "overwrite_with",
            "source_identifier",
        ],
    )
}

/// The object whose keys stand behind it and a point.
fn object_place(at: &str) -> &str
    ensures { result.now ≡ recombining.object_place at.now }
{
    match at.strip_suffix('.') {
        Some(place) => place,
        None => at,
    }
}

/// Whether the mark is that of first entries, and its expression.
fn marked(alloc: Global, object: &Value, at: &str) -> Result<(bool, Text), SettingsFault>
    ensures { Gives (λ mark. mark) result (recombining.marked at.now (view object.now)) }
{
    let place = object_place(at);
    either_text(alloc, object, place, at, "is_first_entry", "is_last_entry")
}

/// Whether the newest entry of a group goes on.
fn newest(alloc: Global, object: &Value, at: &str) -> Result<bool, SettingsFault>
    ensures { Gives (λ newest. newest) result
        (kinds.may at.now (codes "overwrite_with") (kinds.name recombining.overwriting_named) false (view object.now)) }
{
    let words = [("oldest", false), ("newest", true)];
    named_or(alloc, object, at, "overwrite_with", &words, false)
}

#[tactic(auto, unfolding(crate::specs::Types::Recombining::read))]
pub fn read(alloc: Global, object: &Value, at: &str) -> Result<OpKind, SettingsFault>
    ensures { Gives (λ kind. kind) result (recombining.read at.now (view object.now)) }
{
    let combine_field = text(alloc, object, at, "combine_field")?;
    let (first, mark) = marked(alloc, object, at)?;
    let combine_with = text_or(alloc, object, at, "combine_with", "\n")?;
    let max_batch_size = whole(
        alloc,
        object,
        at,
        "max_batch_size",
        1,
        MOST_ENTRIES,
        USUAL_ENTRIES,
    )?;
    let newest = newest(alloc, object, at)?;
    let source_identifier = optional_text(alloc, object, at, "source_identifier")?;
    Ok(OpKind::Recombine {
        combine_field,
        first,
        mark,
        combine_with,
        max_batch_size,
        newest,
        source_identifier,
    })
}
