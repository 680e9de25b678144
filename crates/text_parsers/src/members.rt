// Members of an entry that is made.
ghost use Rattle.std.specs.Prelude.{◌≡◌, ◌<◌, length, OnOk};
ghost use Rattle.std.specs.BTreeMap.{insert_entry};
ghost use Rattle.std.specs.Cmp.Lexicographic.{slice_cmp};
ghost use Rattle.std.specs.Ordering.{nat_cmp};
ghost use Rattle.entry_model.specs.Datum.{text as text_datum};
ghost use Rattle.entry_model.specs.Places.{value_set_at};
ghost use Rattle.entry_model.specs.Seen.{seen};

use entry_model::{Fields, FieldsBuilder, Text, Value};
use std::alloc::{AllocError, Global};

/// Puts a text into the members. That of an earlier one of the name goes.
pub fn put(
    alloc: Global,
    members: &mut FieldsBuilder,
    key: Text,
    value: &str,
) -> Result<(), AllocError>
    ensures { OnOk result (seen members.new.entries ≡ insert_entry (slice_cmp nat_cmp) (seen members.old.entries) key (text_datum value.now)) }
{
    let value = Text::from_str(alloc, value)?;
    members.insert(key, Value::Text(value))?;
    Ok(())
}

/// Puts a text at the place of a member, whose value goes.
pub fn set(alloc: Global, members: &mut Fields, at: usize, value: &str) -> Result<(), AllocError>
    requires { at < length members.old.entries }
    ensures { OnOk result (seen members.new.entries ≡ value_set_at (seen members.old.entries) at (text_datum value.now)) }
{
    let value = Text::from_str(alloc, value)?;
    members.set_at(at, Value::Text(value));
    Ok(())
}
