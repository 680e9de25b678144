// Members of an entry that is made.
ghost use Rattle.std.specs.Prelude.{◌≡◌, OnOk, pos};
ghost use Rattle.entry_model.specs.Datum.{int, fields as map_datum, text as text_datum, members_of};
ghost use Rattle.entry_model.specs.Seen.{seen};
ghost use Rattle.syslog_parser.specs.Told.{put};

use entry_model::{Fields, FieldsBuilder, Text, Value};
use std::alloc::{AllocError, Global};

/// Puts a text into the members. That of an earlier one of the name goes.
pub(crate) fn put_text(
    alloc: Global,
    members: &mut FieldsBuilder,
    name: &str,
    value: Text,
) -> Result<(), AllocError>
    ensures { OnOk result (seen members.new.entries ≡ put (seen members.old.entries) (name.now, text_datum value)) }
{
    let name = Text::from_str(alloc, name)?;
    members.insert(name, Value::Text(value))?;
    Ok(())
}

/// As [`put_text`], of a number.
pub(crate) fn put_number(
    alloc: Global,
    members: &mut FieldsBuilder,
    name: &str,
    value: u8,
) -> Result<(), AllocError>
    ensures { OnOk result (seen members.new.entries ≡ put (seen members.old.entries) (name.now, int (pos value))) }
{
    let name = Text::from_str(alloc, name)?;
    members.insert(name, Value::Int(value as i64))?;
    Ok(())
}

/// As [`put_text`], of a map.
pub(crate) fn put_map(
    alloc: Global,
    members: &mut FieldsBuilder,
    name: &str,
    value: Fields,
) -> Result<(), AllocError>
    ensures { OnOk result (seen members.new.entries ≡ put (seen members.old.entries) (name.now, map_datum (members_of (seen value.entries)))) }
{
    let name = Text::from_str(alloc, name)?;
    members.insert(name, Value::Map(value))?;
    Ok(())
}
