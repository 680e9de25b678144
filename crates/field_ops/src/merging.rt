// Putting members among those of a map.
ghost use Rattle.std.specs.Prelude.{◌≡◌, ◌≢◌, OnOk, OnErr, IfOk, IfErr, None, Ok, Err, option_map};
ghost use Rattle.entry_model.specs.Datum.{datum};
ghost use Rattle.entry_model.specs.Lawful.{KeysAscend};
ghost use Rattle.entry_model.specs.LogRecord.{log_record};
ghost use Rattle.field_ops.specs.Rows as rows;
ghost use Rattle.field_ops.specs.Rows.{merged, with_members};
ghost use Rattle.field_ops.specs.declared.fault.FieldFault.TheVariants.{Memory};
ghost use Rattle.field_paths.specs.MapOf.{members_seen};

use crate::FieldFault;
use crate::flattening::{FEW, raise};
use entry_model::{Entry, Fields, Value, copy_fields};
use field_paths::FieldPath;
use std::alloc::{AllocError, Global};

/// Puts members into the map at a field, where each stands in the place of one with its name. Where no map is, they become
/// the map there.
///
/// `NotAMap` exactly where a map can't be put there.
pub fn put_members(
    alloc: Global,
    field: &FieldPath,
    members: Fields,
    entry: &mut Entry,
) -> Result<(), FieldFault>
    ensures ok { OnOk result (merged field.now (members_seen members.entries) (log_record entry.old)
        ≡ Ok (log_record entry.new)) }
    ensures fault { IfErr result (λ fault. fault ≢ Memory
        → merged field.now (members_seen members.entries) (log_record entry.old) ≡ Err fault) }
    ensures err { OnErr result (log_record entry.new ≡ log_record entry.old) }
{
    let value = joined(alloc, field.get(entry), members)?;
    field.set(alloc, entry, value)?;
    Ok(())
}

// What stands goes among the members where it is little and no more than they are, and else they go among a copy of it.
fn joined(alloc: Global, there: Option<&Value>, mut members: Fields) -> Result<Value, AllocError>
    ensures { IfOk result (λ value. datum value
        ≡ rows.joined (members_seen members.entries) (option_map (λ held. datum held.now) there.entry)) }
{
    let Some(Value::Map(held)) = there else {
        return Ok(Value::Map(members));
    };
    if held.len() <= FEW && held.len() <= members.len() {
        put_absent(alloc, held, &mut members)?;
        return Ok(Value::Map(members));
    }
    let all = raise(alloc, members, copy_fields(alloc, held)?)?;
    Ok(Value::Map(all))
}

// Puts a copy of each held member among the members where none has its name.
fn put_absent(alloc: Global, held: &Fields, members: &mut Fields) -> Result<(), AllocError>
    requires held { KeysAscend None (members_seen held.now.entries) }
    requires members { KeysAscend None (members_seen members.old.entries) }
    ensures { OnOk result (members_seen members.new.entries
        ≡ with_members (members_seen members.old.entries) (members_seen held.now.entries)) }
{
    for (name, value) in held.members() {
        if let Err(at) = members.place(name) {
            members.insert_at(at, name.share()?, value.copy(alloc)?)?;
        }
    }
    Ok(())
}
