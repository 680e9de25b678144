// Putting a value at a path.
ghost use Rattle.std.specs.Prelude.{◌≡◌, ◌∷◌, IfOk, OnOk, OnErr, IfErr, IsTrue, None, Some, option_and_then};
ghost use Rattle.std.specs.BTreeMap.{insert_entry};
ghost use Rattle.std.specs.Cmp.Lexicographic.{slice_cmp};
ghost use Rattle.std.specs.Ordering.{nat_cmp};
ghost use Rattle.entry_model.specs.Datum.{Members, datum, null, is_map};
ghost use Rattle.entry_model.specs.LogRecord.{LogRecord, log_record};
ghost use Rattle.field_paths.specs.Change.{of_map, with_value, set_at, with_empty_map};
ghost use Rattle.field_paths.specs.MapOf.{map_of};
ghost use Rattle.field_paths.specs.declared.path.SetFault.TheVariants.{NotAMap};

use crate::{FieldPath, Root, SetFault};
use entry_model::{Entry, Fields, Text, Value};
use std::alloc::{AllocError, Global};
use std::mem;

impl FieldPath {
    /// Puts the value at the path, and makes the maps that are missing on the way; a null counts as an empty map.
    ///
    /// `NotAMap` exactly where a value on the way is of another kind, or the path is `attributes` or `resource`
    /// alone and the value is no map. On any fault the entry is as it was.
    pub fn set(&self, alloc: Global, entry: &mut Entry, value: Value) -> Result<(), SetFault>
        ensures ok { OnOk result (set_at self.now (datum value) (log_record entry.old) ≡ Some (log_record entry.new)) }
        ensures err { OnErr result (log_record entry.new ≡ log_record entry.old) }
        ensures not_a_map { IfErr result (λ fault. fault ≡ NotAMap → set_at self.now (datum value) (log_record entry.old) ≡ None) }
    {
        let names = self.names.as_slice();
        match self.root {
            Root::Body => put(alloc, &mut entry.body, names, value),
            Root::Attributes => put_in_map(alloc, &mut entry.attributes, names, value),
            Root::Resource => put_in_map(alloc, &mut entry.resource, names, value),
        }
    }

    /// Makes the root in which the path begins an empty map.
    pub fn empty_root(&self, alloc: Global, entry: &mut Entry)
        ensures { log_record entry.new ≡ with_empty_map self.now.root (log_record entry.old) }
    {
        let empty = Value::Map(Fields::new(alloc));
        match self.root {
            Root::Body => entry.body = empty,
            Root::Attributes => entry.attributes = empty,
            Root::Resource => entry.resource = empty,
        }
    }
}

fn put_in_map(
    alloc: Global,
    target: &mut Value,
    names: &[Text],
    value: Value,
) -> Result<(), SetFault>
    requires { IsTrue (is_map target.old) }
    ensures ok { OnOk result (with_value names.now (datum value) (datum target.old) ≡ Some (datum target.new)) }
    ensures map { IsTrue (is_map target.new) }
    ensures err { OnErr result (datum target.new ≡ datum target.old) }
    ensures not_a_map { IfErr result (λ fault. fault ≡ NotAMap → (made : Members → LogRecord)
        → option_and_then (λ root. of_map root made) (with_value names.now (datum value) (datum target.old)) ≡ None) }
{
    if names.is_empty() && !is_a_map(&value) {
        return Err(SetFault::NotAMap);
    }
    put(alloc, target, names, value)
}

fn is_a_map(value: &Value) -> bool
    ensures { result ≡ is_map value.now }
{
    matches!(value, Value::Map(_))
}

#[cycle(put)]
fn put(alloc: Global, target: &mut Value, names: &[Text], value: Value) -> Result<(), SetFault>
    ensures ok { OnOk result (with_value names.now (datum value) (datum target.old) ≡ Some (datum target.new)) }
    ensures err { OnErr result (datum target.new ≡ datum target.old) }
    ensures not_a_map { IfErr result (λ fault. fault ≡ NotAMap → with_value names.now (datum value) (datum target.old) ≡ None) }
{
    let Some((name, rest)) = names.split_first() else {
        *target = value;
        return Ok(());
    };
    match mem::replace(target, Value::Null) {
        Value::Map(mut members) => {
            let outcome = put_member(alloc, &mut members, name, rest, value);
            *target = Value::Map(members);
            outcome
        }
        Value::Null => {
            *target = within_maps(alloc, names, value)?;
            Ok(())
        }
        other => {
            *target = other;
            Err(SetFault::NotAMap)
        }
    }
}

#[cycle(put)]
fn put_member(
    alloc: Global,
    members: &mut Fields,
    name: &Text,
    names: &[Text],
    value: Value,
) -> Result<(), SetFault>
    ensures ok { OnOk result (with_value (name.now ∷ names.now) (datum value) (map_of members.old.entries)
        ≡ Some (map_of members.new.entries)) }
    ensures err { OnErr result (map_of members.new.entries ≡ map_of members.old.entries) }
    ensures not_a_map { IfErr result (λ fault. fault ≡ NotAMap
        → with_value (name.now ∷ names.now) (datum value) (map_of members.old.entries) ≡ None) }
{
    // The last name is looked for once: what is there is replaced.
    if names.is_empty() {
        insert(alloc, members, name, value)?;
        return Ok(());
    }
    if let Some(member) = members.get_mut(name) {
        return put(alloc, member, names, value);
    }
    let member = within_maps(alloc, names, value)?;
    insert(alloc, members, name, member)?;
    Ok(())
}

// The value under these names, each in a map of its own.
fn within_maps(alloc: Global, names: &[Text], value: Value) -> Result<Value, AllocError>
    ensures { IfOk result (λ made. with_value names.now (datum value) null ≡ Some (datum made)) }
{
    let Some((name, rest)) = names.split_first() else {
        return Ok(value);
    };
    let member = within_maps(alloc, rest, value)?;
    let mut fields = Fields::new(alloc);
    insert(alloc, &mut fields, name, member)?;
    Ok(Value::Map(fields))
}

fn insert(alloc: Global, fields: &mut Fields, name: &Text, value: Value) -> Result<(), AllocError>
    ensures ok { OnOk result (fields.new.entries ≡ insert_entry (slice_cmp nat_cmp) fields.old.entries name.now value) }
    ensures err { OnErr result (fields.new.entries ≡ fields.old.entries) }
{
    let name = name.share()?;
    fields.insert(name, value)?;
    Ok(())
}
