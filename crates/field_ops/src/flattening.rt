// Flattening a map into the one that holds it.
ghost use Rattle.std.specs.Prelude.{◌≡◌, ◌≢◌, [], OnOk, OnErr, IfOk, IfErr, Ok, Err, Some, IsTrue};
ghost use Rattle.entry_model.specs.Datum.{datum, fields, Members, is_map};
ghost use Rattle.entry_model.specs.LogRecord.{log_record, members_in};
ghost use Rattle.field_paths.specs.MapOf.{members_seen};
ghost use Rattle.field_paths.specs.Members.{member_at};
ghost use Rattle.field_ops.specs.Outcome.{Outcome, where_found};
ghost use Rattle.field_ops.specs.Roots.{root_place};
ghost use Rattle.field_ops.specs.Rows.{flattened, member_of, with_members, raised_in, where_a_map};
ghost use Rattle.field_ops.specs.declared.fault.FieldFault.TheVariants.{Memory};

use crate::FieldFault;
use crate::raising::raise_in_place;
use entry_model::{Entry, Fields, FieldsBuilder, Text, Value};
use field_paths::{FieldPath, Root};
use std::alloc::{AllocError, Global};

/// At most so many members are put one by one among those of a map of any length.
pub(crate) const FEW: usize = 64;

/// Puts the members of a map into the map that holds it, in its place.
#[derive(Drop)]
pub struct Flatten {
    parent: FieldPath,
    name: Text,
}

impl Flatten {
    /// The path has at least one member.
    pub fn new(field: FieldPath) -> Flatten
        requires { field.names ≢ [] }
        ensures { field ≡ member_of result.parent result.name }
    {
        let (parent, name) = field.split_last();
        Flatten { parent, name }
    }

    /// `Missing` exactly where there is no value, and `NotAMap` exactly where the value is no map. Where a member of
    /// the map has the name of one beside the map, the raised one stands.
    pub fn apply(&self, alloc: Global, entry: &mut Entry) -> Result<(), FieldFault>
        ensures ok { OnOk result (flattened self.now.parent self.now.name (log_record entry.old)
            ≡ Ok (log_record entry.new)) }
        ensures fault { IfErr result (λ fault. fault ≢ Memory
            → flattened self.now.parent self.now.name (log_record entry.old) ≡ Err fault) }
        ensures err { OnErr result (log_record entry.new ≡ log_record entry.old) }
    {
        if !self.parent.is_root() {
            return self.flatten_below(alloc, entry);
        }
        flatten_root(alloc, self.parent.root(), entry, &self.name)
    }

    fn flatten_below(&self, alloc: Global, entry: &mut Entry) -> Result<(), FieldFault>
        ensures ok { OnOk result (flattened self.now.parent self.now.name (log_record entry.old)
            ≡ Ok (log_record entry.new)) }
        ensures fault { IfErr result (λ fault. fault ≢ Memory
            → flattened self.now.parent self.now.name (log_record entry.old) ≡ Err fault) }
        ensures err { OnErr result (log_record entry.new ≡ log_record entry.old) }
    {
        let Some(holder) = self.parent.get(entry) else {
            return Err(FieldFault::Missing);
        };
        let changed = flatten_member(alloc, holder, &self.name)?;
        self.parent.set(alloc, entry, changed)?;
        Ok(())
    }
}

/// Flattens a map that a root of the entry holds.
fn flatten_root(alloc: Global, root: Root, entry: &mut Entry, name: &Text) -> Result<(), FieldFault>
    ensures ok { OnOk result (flattened (root_place root) name.now (log_record entry.old) ≡ Ok (log_record entry.new)) }
    ensures fault { IfErr result (λ fault. fault ≢ Memory
        → flattened (root_place root) name.now (log_record entry.old) ≡ Err fault) }
    ensures err { OnErr result (log_record entry.new ≡ log_record entry.old) }
{
    match root {
        Root::Body => flatten_in(alloc, &mut entry.body, name),
        Root::Attributes => flatten_in(alloc, &mut entry.attributes, name),
        Root::Resource => flatten_in(alloc, &mut entry.resource, name),
    }
}

fn flatten_in(alloc: Global, holder: &mut Value, name: &Text) -> Result<(), FieldFault>
    ensures ok { OnOk result ((raised : Members)
        × (member_at name.now (members_in (datum holder.old)) ≡ Some (fields raised))
        × (datum holder.new ≡ raised_in name.now (datum holder.old) raised)) }
    ensures fault { IfErr result (λ fault. fault ≢ Memory → (then_so : Members → Outcome)
        → where_found (member_at name.now (members_in (datum holder.old))) (λ value. where_a_map value then_so)
        ≡ Err fault) }
    ensures err { OnErr result (datum holder.new ≡ datum holder.old) }
    ensures map { IsTrue (is_map holder.old) → IsTrue (is_map holder.new) }
{
    if raise_in_place(holder, name)? {
        return Ok(());
    }
    // What a raised member replaces has to come back on a fault.
    *holder = flatten_member(alloc, holder, name)?;
    Ok(())
}

/// The map that holds a member, with the members of that member in its place.
fn flatten_member(alloc: Global, holder: &Value, name: &Text) -> Result<Value, FieldFault>
    ensures ok { IfOk result (λ changed. (raised : Members)
        × (member_at name.now (members_in (datum holder.now)) ≡ Some (fields raised))
        × (datum changed ≡ raised_in name.now (datum holder.now) raised)) }
    ensures fault { IfErr result (λ fault. fault ≢ Memory → (then_so : Members → Outcome)
        → where_found (member_at name.now (members_in (datum holder.now))) (λ value. where_a_map value then_so)
        ≡ Err fault) }
{
    let Value::Map(mut members) = holder.copy(alloc)? else {
        return Err(FieldFault::Missing);
    };
    let Some(member) = members.remove(name) else {
        return Err(FieldFault::Missing);
    };
    let Value::Map(raised) = member else {
        return Err(FieldFault::NotAMap);
    };
    let all = raise(alloc, raised, members)?;
    Ok(Value::Map(all))
}

/// Puts each of some members among others, in the place of one with its name.
pub(crate) fn raise(alloc: Global, raised: Fields, members: Fields) -> Result<Fields, AllocError>
    ensures { IfOk result (λ all. members_seen all.entries
        ≡ with_members (members_seen raised.entries) (members_seen members.entries)) }
{
    let mut all = FieldsBuilder::from_fields(alloc, members);
    for (name, value) in raised.into_members() {
        all.insert(name, value)?;
    }
    all.finish()
}
