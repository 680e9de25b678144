// Raising the members of a member, without a copy of the map that holds it.
ghost use Rattle.std.specs.Prelude.{◌≡◌, ◌≢◌, OnOk, OnErr, IfOk, IfErr, Ok, Err, OnSome, IfSome, IfNone, Some, None, IsSome, IsTrue, false};
ghost use Rattle.entry_model.specs.Datum.{datum, fields, null, Members};
ghost use Rattle.entry_model.specs.Lawful.{KeysAscend};
ghost use Rattle.entry_model.specs.LogRecord.{members_in};
ghost use Rattle.field_paths.specs.MapOf.{members_seen, map_of};
ghost use Rattle.field_paths.specs.Members.{member_at, with_member, without_member};
ghost use Rattle.field_ops.specs.Inner.Names.{without_members, AreDisjoint, AreNamedIn};
ghost use Rattle.field_ops.specs.Outcome.{Outcome, where_found};
ghost use Rattle.field_ops.specs.Rows.{with_members, raised_in, where_a_map};
ghost use Rattle.field_ops.specs.declared.fault.FieldFault.TheVariants.{NotAMap, Memory};

use crate::FieldFault;
use crate::flattening::FEW;
use entry_model::{Fields, Text, Value};
use std::alloc::AllocError;
use std::mem;

/// Whether the raised members are few, and none has the name of a member beside them.
fn fit_in_place(raised: &Fields, members: &Fields) -> bool
    ensures { IsTrue result → AreDisjoint (members_seen raised.now.entries) (members_seen members.now.entries) }
{
    if raised.len() > FEW {
        return false;
    }
    for (name, _value) in raised.members() {
        if members.contains_key(name) {
            return false;
        }
    }
    true
}

/// Puts the members of the map at the name in its place. Answers false, and changes nothing, where they are more than a few, or
/// one of them has the name of a member beside the map, or the map's own.
pub(crate) fn raise_in_place(holder: &mut Value, name: &Text) -> Result<bool, FieldFault>
    ensures ok { IfOk result (λ is_raised. IsTrue is_raised → (raised : Members)
        × (member_at name.now (members_in (datum holder.old)) ≡ Some (fields raised))
        × (datum holder.new ≡ raised_in name.now (datum holder.old) raised)) }
    ensures unchanged { IfOk result (λ is_raised. is_raised ≡ false → datum holder.new ≡ datum holder.old) }
    ensures fault { IfErr result (λ fault. fault ≢ Memory → (then_so : Members → Outcome)
        → where_found (member_at name.now (members_in (datum holder.old))) (λ value. where_a_map value then_so)
        ≡ Err fault) }
    ensures err { OnErr result (datum holder.new ≡ datum holder.old) }
{
    match mem::replace(holder, Value::Null) {
        Value::Map(mut members) => {
            let outcome = raise_among(&mut members, name);
            *holder = Value::Map(members);
            outcome
        }
        other => {
            *holder = other;
            Err(FieldFault::Missing)
        }
    }
}

/// Each name is put before the first value is moved: only a new name can want memory.
fn raise_among(members: &mut Fields, name: &Text) -> Result<bool, FieldFault>
    ensures ok { IfOk result (λ is_raised. IsTrue is_raised → (raised : Members)
        × (member_at name.now (members_seen members.old.entries) ≡ Some (fields raised))
        × (members_seen members.new.entries ≡ with_members raised (without_member name.now (members_seen members.old.entries)))) }
    ensures unchanged { IfOk result (λ is_raised. is_raised ≡ false
        → members_seen members.new.entries ≡ members_seen members.old.entries) }
    ensures fault { IfErr result (λ fault. fault ≢ Memory → (then_so : Members → Outcome)
        → where_found (member_at name.now (members_seen members.old.entries)) (λ value. where_a_map value then_so)
        ≡ Err fault) }
    ensures err { OnErr result (members_seen members.new.entries ≡ members_seen members.old.entries) }
{
    let raised = take_map(members, name)?;
    if !fit_in_place(&raised, members) {
        let whole = Value::Map(raised);
        put(members, name, whole);
        return Ok(false);
    }
    if let Err(fault) = reserve(&raised, members) {
        put(members, name, Value::Map(raised));
        return Err(fault.into());
    }
    fill(raised, members);
    remove(members, name);
    Ok(true)
}

/// Takes the map at the name, and leaves null there.
fn take_map(members: &mut Fields, name: &Text) -> Result<Fields, FieldFault>
    ensures ok { IfOk result (λ raised. member_at name.now (members_seen members.old.entries) ≡ Some (map_of raised.entries)) }
    ensures taken { OnOk result (members_seen members.new.entries ≡ with_member name.now null (members_seen members.old.entries)) }
    ensures fault { IfErr result (λ fault. (then_so : Members → Outcome)
        → where_found (member_at name.now (members_seen members.old.entries)) (λ value. where_a_map value then_so)
        ≡ Err fault) }
    ensures err { OnErr result (members_seen members.new.entries ≡ members_seen members.old.entries) }
    ensures ascend { KeysAscend None (members_seen members.old.entries) }
{
    let Some(member) = members.get_mut(name) else {
        return Err(FieldFault::Missing);
    };
    let Some(raised) = take_fields(member) else {
        return Err(FieldFault::NotAMap);
    };
    Ok(raised)
}

fn take_fields(value: &mut Value) -> Option<Fields>
    ensures some { IfSome result (λ taken. datum value.old ≡ map_of taken.entries) }
    ensures taken { OnSome result (datum value.new ≡ null) }
    ensures no_map { IfNone result ((then_so : Members → Outcome) → where_a_map (datum value.old) then_so ≡ Err NotAMap) }
    ensures none { IfNone result (datum value.new ≡ datum value.old) }
{
    match mem::replace(value, Value::Null) {
        Value::Map(taken) => Some(taken),
        other => {
            *value = other;
            None
        }
    }
}

/// Puts null at each name of the raised members, or at none.
fn reserve(raised: &Fields, members: &mut Fields) -> Result<(), AllocError>
    requires { AreDisjoint (members_seen raised.now.entries) (members_seen members.old.entries) }
    ensures put { OnOk result (with_members (members_seen raised.now.entries) (members_seen members.new.entries)
        ≡ with_members (members_seen raised.now.entries) (members_seen members.old.entries)) }
    ensures named { OnOk result (AreNamedIn (members_seen raised.now.entries) (members_seen members.new.entries)) }
    ensures err { OnErr result (members_seen members.new.entries ≡ members_seen members.old.entries) }
{
    for (name, _value) in raised.members() {
        if let Err(fault) = reserve_name(name, members) {
            remove_all(raised, members);
            return Err(fault);
        }
    }
    Ok(())
}

fn reserve_name(name: &Text, members: &mut Fields) -> Result<(), AllocError>
    ensures ok { OnOk result (members_seen members.new.entries ≡ with_member name.now null (members_seen members.old.entries)) }
    ensures err { OnErr result (members_seen members.new.entries ≡ members_seen members.old.entries) }
    ensures ascend { KeysAscend None (members_seen members.old.entries) }
{
    let _len = members.len();
    members.insert(name.share()?, Value::Null)
}

fn remove_all(names: &Fields, members: &mut Fields)
    ensures { members_seen members.new.entries
        ≡ without_members (members_seen names.now.entries) (members_seen members.old.entries) }
{
    for (name, _value) in names.members() {
        remove(members, name);
    }
}

/// Puts each raised member at its name.
fn fill(raised: Fields, members: &mut Fields)
    requires { AreNamedIn (members_seen raised.entries) (members_seen members.old.entries) }
    ensures { members_seen members.new.entries ≡ with_members (members_seen raised.entries) (members_seen members.old.entries) }
{
    for (name, value) in raised.into_members() {
        put(members, &name, value);
    }
}

fn put(members: &mut Fields, name: &Text, value: Value)
    requires { IsSome (member_at name.now (members_seen members.old.entries)) }
    ensures { members_seen members.new.entries ≡ with_member name.now (datum value) (members_seen members.old.entries) }
{
    if let Some(member) = members.get_mut(name) {
        *member = value;
    }
}

#[tactic(auto, using(crate::proofs::Entered::removed))]
fn remove(members: &mut Fields, name: &Text)
    ensures { members_seen members.new.entries ≡ without_member name.now (members_seen members.old.entries) }
{
    let _removed = members.remove(name);
}
