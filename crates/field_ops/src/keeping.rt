// Keeping the listed members of roots, in place.
ghost use Rattle.std.specs.Prelude.{◌≡◌, None, IsTrue, cond};
ghost use Rattle.std.specs.List.{list_all};
ghost use Rattle.entry_model.specs.Datum.{datum, fields, is_map};
ghost use Rattle.entry_model.specs.Lawful.{KeysAscend};
ghost use Rattle.entry_model.specs.LogRecord.{log_record, members_in};
ghost use Rattle.field_ops.specs.Kept.{is_member, first_is, any_at_member, members_where};
ghost use Rattle.field_ops.specs.Roots.{same_root, any_root};
ghost use Rattle.field_ops.specs.Rows.{retained};
ghost use Rattle.field_paths.specs.MapOf.{members_seen};

use crate::root::begins_any;
use entry_model::{Entry, Fields, Text, Value};
use field_paths::{FieldPath, Root};
use std::alloc::Global;
use std::mem;

/// Whether each field is a member of a root.
pub fn are_members(listed: &[FieldPath]) -> bool
    ensures { result ≡ list_all is_member listed.now }
{
    for field in listed {
        if field.names().len() != 1 {
            return false;
        }
    }
    true
}

/// Keeps the members that are listed, of each root of which one is, and copies nothing. A root that is no map has none.
pub fn keep_members(alloc: Global, listed: &[FieldPath], entry: &mut Entry)
    requires { IsTrue (list_all is_member listed.now) }
    ensures { log_record entry.new ≡ retained listed.now (log_record entry.old) }
{
    keep_in_root(alloc, listed, Root::Body, &mut entry.body);
    keep_in_root(alloc, listed, Root::Attributes, &mut entry.attributes);
    keep_in_root(alloc, listed, Root::Resource, &mut entry.resource);
}

fn keep_in_root(alloc: Global, listed: &[FieldPath], root: Root, value: &mut Value)
    ensures kept { datum value.new ≡ cond (any_root (same_root root) listed.now)
        (fields (members_where (any_at_member listed.now root) (members_in (datum value.old)))) (datum value.old) }
    ensures ascend { IsTrue (any_root (same_root root) listed.now) → KeysAscend None (members_in (datum value.old)) }
    ensures map { IsTrue (is_map value.old) → IsTrue (is_map value.new) }
{
    if begins_any(root, listed) {
        let whole = mem::replace(value, Value::Null);
        *value = Value::Map(kept_of(alloc, listed, root, whole));
    }
}

fn kept_of(alloc: Global, listed: &[FieldPath], root: Root, whole: Value) -> Fields
    ensures kept { members_seen result.entries ≡ members_where (any_at_member listed.now root) (members_in (datum whole)) }
    ensures ascend { KeysAscend None (members_in (datum whole)) }
{
    let Value::Map(mut members) = whole else {
        return Fields::new(alloc);
    };
    keep_listed_members(listed, root, &mut members);
    members
}

fn keep_listed_members(listed: &[FieldPath], root: Root, members: &mut Fields)
    ensures kept { members_seen members.new.entries
        ≡ members_where (any_at_member listed.now root) (members_seen members.old.entries) }
    ensures ascend { KeysAscend None (members_seen members.old.entries) }
{
    let _len = members.len();
    members.retain(|member| lists(listed, root, &member.0));
}

/// Whether one of the fields is this member of the root, or below it.
fn lists(listed: &[FieldPath], root: Root, name: &Text) -> bool
    ensures { result ≡ any_at_member listed.now root name.now }
{
    for field in listed {
        if root == field.root() && begins_with(field.names(), name) {
            return true;
        }
    }
    false
}

fn begins_with(names: &[Text], name: &Text) -> bool
    ensures { result ≡ first_is name.now names.now }
{
    match names.first() {
        Some(first) => first == name,
        None => false,
    }
}
