// Taking a value from a path.
ghost use Rattle.std.specs.Prelude.{◌≡◌, IfOk, OnOk, OnErr, IfErr, OnSome, IfNone, None, Some, ◌∷◌, option_map};
ghost use Rattle.entry_model.specs.Datum.{datum, is_map};
ghost use Rattle.entry_model.specs.LogRecord.{log_record};
ghost use Rattle.field_paths.specs.Change.{empty_root, without_value, take_at};
ghost use Rattle.field_paths.specs.MapOf.{map_of};
ghost use Rattle.field_paths.specs.ValueAt.{root_value, value_at, datum_at};

use crate::{FieldPath, Root, TakeFault};
use entry_model::{Entry, Fields, Text, Value};
use std::alloc::Global;
use std::mem;

impl FieldPath {
    /// Removes the value at the path and hands it back. A root that is taken leaves null for `body`, and an empty
    /// map for the others.
    ///
    /// `Missing` exactly where there is no value. On any fault the entry is as it was.
    pub fn take(&self, alloc: Global, entry: &mut Entry) -> Result<Value, TakeFault>
        ensures ok { IfOk result (λ value. datum_at self.now (log_record entry.old) ≡ Some (datum value)) }
        ensures taken { OnOk result (log_record entry.new ≡ take_at self.now (log_record entry.old)) }
        ensures missing { OnErr result (datum_at self.now (log_record entry.old) ≡ None) }
        ensures err { OnErr result (log_record entry.new ≡ log_record entry.old) }
    {
        let Some((name, rest)) = self.names.split_first() else {
            return Ok(take_root(alloc, self.root, entry));
        };
        let taken = match self.root {
            Root::Body => cut(&mut entry.body, name, rest),
            Root::Attributes => cut(&mut entry.attributes, name, rest),
            Root::Resource => cut(&mut entry.resource, name, rest),
        };
        taken.ok_or(TakeFault::Missing)
    }
}

fn take_root(alloc: Global, root: Root, entry: &mut Entry) -> Value
    ensures value { datum result ≡ root_value root (log_record entry.old) }
    ensures emptied { log_record entry.new ≡ empty_root root (log_record entry.old) }
{
    match root {
        Root::Body => mem::replace(&mut entry.body, Value::Null),
        Root::Attributes => mem::replace(&mut entry.attributes, Value::Map(Fields::new(alloc))),
        Root::Resource => mem::replace(&mut entry.resource, Value::Map(Fields::new(alloc))),
    }
}

#[cycle(cut)]
fn cut(target: &mut Value, name: &Text, names: &[Text]) -> Option<Value>
    ensures value { option_map datum result ≡ value_at (name.now ∷ names.now) (datum target.old) }
    ensures taken { OnSome result (datum target.new ≡ without_value name.now names.now (datum target.old)) }
    ensures none { IfNone result (datum target.new ≡ datum target.old) }
    ensures map { is_map target.new ≡ is_map target.old }
{
    match mem::replace(target, Value::Null) {
        Value::Map(mut members) => {
            let taken = cut_member(&mut members, name, names);
            *target = Value::Map(members);
            taken
        }
        other => {
            *target = other;
            None
        }
    }
}

#[cycle(cut)]
fn cut_member(members: &mut Fields, name: &Text, names: &[Text]) -> Option<Value>
    ensures value { option_map datum result ≡ value_at (name.now ∷ names.now) (map_of members.old.entries) }
    ensures taken { OnSome result (map_of members.new.entries
        ≡ without_value name.now names.now (map_of members.old.entries)) }
    ensures none { IfNone result (map_of members.new.entries ≡ map_of members.old.entries) }
{
    let Some((next, rest)) = names.split_first() else {
        return members.remove(name);
    };
    match members.get_mut(name) {
        Some(member) => cut(member, next, rest),
        None => None,
    }
}
