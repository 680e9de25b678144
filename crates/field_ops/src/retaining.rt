// Keeping some fields alone.
ghost use Rattle.std.specs.Prelude.{◌≡◌, OnOk, IfErr, OnErr, IsTrue, cond};
ghost use Rattle.entry_model.specs.Datum.{datum, is_map};
ghost use Rattle.entry_model.specs.LogRecord.{log_record, members_in};
ghost use Rattle.field_ops.specs.Rows.{retained, with_listed, with_found};
ghost use Rattle.field_ops.specs.Roots.{no_fields, same_root, any_root, with_roots};
ghost use Rattle.field_paths.specs.declared.path.Root.TheVariants.{Body, Attributes, Resource};
ghost use Rattle.field_paths.specs.ValueAt.{datum_at};
ghost use Rattle.field_ops.specs.declared.fault.FieldFault.TheVariants.{Memory};

use crate::FieldFault;
use crate::keeping::{are_members, keep_members};
use crate::root::begins_any;
use entry_model::{Entry, Fields, Severity, Text, Value};
use field_paths::{FieldPath, Root, SetFault};
use std::alloc::{AllocError, Global};

/// Keeps the listed fields of the roots that they are of, and the other roots whole.
#[derive(Drop)]
pub struct Retain {
    fields: Vec<FieldPath>,
}

impl Retain {
    pub fn new(fields: Vec<FieldPath>) -> Retain
        ensures { result ≡ record { fields = fields } }
    {
        Retain { fields }
    }

    /// Fails where memory runs out alone.
    pub fn apply(&self, alloc: Global, entry: &mut Entry) -> Result<(), FieldFault>
        ensures ok { OnOk result (log_record entry.new ≡ retained self.now.fields.items (log_record entry.old)) }
        ensures fault { IfErr result (λ fault. fault ≡ Memory) }
        ensures err { OnErr result (log_record entry.new ≡ log_record entry.old) }
    {
        if are_members(&self.fields) {
            keep_members(alloc, &self.fields, entry);
            return Ok(());
        }
        let mut kept = with_empty_maps(alloc);
        keep_listed(alloc, &self.fields, entry, &mut kept)?;
        move_roots(&self.fields, kept, entry);
        Ok(())
    }
}

/// An entry with an empty map as each root.
fn with_empty_maps(alloc: Global) -> Entry
    ensures { log_record result ≡ no_fields }
{
    Entry {
        body: Value::Map(Fields::new(alloc)),
        attributes: Value::Map(Fields::new(alloc)),
        resource: Value::Map(Fields::new(alloc)),
        timestamp: None,
        severity: Severity { number: 0 },
        severity_text: Text::empty(),
    }
}

/// Moves the roots of the listed fields from `kept` to the entry.
fn move_roots(fields: &[FieldPath], kept: Entry, entry: &mut Entry)
    ensures { log_record entry.new ≡ with_roots (any_root (same_root Body) fields.now) (any_root (same_root Attributes) fields.now)
        (any_root (same_root Resource) fields.now) (log_record kept) (log_record entry.old) }
{
    let Entry {
        body,
        attributes,
        resource,
        ..
    } = kept;
    move_body(begins_any(Root::Body, fields), body, entry);
    move_attributes(begins_any(Root::Attributes, fields), attributes, entry);
    move_resource(begins_any(Root::Resource, fields), resource, entry);
}

fn move_body(listed: bool, body: Value, entry: &mut Entry)
    ensures { log_record entry.new ≡ record (log_record entry.old) {
      body = cond listed (datum body) (log_record entry.old).body;
    } }
{
    if listed {
        entry.body = body;
    }
}

fn move_attributes(listed: bool, attributes: Value, entry: &mut Entry)
    requires { IsTrue (is_map attributes) }
    ensures { log_record entry.new ≡ record (log_record entry.old) {
      attributes = cond listed (members_in (datum attributes)) (log_record entry.old).attributes;
    } }
{
    if listed {
        entry.attributes = attributes;
    }
}

fn move_resource(listed: bool, resource: Value, entry: &mut Entry)
    requires { IsTrue (is_map resource) }
    ensures { log_record entry.new ≡ record (log_record entry.old) {
      resource = cond listed (members_in (datum resource)) (log_record entry.old).resource;
    } }
{
    if listed {
        entry.resource = resource;
    }
}

fn keep_listed(
    alloc: Global,
    fields: &[FieldPath],
    whole: &Entry,
    kept: &mut Entry,
) -> Result<(), AllocError>
    ensures { OnOk result (log_record kept.new ≡ with_listed fields.now (log_record whole.now) (log_record kept.old)) }
{
    for field in fields {
        keep(alloc, field, whole, kept)?;
    }
    Ok(())
}

fn keep(alloc: Global, field: &FieldPath, whole: &Entry, kept: &mut Entry) -> Result<(), AllocError>
    ensures { OnOk result (log_record kept.new
        ≡ with_found field.now (datum_at field.now (log_record whole.now)) (log_record kept.old)) }
{
    let Some(value) = field.get(whole) else {
        return Ok(());
    };
    let copy = value.copy(alloc)?;
    match field.set(alloc, kept, copy) {
        Err(SetFault::Memory) => Err(AllocError),
        // What is listed was there, so each value on the way is a map, or what a listed field put there.
        Ok(()) | Err(SetFault::NotAMap) => Ok(()),
    }
}
