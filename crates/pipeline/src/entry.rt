// Entries of a file.
ghost use Rattle.std.specs.Prelude.{◌≡◌, pos, codes, ◌≤◌, ◌^◌, IfOk};
ghost use Rattle.entry_model.specs.Datum as model;
ghost use Rattle.entry_model.specs.Datum.{datum};
ghost use Rattle.entry_model.specs.LogRecord.{log_record};
ghost use Rattle.field_paths.specs.MapOf.{members_seen};
ghost use Rattle.field_paths.specs.Members.{with_member};
ghost use Rattle.pipeline.specs.Entries.{base_name, with_asked, file_attributes, attributes_at, record_with};
ghost use Rattle.pipeline.specs.Origin.{Origin};
ghost use Rattle.pipeline.specs.Parts.{settings_of};
ghost use Rattle.pipeline.specs.Sources.{IsShared};

use crate::Pipeline;
use crate::source::Shared;
use entry_model::{Entry, Fields, Severity, Text, Value, copy_fields, copy_for_more};
use std::alloc::{AllocError, Global};

// How many attributes an entry has room for besides those of its file.
const MORE: usize = 3;

impl Pipeline {
    /// What each entry of a file has.
    pub(crate) fn file_attributes(&self, alloc: Global, path: &str) -> Result<Fields, AllocError>
        ensures { IfOk result (λ members. members_seen members.entries ≡ file_attributes (settings_of self.now) path.now) }
    {
        let own = copy_fields(alloc, self.settings.attributes.as_fields())?;
        let named = self.with_name(alloc, own, path)?;
        self.with_path(alloc, named, path)
    }

    fn with_name(&self, alloc: Global, attributes: Fields, path: &str) -> Result<Fields, AllocError>
        ensures { IfOk result (λ members. members_seen members.entries ≡ with_asked (settings_of self.now).include_file_name
            (codes "log.file.name") (model.text (base_name path.now)) (members_seen attributes.entries)) }
    {
        if !self.settings.include_file_name {
            return Ok(attributes);
        }
        let name = text(alloc, base_name(path))?;
        Ok(put(attributes, Text::from_str(alloc, "log.file.name")?, name)?)
    }

    fn with_path(&self, alloc: Global, attributes: Fields, path: &str) -> Result<Fields, AllocError>
        ensures { IfOk result (λ members. members_seen members.entries ≡ with_asked (settings_of self.now).include_file_path
            (codes "log.file.path") (model.text path.now) (members_seen attributes.entries)) }
    {
        if !self.settings.include_file_path {
            return Ok(attributes);
        }
        let whole = text(alloc, path)?;
        Ok(put(attributes, Text::from_str(alloc, "log.file.path")?, whole)?)
    }

    fn attributes_at(
        &self,
        alloc: Global,
        shared: &Shared,
        number: u64,
    ) -> Result<Fields, AllocError>
        requires { number ≤ 2 ^ 62 }
        ensures { IfOk result (λ members. (origin : Origin) → IsShared (settings_of self.now) origin shared.now
            → members_seen members.entries ≡ attributes_at (settings_of self.now) origin.path number) }
    {
        let attributes = copy_for_more(alloc, &shared.attributes, MORE)?;
        let Some(name) = &shared.number else {
            return Ok(attributes);
        };
        Ok(put(attributes, name.share()?, int(number))?)
    }

    /// The entry of the token with this number, from 1.
    pub(crate) fn entry(
        &self,
        alloc: Global,
        shared: &Shared,
        number: u64,
        body: Text,
    ) -> Result<Entry, AllocError>
        requires { number ≤ 2 ^ 62 }
        ensures { IfOk result (λ entry. (origin : Origin) → IsShared (settings_of self.now) origin shared.now
            → log_record entry ≡ record_with (settings_of self.now) origin.path number body) }
    {
        Ok(Entry {
            body: Value::Text(body),
            attributes: Value::Map(self.attributes_at(alloc, shared, number)?),
            resource: Value::Map(copy_fields(alloc, self.settings.resource.as_fields())?),
            timestamp: None,
            severity: Severity { number: 0 },
            severity_text: Text::empty(),
        })
    }
}

fn int(number: u64) -> Value
    requires { number ≤ 2 ^ 62 }
    ensures { datum result ≡ model.int (pos number) }
{
    Value::Int(number as i64)
}

fn text(alloc: Global, content: &str) -> Result<Value, AllocError>
    ensures { IfOk result (λ value. datum value ≡ model.text content.now) }
{
    Ok(Value::Text(Text::from_str(alloc, content)?))
}

// The members with one more, or with another value.
fn put(mut members: Fields, name: Text, value: Value) -> Result<Fields, AllocError>
    ensures { IfOk result (λ grown. members_seen grown.entries ≡ with_member name (datum value) (members_seen members.entries)) }
{
    members.insert(name, value)?;
    Ok(members)
}

// What stands behind the last `/`.
fn base_name(path: &str) -> &str
    ensures { result.now ≡ base_name path.now }
{
    match path.rsplit_once('/') {
        Some((_folders, name)) => name,
        None => path,
    }
}
