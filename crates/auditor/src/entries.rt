// Entries of tokens.
ghost use Rattle.std.specs.Prelude.{◌≡◌, ℕ, pos, codes, ◌<◌, ◌^◌, List, string_bytes, IfOk};
ghost use Rattle.std.specs.Option.{option_to_list};
ghost use Rattle.entry_model.specs.Datum as model;
ghost use Rattle.entry_model.specs.Datum.{datum};
ghost use Rattle.entry_model.specs.LogRecord.{log_record};
ghost use Rattle.field_paths.specs.MapOf.{members_seen};
ghost use Rattle.field_paths.specs.Members.{with_member};
ghost use Rattle.pipeline.specs.Entries.{base_name, with_asked, file_attributes, attributes_at, record_with, records_of, text_of};

use entry_model::{Entry, Fields, Severity, Text, Value, copy_fields};
use line_splitter::entry_text;
use op_kinds::Record;
use settings_text::Settings;
use std::alloc::{AllocError, Global};

/// What each entry of a file has.
pub(crate) fn file_attributes(
    alloc: Global,
    settings: &Settings,
    path: &str,
) -> Result<Fields, AllocError>
    ensures { IfOk result (λ members. members_seen members.entries ≡ file_attributes settings.now path.now) }
{
    let own = copy_fields(alloc, settings.attributes.as_fields())?;
    let named = with_name(alloc, settings, own, path)?;
    with_path(alloc, settings, named, path)
}

fn with_name(
    alloc: Global,
    settings: &Settings,
    attributes: Fields,
    path: &str,
) -> Result<Fields, AllocError>
    ensures { IfOk result (λ members. members_seen members.entries ≡ with_asked settings.now.include_file_name
        (codes "log.file.name") (model.text (base_name path.now)) (members_seen attributes.entries)) }
{
    if !settings.include_file_name {
        return Ok(attributes);
    }
    let name = text(alloc, base_name(path))?;
    Ok(put(attributes, Text::from_str(alloc, "log.file.name")?, name)?)
}

fn with_path(
    alloc: Global,
    settings: &Settings,
    attributes: Fields,
    path: &str,
) -> Result<Fields, AllocError>
    ensures { IfOk result (λ members. members_seen members.entries ≡ with_asked settings.now.include_file_path
        (codes "log.file.path") (model.text path.now) (members_seen attributes.entries)) }
{
    if !settings.include_file_path {
        return Ok(attributes);
    }
    let whole = text(alloc, path)?;
    Ok(put(attributes, Text::from_str(alloc, "log.file.path")?, whole)?)
}

fn attributes_at(
    alloc: Global,
    settings: &Settings,
    shared: &Fields,
    number: u64,
) -> Result<Fields, AllocError>
    requires { number < 2 ^ 63 }
    ensures { IfOk result (λ members. (path : List ℕ) → members_seen shared.now.entries ≡ file_attributes settings.now path
        → members_seen members.entries ≡ attributes_at settings.now path number) }
{
    let attributes = copy_fields(alloc, shared)?;
    if !settings.include_file_record_number {
        return Ok(attributes);
    }
    let name = Text::from_str(alloc, "log.file.record_number")?;
    Ok(put(attributes, name, int(number))?)
}

/// The entry of the token with this number, from 1, and this text.
fn entry_at(
    alloc: Global,
    settings: &Settings,
    shared: &Fields,
    number: u64,
    body: String,
) -> Result<Entry, AllocError>
    requires { number < 2 ^ 63 }
    ensures { IfOk result (λ entry. (path : List ℕ) → members_seen shared.now.entries ≡ file_attributes settings.now path
        → log_record entry ≡ record_with settings.now path number (string_bytes body)) }
{
    Ok(Entry {
        body: Value::Text(Text::new(body)?),
        attributes: Value::Map(attributes_at(alloc, settings, shared, number)?),
        resource: Value::Map(copy_fields(alloc, settings.resource.as_fields())?),
        timestamp: None,
        severity: Severity { number: 0 },
        severity_text: Text::empty(),
    })
}

/// The entry of the token with this number, from 1, where it has one. `shared` is what each entry of its file has.
pub(crate) fn entry_of(
    alloc: Global,
    settings: &Settings,
    shared: &Fields,
    number: u64,
    token: &[u8],
) -> Result<Option<Record>, AllocError>
    requires { number < 2 ^ 63 }
    ensures { IfOk result (λ found. (path : List ℕ) → members_seen shared.now.entries ≡ file_attributes settings.now path
        → option_to_list found ≡ records_of settings.now path number (text_of settings.now token.now)) }
{
    let leading = settings.preserve_leading_whitespaces;
    let trailing = settings.preserve_trailing_whitespaces;
    let Some(body) = entry_text(alloc, token, leading, trailing)? else {
        return Ok(None);
    };
    let entry = entry_at(alloc, settings, shared, number, body)?;
    let record = Record::new(alloc, entry)?;
    Ok(Some(record))
}

fn int(number: u64) -> Value
    requires { number < 2 ^ 63 }
    ensures { datum result ≡ model.int (pos number) }
{
    Value::Int(number as i64)
}

fn text(alloc: Global, content: &str) -> Result<Value, AllocError>
    ensures { IfOk result (λ value. datum value ≡ model.text content.now) }
{
    Ok(Value::Text(Text::from_str(alloc, content)?))
}

// The members with one more, or with another value.
fn put(mut members: Fields, name: Text, value: Value) -> Result<Fields, AllocError>
    ensures { IfOk result (λ grown. members_seen grown.entries ≡ with_member name (datum value) (members_seen members.entries)) }
{
    members.insert(name, value)?;
    Ok(members)
}

// What stands behind the last `/`.
fn base_name(path: &str) -> &str
    ensures { result.now ≡ base_name path.now }
{
    match path.rsplit_once('/') {
        Some((_folders, name)) => name,
        None => path,
    }
}
