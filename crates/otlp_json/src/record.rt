// A LogRecord, and the attributes of a record or a resource.
ghost use Rattle.std.specs.Prelude.{◌≡◌, ◌++◌, IsTrue, OnOk, codes};
ghost use Rattle.entry_model.specs.Datum.{datum, no_members};
ghost use Rattle.entry_model.specs.LogRecord.{log_record, members_in};
ghost use Rattle.otlp_json.specs.HasFront.{HasFront};
ghost use Rattle.otlp_json.specs.RecordText.{opened_attributes, body_text, severity_number_text, severity_name_text, nanoseconds_text};
ghost use Rattle.otlp_json.specs.Scope.{record_members};

use crate::string::{append_decimal, append_escaped};
use crate::value::{append_fields, append_value};
use entry_model::{Entry, Value};
use std::alloc::AllocError;

/// From the first member's value on, without the closing brace.
pub fn append_record_members(
    observed: Option<u64>,
    entry: &Entry,
    out: &mut Vec<u8>,
) -> Result<(), AllocError>
    ensures ok { OnOk result (out.new.items ≡ out.old.items ++ record_members observed (log_record entry.now)) }
    ensures front { HasFront out.old.items out.new.items }
{
    append_attributes(&entry.attributes, out)?;
    append_body(&entry.body, out)?;
    append_nanoseconds(b",\"observedTimeUnixNano\":\"", observed, out)?;
    append_severity_number(entry.severity.number, out)?;
    append_severity_name(entry.severity_text.as_str(), out)?;
    append_nanoseconds(b",\"timeUnixNano\":\"", entry.timestamp, out)
}

/// The attributes without the bracket that ends their list.
pub fn append_attributes(attributes: &Value, out: &mut Vec<u8>) -> Result<(), AllocError>
    ensures ok { OnOk result (out.new.items
        ≡ out.old.items ++ opened_attributes (members_in (datum attributes.now))) }
    ensures front { HasFront out.old.items out.new.items }
{
    let Value::Map(fields) = attributes else {
        return out.extend_from_slice(b"[");
    };
    append_fields(fields, out)
}

/// Whether it is a map without members.
#[inline(always)]
pub fn has_none(attributes: &Value) -> bool
    ensures { IsTrue result → members_in (datum attributes.now) ≡ no_members }
{
    match attributes {
        Value::Map(fields) => fields.is_empty(),
        _ => false,
    }
}

// From the bracket on that ends the attributes.
fn append_body(body: &Value, out: &mut Vec<u8>) -> Result<(), AllocError>
    ensures ok { OnOk result (out.new.items ≡ out.old.items ++ codes "]" ++ body_text (datum body.now)) }
    ensures front { HasFront out.old.items out.new.items }
{
    match body {
        Value::Null => out.extend_from_slice(b"]"),
        Value::Text(text) => {
            out.extend_from_slice(b"],\"body\":{\"stringValue\":\"")?;
            append_escaped(text.as_str().as_bytes(), out)?;
            out.extend_from_slice(b"\"}")
        }
        _ => {
            out.extend_from_slice(b"],\"body\":")?;
            append_value(body, out)
        }
    }
}

fn append_severity_number(severity: u8, out: &mut Vec<u8>) -> Result<(), AllocError>
    ensures ok { OnOk result (out.new.items ≡ out.old.items ++ severity_number_text severity) }
    ensures front { HasFront out.old.items out.new.items }
{
    if severity == 0 {
        return Ok(());
    }
    out.extend_from_slice(b",\"severityNumber\":")?;
    append_decimal(u64::from(severity), out)
}

fn append_severity_name(name: &str, out: &mut Vec<u8>) -> Result<(), AllocError>
    ensures ok { OnOk result (out.new.items ≡ out.old.items ++ severity_name_text name.now) }
    ensures front { HasFront out.old.items out.new.items }
{
    if name.is_empty() {
        return Ok(());
    }
    out.extend_from_slice(b",\"severityText\":\"")?;
    append_escaped(name.as_bytes(), out)?;
    out.extend_from_slice(b"\"")
}

/// `opening` is what stands ahead of the time.
#[inline(always)]
pub fn append_nanoseconds(
    opening: &[u8],
    time: Option<u64>,
    out: &mut Vec<u8>,
) -> Result<(), AllocError>
    ensures ok { OnOk result (out.new.items ≡ out.old.items ++ nanoseconds_text opening.now time) }
    ensures front { HasFront out.old.items out.new.items }
{
    let Some(nanoseconds) = time else {
        return Ok(());
    };
    out.extend_from_slice(opening)?;
    append_decimal(nanoseconds, out)?;
    out.extend_from_slice(b"\"")
}
