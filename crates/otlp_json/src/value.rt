// An AnyValue, and the values inside it.
ghost use Rattle.std.specs.Prelude.{◌≡◌, ◌++◌, ℕ, List, [], OnOk, codes, map};
ghost use Rattle.entry_model.specs.Datum.{boolean, int, datum, items_of, members_of};
ghost use Rattle.otlp_json.specs.Escaped.{escaped};
ghost use Rattle.otlp_json.specs.HasFront.{HasFront};
ghost use Rattle.otlp_json.specs.ValueText.{value_text, items_text, members_text};

use crate::member::{append_int_member, append_text_member};
use crate::string::{append_escaped, append_integer, append_run};
use entry_model::{Fields, Text, Value, Values};
use std::alloc::AllocError;

#[cycle(value)]
pub fn append_value(value: &Value, out: &mut Vec<u8>) -> Result<(), AllocError>
    ensures ok { OnOk result (out.new.items ≡ out.old.items ++ value_text (datum value.now)) }
    ensures front { HasFront out.old.items out.new.items }
{
    match value {
        Value::Null => out.extend_from_slice(b"{}"),
        Value::Bool(flag) => append_bool(*flag, out),
        Value::Int(number) => append_int(*number, out),
        Value::Text(text) => {
            out.extend_from_slice(b"{\"stringValue\":\"")?;
            append_escaped(text.as_str().as_bytes(), out)?;
            out.extend_from_slice(b"\"}")
        }
        Value::List(values) => {
            out.extend_from_slice(b"{\"arrayValue\":{\"values\":[")?;
            append_items(values, out)?;
            out.extend_from_slice(b"]}}")
        }
        Value::Map(fields) => {
            out.extend_from_slice(b"{\"kvlistValue\":{\"values\":")?;
            append_fields(fields, out)?;
            out.extend_from_slice(b"]}}")
        }
    }
}

#[cycle(value)]
fn append_items(values: &Values, out: &mut Vec<u8>) -> Result<(), AllocError>
    ensures ok { OnOk result (out.new.items
        ≡ out.old.items ++ items_text [] (items_of (map datum values.now.items))) }
    ensures front { HasFront out.old.items out.new.items }
{
    let mut separator: &[u8] = b"";
    for value in values {
        append_run(separator, out)?;
        append_value(value, out)?;
        separator = b",";
    }
    Ok(())
}

/// The members behind the bracket that opens their list.
#[cycle(value)]
pub fn append_fields(fields: &Fields, out: &mut Vec<u8>) -> Result<(), AllocError>
    ensures ok { OnOk result (out.new.items
        ≡ out.old.items
        ++ (codes "[" ++ members_text [] (members_of (map (λ field. (field.0, datum field.1)) fields.now.entries)))) }
    ensures front { HasFront out.old.items out.new.items }
{
    if fields.is_empty() {
        return out.extend_from_slice(b"[");
    }
    let mut front: &[u8] = b"[{\"key\":\"";
    for (key, value) in fields.members() {
        append_member(front, key.as_str(), value, out)?;
        front = b",{\"key\":\"";
    }
    Ok(())
}

#[cycle(value)]
fn append_member(
    front: &[u8],
    key: &str,
    value: &Value,
    out: &mut Vec<u8>,
) -> Result<(), AllocError>
    ensures ok { OnOk result (out.new.items
        ≡ out.old.items ++ front.now ++ escaped key.now ++ codes "\",\"value\":" ++ value_text (datum value.now) ++ codes "}") }
    ensures front { HasFront out.old.items out.new.items }
{
    if let Value::Text(text) = value {
        return append_text_member(front, key.as_bytes(), text.as_str().as_bytes(), out);
    }
    if let Value::Int(number) = value {
        return append_int_member(front, key.as_bytes(), *number, out);
    }
    out.extend_from_slice(front)?;
    append_escaped(key.as_bytes(), out)?;
    out.extend_from_slice(b"\",\"value\":")?;
    append_value(value, out)?;
    out.extend_from_slice(b"}")
}

/// `opening` is what stands ahead of the first member's key.
pub fn append_opened_members(
    opening: &[u8],
    members: &[(Text, Value)],
    out: &mut Vec<u8>,
) -> Result<(), AllocError>
    ensures ok { OnOk result ((before : List ℕ) → opening.now ≡ before ++ codes "{\"key\":\""
        → out.new.items ≡ out.old.items
        ++ members_text before (members_of (map (λ field. (field.0, datum field.1)) members.now))) }
    ensures front { HasFront out.old.items out.new.items }
{
    let mut front = opening;
    for (key, value) in members {
        append_member(front, key.as_str(), value, out)?;
        front = b",{\"key\":\"";
    }
    Ok(())
}

fn append_bool(flag: bool, out: &mut Vec<u8>) -> Result<(), AllocError>
    ensures ok { OnOk result (out.new.items ≡ out.old.items ++ value_text (boolean flag)) }
    ensures front { HasFront out.old.items out.new.items }
{
    if flag {
        out.extend_from_slice(b"{\"boolValue\":true}")
    } else {
        out.extend_from_slice(b"{\"boolValue\":false}")
    }
}

fn append_int(number: i64, out: &mut Vec<u8>) -> Result<(), AllocError>
    ensures ok { OnOk result (out.new.items ≡ out.old.items ++ value_text (int number)) }
    ensures front { HasFront out.old.items out.new.items }
{
    out.extend_from_slice(b"{\"intValue\":\"")?;
    append_integer(number, out)?;
    out.extend_from_slice(b"\"}")
}
