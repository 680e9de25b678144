// The calls that append a spelling. What they need comes from the allocator of `out`.
ghost use Rattle.std.specs.Prelude.{◌≡◌, ◌<◌, ◌^◌, ◌++◌, OnOk, None, IfSome, length, map};
ghost use Rattle.std.specs.Int.{w32, w64, to_be_bytes};
ghost use Rattle.entry_model.specs.Datum.{datum, items_of, members_of};
ghost use Rattle.entry_model.specs.LogRecord.{log_record};
ghost use Rattle.entry_model.specs.Seen.{seen};
ghost use Rattle.state_codec.specs.Limits.{levels};
ghost use Rattle.state_codec.specs.Spelling.{bytes_spelling, value_spelling, items_spelling, members_spelling, time_spelling, entry_spelling};
ghost use Rattle.entry_model.specs.Lawful.{KeysAscend, NestsWithin};
ghost use Rattle.state_codec.specs.Rules.{IsShortText, IsSpellable, AreSpellable, AreSpellableMembers, IsSpellableEntry};

use entry_model::{Entry, Fields, Text, Value, Values};
use std::alloc::{AllocError, Global};

/// Appends the four bytes of a number.
pub fn put_u32(_alloc: Global, value: u32, out: &mut Vec<u8>) -> Result<(), AllocError>
    ensures { OnOk result (out.new.items ≡ out.old.items ++ to_be_bytes w32 value) }
{
    out.extend_from_slice(&value.to_be_bytes())
}

/// Appends the eight bytes of a number.
pub fn put_u64(_alloc: Global, value: u64, out: &mut Vec<u8>) -> Result<(), AllocError>
    ensures { OnOk result (out.new.items ≡ out.old.items ++ to_be_bytes w64 value) }
{
    out.extend_from_slice(&value.to_be_bytes())
}

/// Appends the length of some bytes, and the bytes. Bytes past a length of four bytes find no memory.
pub fn put_bytes(alloc: Global, value: &[u8], out: &mut Vec<u8>) -> Result<(), AllocError>
    ensures ok { OnOk result (out.new.items ≡ out.old.items ++ bytes_spelling value.now) }
    ensures short { OnOk result (length value.now < 2 ^ 32) }
{
    put_count(alloc, value.len(), out)?;
    out.extend_from_slice(value)
}

/// Appends a text as its bytes in UTF-8.
pub fn put_text(alloc: Global, value: &Text, out: &mut Vec<u8>) -> Result<(), AllocError>
    ensures ok { OnOk result (out.new.items ≡ out.old.items ++ bytes_spelling value.now) }
    ensures lawful { OnOk result (IsShortText value.now) }
{
    put_bytes(alloc, value.as_str().as_bytes(), out)
}

fn put_count(alloc: Global, count: usize, out: &mut Vec<u8>) -> Result<(), AllocError>
    ensures ok { OnOk result (out.new.items ≡ out.old.items ++ to_be_bytes w32 count) }
    ensures short { OnOk result (count < 2 ^ 32) }
{
    if count > 0xFFFF_FFFF {
        return Err(AllocError);
    }
    put_u32(alloc, count as u32, out)
}

#[cycle(put)]
fn put_value(alloc: Global, value: &Value, out: &mut Vec<u8>) -> Result<(), AllocError>
    ensures ok { OnOk result (out.new.items ≡ out.old.items ++ value_spelling (datum value.now)) }
    ensures lawful { OnOk result (IsSpellable (datum value.now)) }
{
    match value {
        Value::Null => out.extend_from_slice(&[0]),
        Value::Bool(false) => out.extend_from_slice(&[1]),
        Value::Bool(true) => out.extend_from_slice(&[2]),
        Value::Int(number) => {
            out.extend_from_slice(&[3])?;
            put_u64(alloc, number.cast_unsigned(), out)
        }
        Value::Text(text) => {
            out.extend_from_slice(&[4])?;
            put_text(alloc, text, out)
        }
        Value::List(values) => {
            out.extend_from_slice(&[5])?;
            put_list(alloc, values, out)
        }
        Value::Map(fields) => {
            out.extend_from_slice(&[6])?;
            put_map(alloc, fields, out)
        }
    }
}

#[cycle(put)]
fn put_list(alloc: Global, values: &Values, out: &mut Vec<u8>) -> Result<(), AllocError>
    ensures ok { OnOk result (out.new.items ≡ out.old.items
        ++ (to_be_bytes w32 (length values.now.items) ++ items_spelling (items_of (map datum values.now.items)))) }
    ensures short { OnOk result (length values.now.items < 2 ^ 32) }
    ensures lawful { OnOk result (AreSpellable (items_of (map datum values.now.items))) }
{
    put_count(alloc, values.len(), out)?;
    for value in values {
        put_value(alloc, value, out)?;
    }
    Ok(())
}

#[cycle(put)]
fn put_map(alloc: Global, fields: &Fields, out: &mut Vec<u8>) -> Result<(), AllocError>
    ensures ok { OnOk result (out.new.items ≡ out.old.items
        ++ (to_be_bytes w32 (length fields.now.entries) ++ members_spelling (members_of (seen fields.now.entries)))) }
    ensures short { OnOk result (length fields.now.entries < 2 ^ 32) }
    ensures lawful { OnOk result (AreSpellableMembers (members_of (seen fields.now.entries))) }
    ensures ascend { OnOk result (KeysAscend None (members_of (seen fields.now.entries))) }
{
    put_count(alloc, fields.len(), out)?;
    for (key, value) in fields.members() {
        put_text(alloc, key, out)?;
        put_value(alloc, value, out)?;
    }
    Ok(())
}

fn put_time(alloc: Global, time: Option<u64>, out: &mut Vec<u8>) -> Result<(), AllocError>
    ensures ok { OnOk result (out.new.items ≡ out.old.items ++ time_spelling time) }
    ensures lawful { OnOk result (IfSome time (λ t. t < 2 ^ 64)) }
{
    match time {
        None => out.extend_from_slice(&[0]),
        Some(time) => {
            out.extend_from_slice(&[1])?;
            put_u64(alloc, time, out)
        }
    }
}

/// Appends an entry, of which no part may be nested more than [`crate::LEVELS`] deep. A text, list or map of 2^32 bytes,
/// values or members and more finds no memory.
pub fn put_entry(alloc: Global, entry: &Entry, out: &mut Vec<u8>) -> Result<(), AllocError>
    requires { NestsWithin levels (log_record entry.now) }
    ensures ok { OnOk result (out.new.items ≡ out.old.items ++ entry_spelling (log_record entry.now)) }
    ensures lawful { OnOk result (IsSpellableEntry (log_record entry.now)) }
{
    put_value(alloc, &entry.body, out)?;
    put_value(alloc, &entry.attributes, out)?;
    put_value(alloc, &entry.resource, out)?;
    out.extend_from_slice(&[entry.severity.number])?;
    put_text(alloc, &entry.severity_text, out)?;
    put_time(alloc, entry.timestamp, out)
}
