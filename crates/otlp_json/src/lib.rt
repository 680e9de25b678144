//! The agent's output lines: one JSON object a log record, in the [OTLP/JSON encoding] of OTLP 1.x.
//!
//! The one contract for the layer above is that of [`line`]: what it appends is exactly the definition
//! `output_line`, for every entry. A [`Scope`] has what the lines of a file share, a [`Template`] what those of its texts do,
//! and [`Scope::line`] and [`Template::line`] append the same bytes.
//!
//! [OTLP/JSON encoding]: https://opentelemetry.io/docs/specs/otlp/#json-protobuf-encoding
#![tactic(auto)]

ghost use Rattle.std.specs.Prelude.{◌≡◌, ◌++◌, OnOk, OnErr};
ghost use Rattle.entry_model.specs.Datum.{datum};
ghost use Rattle.entry_model.specs.LogRecord.{log_record, members_in};
ghost use Rattle.otlp_json.specs.HasFront.{HasFront};
ghost use Rattle.otlp_json.specs.OutputLine.{output_line};
ghost use Rattle.otlp_json.specs.Scope.{entry_text, resource_text, scope_text, end_text};

mod block;
mod escape;
pub mod integers;
mod lanes;
pub mod laws;
mod member;
mod record;
mod scope;
mod string;
mod template;
mod value;

use entry_model::{Entry, Value};
pub use scope::Scope;
use std::alloc::{AllocError, Global};
pub use template::Template;

/// Appends the line of an entry with its LF. `id` is the file's, and `number` the line's among the lines of that
/// file, from 1. `observed` is when the entry was read, in nanoseconds since 1970; a line without it tells no such time.
///
/// Fails where memory runs out, and `out` is then as it was. What it needs comes from the allocator of `out`.
pub fn line(
    _alloc: Global,
    id: u32,
    number: u64,
    observed: Option<u64>,
    entry: &Entry,
    out: &mut Vec<u8>,
) -> Result<(), AllocError>
    ensures ok { OnOk result (out.new.items
        ≡ out.old.items ++ output_line id number observed (log_record entry.now)) }
    ensures err { OnErr result (out.new.items ≡ out.old.items) }
{
    let len = out.len();
    let written = append_line(id, number, observed, entry, out);
    if written.is_err() {
        out.truncate(len);
    }
    written
}

fn append_line(
    id: u32,
    number: u64,
    observed: Option<u64>,
    entry: &Entry,
    out: &mut Vec<u8>,
) -> Result<(), AllocError>
    ensures ok { OnOk result (out.new.items
        ≡ out.old.items ++ output_line id number observed (log_record entry.now)) }
    ensures front { HasFront out.old.items out.new.items }
{
    append_entry(observed, entry, out)?;
    append_scope(id, out)?;
    append_end(number, out)
}

// Up to the record's closing brace.
pub(crate) fn append_entry(
    observed: Option<u64>,
    entry: &Entry,
    out: &mut Vec<u8>,
) -> Result<(), AllocError>
    ensures ok { OnOk result (out.new.items ≡ out.old.items ++ entry_text observed (log_record entry.now)) }
    ensures front { HasFront out.old.items out.new.items }
{
    append_resource(&entry.resource, out)?;
    record::append_record_members(observed, entry, out)
}

// Up to the value of the record's first member.
fn append_resource(resource: &Value, out: &mut Vec<u8>) -> Result<(), AllocError>
    ensures ok { OnOk result (out.new.items ≡ out.old.items ++ resource_text (members_in (datum resource.now))) }
    ensures front { HasFront out.old.items out.new.items }
{
    // Most resources have no members: all of it is one piece then.
    if record::has_none(resource) {
        return out.extend_from_slice(
            b"{\"resourceLogs\":[{\"resource\":{\"attributes\":[]},\"scopeLogs\":[{\"logRecords\":[{\"attributes\":",
        );
    }
    out.extend_from_slice(b"{\"resourceLogs\":[{\"resource\":{\"attributes\":")?;
    record::append_attributes(resource, out)?;
    out.extend_from_slice(b"]},\"scopeLogs\":[{\"logRecords\":[{\"attributes\":")
}

// From the record's closing brace up to the line's number.
pub(crate) fn append_scope(id: u32, out: &mut Vec<u8>) -> Result<(), AllocError>
    ensures ok { OnOk result (out.new.items ≡ out.old.items ++ scope_text id) }
    ensures front { HasFront out.old.items out.new.items }
{
    out.extend_from_slice(
        b"}],\"scope\":{\"attributes\":[{\"key\":\"agent.file\",\"value\":{\"intValue\":\"",
    )?;
    string::append_decimal(u64::from(id), out)?;
    out.extend_from_slice(b"\"}},{\"key\":\"agent.line\",\"value\":{\"intValue\":\"")
}

// From the line's number on.
pub(crate) fn append_end(number: u64, out: &mut Vec<u8>) -> Result<(), AllocError>
    ensures ok { OnOk result (out.new.items ≡ out.old.items ++ end_text number) }
    ensures front { HasFront out.old.items out.new.items }
{
    string::append_decimal(number, out)?;
    out.extend_from_slice(b"\"}}],\"name\":\"stanza_agent\"}}]}]}\n")
}
