// Lines that share all but a text and numbers.
ghost use Rattle.std.specs.Prelude.{◌≡◌, ◌<◌, ◌≤◌, ◌++◌, ℕ, suc, List, [], Option, is_some, pos, codes, decimal, drop, length, take, IfErr, IfOk, OnOk, OnErr};
ghost use Rattle.entry_model.specs.Datum.{int, Members};
ghost use Rattle.field_paths.specs.MapOf.{members_seen};
ghost use Rattle.field_paths.specs.Members.{with_member};
ghost use Rattle.otlp_json.specs.Escaped.{escaped};
ghost use Rattle.otlp_json.specs.HasFront.{HasFront};
ghost use Rattle.otlp_json.specs.OutputLine.{output_line};
ghost use Rattle.otlp_json.specs.Template.{IsTemplate, numbered, text_record, number_text, comma_behind, filled};
ghost use Rattle.otlp_json.specs.ValueText.{members_text, key_value_text, value_text};

use crate::record::append_nanoseconds;
use crate::string::{append_decimal, append_escaped};
use crate::value::{append_fields, append_opened_members};
use crate::{append_end, append_scope};
use entry_model::{Fields, Text, Value};
use std::alloc::{AllocError, Global};

/// What the lines of texts share that are of one file and have the same observed time, resource and attributes, but for
/// the record's number among these.
#[derive(Drop)]
pub struct Template {
    /// Up to the record's number, or to the text where the records have none.
    front: Vec<u8>,
    numbered: bool,
    /// From the record's number up to the text, where the records have one.
    behind: Vec<u8>,
    /// From the text up to the line's number.
    back: Vec<u8>,
}

impl Template {
    /// `id` is the file's, and `observed` is as in [`crate::line`]. Where the records have a number, it is the attribute with this name, whatever else had the name.
    pub fn new(
        alloc: Global,
        id: u32,
        observed: Option<u64>,
        resource: &Fields,
        attributes: Fields,
        number: Option<Text>,
    ) -> Result<Template, AllocError>
        ensures { IfOk result (IsTemplate id observed (members_seen resource.now.entries) (members_seen attributes.entries) number) }
    {
        let mut front = Vec::new(alloc);
        front.extend_from_slice(b"{\"resourceLogs\":[{\"resource\":{\"attributes\":")?;
        append_fields(resource, &mut front)?;
        front.extend_from_slice(b"]},\"scopeLogs\":[{\"logRecords\":[{\"attributes\":[")?;
        let numbered = number.is_some();
        let behind = append_attributes(alloc, attributes, number, &mut front)?;
        let mut back = Vec::new(alloc);
        back.extend_from_slice(b"\"}")?;
        append_nanoseconds(b",\"observedTimeUnixNano\":\"", observed, &mut back)?;
        append_scope(id, &mut back)?;
        Ok(Template {
            front,
            numbered,
            behind,
            back,
        })
    }

    /// Appends the line of the record of a text, as [`crate::line`] does for its entry. `number` is the line's among the
    /// lines of its file, and `record_number` the record's, where the records have one.
    ///
    /// Fails where memory runs out, and `out` is then as it was.
    pub fn line(
        &self,
        number: u64,
        record_number: u64,
        text: &str,
        out: &mut Vec<u8>,
    ) -> Result<(), AllocError>
        ensures ok { OnOk result ((id : ℕ) (observed : Option ℕ) (resource attributes : Members) (name : Option (List ℕ))
            → IsTemplate id observed resource attributes name self.now
            → out.new.items ≡ out.old.items ++ output_line id number observed (text_record resource (numbered name record_number attributes) text.now)) }
        ensures err { OnErr result (out.new.items ≡ out.old.items) }
    {
        let len = out.len();
        let written = self.fill(number, record_number, text, out);
        if written.is_err() {
            out.truncate(len);
        }
        written
    }

    fn fill(
        &self,
        number: u64,
        record_number: u64,
        text: &str,
        out: &mut Vec<u8>,
    ) -> Result<(), AllocError>
        ensures ok { OnOk result (out.new.items ≡ out.old.items ++ filled self.now number record_number text.now) }
        ensures front { HasFront out.old.items out.new.items }
    {
        out.extend_from_slice(&self.front)?;
        self.append_number(record_number, out)?;
        append_escaped(text.as_bytes(), out)?;
        out.extend_from_slice(&self.back)?;
        append_end(number, out)
    }

    fn append_number(&self, record_number: u64, out: &mut Vec<u8>) -> Result<(), AllocError>
        ensures ok { OnOk result (out.new.items ≡ out.old.items ++ number_text self.now.numbered self.now.behind.items record_number) }
        ensures front { HasFront out.old.items out.new.items }
    {
        if !self.numbered {
            return Ok(());
        }
        append_decimal(record_number, out)?;
        out.extend_from_slice(&self.behind)
    }
}

// Appends what stands from the first attribute up to the record's number, or to the text where the records have no number.
// Answers what stands between the number and the text.
fn append_attributes(
    alloc: Global,
    attributes: Fields,
    number: Option<Text>,
    front: &mut Vec<u8>,
) -> Result<Vec<u8>, AllocError>
    ensures { IfOk result (λ behind. (n : ℕ)
        → front.new.items ++ number_text (is_some number) behind.items n
        ≡ front.old.items ++ members_text [] (numbered number n (members_seen attributes.entries)) ++ codes "],\"body\":{\"stringValue\":\"") }
{
    match number {
        None => {
            append_opened_members(b"{\"key\":\"", attributes.members(), front)?;
            front.extend_from_slice(b"],\"body\":{\"stringValue\":\"")?;
            Ok(Vec::new(alloc))
        }
        Some(name) => append_numbered(alloc, &attributes, &name, front),
    }
}

// The same for records with a number.
fn append_numbered(
    alloc: Global,
    attributes: &Fields,
    name: &Text,
    front: &mut Vec<u8>,
) -> Result<Vec<u8>, AllocError>
    ensures { IfOk result (λ behind. (n : ℕ)
        → front.new.items ++ decimal n ++ behind.items
        ≡ front.old.items ++ members_text [] (with_member name.now (int (pos n)) (members_seen attributes.now.entries)) ++ codes "],\"body\":{\"stringValue\":\"") }
{
    let (ahead, rest) = around(attributes.members(), attributes.place(name));
    append_around(alloc, ahead, name, rest, front)
}

// The members ahead of a name's place, and those behind it.
fn around(
    members: &[(Text, Value)],
    place: Result<usize, usize>,
) -> (&[(Text, Value)], &[(Text, Value)])
    requires found { IfOk place (λ at. at < length members.now) }
    requires missing { IfErr place (λ at. at ≤ length members.now) }
    ensures found { IfOk place (λ at. (result.0.now ≡ take at members.now) × (result.1.now ≡ drop (suc at) members.now)) }
    ensures missing { IfErr place (λ at. (result.0.now ≡ take at members.now) × (result.1.now ≡ drop at members.now)) }
{
    match place {
        Ok(at) => (&members[..at], &members[at + 1..]),
        Err(at) => (&members[..at], &members[at..]),
    }
}

// `ahead` stands ahead of the number's member, and `rest` behind it.
fn append_around(
    alloc: Global,
    ahead: &[(Text, Value)],
    name: &Text,
    rest: &[(Text, Value)],
    front: &mut Vec<u8>,
) -> Result<Vec<u8>, AllocError>
    ensures { IfOk result (λ behind. (n : ℕ)
        → front.new.items ++ decimal n ++ behind.items
        ≡ front.old.items
        ++ (members_text [] (members_seen ahead.now) ++ comma_behind ahead.now ++ key_value_text name.now (value_text (int (pos n))) ++ members_text (codes ",") (members_seen rest.now))
        ++ codes "],\"body\":{\"stringValue\":\"") }
{
    append_ahead(ahead, front)?;
    append_name(name.as_str(), front)?;
    let mut behind = Vec::new(alloc);
    append_behind(rest, &mut behind)?;
    Ok(behind)
}

// The members, with a comma behind each.
fn append_ahead(members: &[(Text, Value)], out: &mut Vec<u8>) -> Result<(), AllocError>
    ensures { OnOk result (out.new.items ≡ out.old.items ++ members_text [] (members_seen members.now) ++ comma_behind members.now) }
{
    append_opened_members(b"{\"key\":\"", members, out)?;
    if members.is_empty() {
        return Ok(());
    }
    out.extend_from_slice(b",")
}

// A member up to its number.
fn append_name(name: &str, out: &mut Vec<u8>) -> Result<(), AllocError>
    ensures { OnOk result (out.new.items ≡ out.old.items ++ codes "{\"key\":\"" ++ escaped name.now ++ codes "\",\"value\":{\"intValue\":\"") }
{
    out.extend_from_slice(b"{\"key\":\"")?;
    append_escaped(name.as_bytes(), out)?;
    out.extend_from_slice(b"\",\"value\":{\"intValue\":\"")
}

// From behind a member's number up to the text: the members that follow it.
fn append_behind(members: &[(Text, Value)], out: &mut Vec<u8>) -> Result<(), AllocError>
    ensures { OnOk result (out.new.items ≡ out.old.items ++ codes "\"}}" ++ members_text (codes ",") (members_seen members.now) ++ codes "],\"body\":{\"stringValue\":\"") }
{
    out.extend_from_slice(b"\"}}")?;
    append_opened_members(b",{\"key\":\"", members, out)?;
    out.extend_from_slice(b"],\"body\":{\"stringValue\":\"")
}
