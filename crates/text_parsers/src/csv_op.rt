// Members out of a CSV record.
ghost use Rattle.std.specs.Prelude.{◌≡◌, ◌<◌, ℕ, List, [], length, IfOk, IfErr, OnOk};
ghost use Rattle.std.specs.Str.Lossy.{utf8_lossy};
ghost use Rattle.csv.specs.Records.{fields_of};
ghost use Rattle.entry_model.specs.Datum.{datum, text as text_datum, members_of};
ghost use Rattle.entry_model.specs.Places.{value_set_at};
ghost use Rattle.entry_model.specs.Seen.{seen};
ghost use Rattle.json_text.specs.Grammar.{put_all};
ghost use Rattle.text_parsers.specs.CsvRecords.{IsRecordText, IsRecordFault, named, parts_of};
ghost use Rattle.text_parsers.specs.Inner.FieldSlices.{AreFields, HasFields, HasRecord};
ghost use Rattle.text_parsers.specs.TextValue.{IsTextWith, IsValueFault};

use crate::ParseFault;
use crate::field_slices::{field_count, first_field};
use crate::known_names::KnownNames;
use crate::members::set;
use crate::parts::first_part;
use crate::records::{Split, split_record};
use csv::ByteRecord;
use entry_model::{Fields, Text, Value};
use std::alloc::{AllocError, Global};
use std::marker::Model;
use std::str;

/// Takes the fields of a text that is one CSV record, by the names of a header.
#[derive(Drop)]
pub struct CsvOp {
    names: KnownNames,
    delimiter: u8,
}

impl Model for CsvOp {
    ghost use Rattle.std.specs.Prelude.{◌<◌};
    ghost use Rattle.text_parsers.specs.CsvRecords.{Columns};

    ghost Value = { Columns };

    ghost view = { λ op. record { names = op.names; delimiter = op.delimiter } };

    ghost invariant = { λ op. op.delimiter < 128 };
}

impl CsvOp {
    /// The header is the names, between delimiters.
    pub fn new(alloc: Global, header: &str, delimiter: u8) -> Result<CsvOp, AllocError>
        requires { delimiter < 128 }
        ensures { IfOk result (λ op. op ≡ record { names = parts_of delimiter header.now; delimiter = delimiter }) }
    {
        let names = names_of(alloc, header, delimiter)?;
        let names = KnownNames::new(alloc, names.as_slice())?;
        Ok(CsvOp { names, delimiter })
    }

    /// The fields by their names, as texts: those of the text's only record as the crate `csv` reads it, with U+FFFD
    /// for what isn't UTF-8.
    ///
    /// `FieldCount` where there is no record, or one with another number of fields; then `Syntax` at 0 where there is a
    /// second record.
    pub fn apply(&self, alloc: Global, value: &Value) -> Result<Fields, ParseFault>
        ensures ok { IfOk result (λ members. IsTextWith (datum value.now) (IsRecordText self.now (members_of (seen members.entries)))) }
        ensures fault { IfErr result (IsValueFault (IsRecordFault self.now) (datum value.now)) }
    {
        match value {
            Value::Text(text) => self.members(alloc, text.as_str()),
            Value::Null | Value::Bool(_) | Value::Int(_) | Value::List(_) | Value::Map(_) => {
                Err(ParseFault::NotText)
            }
        }
    }

    fn members(&self, alloc: Global, text: &str) -> Result<Fields, ParseFault>
        ensures ok { IfOk result (λ members. IsRecordText self.now (members_of (seen members.entries)) text.now) }
        ensures fault { IfErr result (IsRecordFault self.now text.now) }
    {
        match field_count(text, self.delimiter) {
            Some(got) => self.sliced_members(alloc, text, got),
            None => self.record_members(alloc, text),
        }
    }

    /// The fields of a text that is one record with so many that lie in it as they are, by their names.
    fn sliced_members(&self, alloc: Global, text: &str, got: usize) -> Result<Fields, ParseFault>
        requires { HasRecord self.now.delimiter text.now got }
        ensures ok { IfOk result (λ members. IsRecordText self.now (members_of (seen members.entries)) text.now) }
        ensures fault { IfErr result (IsRecordFault self.now text.now) }
    {
        let want = self.names.len();
        if got != want {
            return Err(ParseFault::FieldCount { want, got });
        }
        match name_slices(alloc, &self.names, text, self.delimiter) {
            Ok(members) => Ok(members),
            Err(_) => Err(ParseFault::Memory),
        }
    }

    /// The fields of the text's only record, by their names.
    fn record_members(&self, alloc: Global, text: &str) -> Result<Fields, ParseFault>
        ensures ok { IfOk result (λ members. IsRecordText self.now (members_of (seen members.entries)) text.now) }
        ensures fault { IfErr result (IsRecordFault self.now text.now) }
    {
        let want = self.names.len();
        let mut row = ByteRecord::new(alloc);
        let Ok(split) = split_record(alloc, text, self.delimiter, &mut row) else {
            return Err(ParseFault::Memory);
        };
        if let Split::Nothing = split {
            return Err(ParseFault::FieldCount { want, got: 0 });
        }
        let got = row.len();
        if got != want {
            return Err(ParseFault::FieldCount { want, got });
        }
        if let Split::More = split {
            return Err(ParseFault::Syntax { at: 0 });
        }
        match name_fields(alloc, &self.names, &row) {
            Ok(members) => Ok(members),
            Err(_) => Err(ParseFault::Memory),
        }
    }
}

/// The fields that lie in the text as they are, each with its name.
fn name_slices(
    alloc: Global,
    names: &KnownNames,
    text: &str,
    delimiter: u8,
) -> Result<Fields, AllocError>
    requires low { delimiter < 128 }
    requires fields { HasFields delimiter text.now }
    ensures { IfOk result (λ members. (fields : List (List ℕ)) → AreFields delimiter text.now fields → length fields ≡ length names.now → seen members.entries ≡ put_all [] (named names.now fields)) }
{
    let mut members = names.unset(alloc)?;
    let mut rest = text;
    let mut more = true;
    for place in names.places() {
        if !more {
            break;
        }
        let (field, behind, found) = first_field(rest, delimiter);
        set(alloc, &mut members, *place, field)?;
        rest = behind;
        more = found;
    }
    Ok(members)
}

/// The fields of the record, each with its name.
fn name_fields(alloc: Global, names: &KnownNames, row: &ByteRecord) -> Result<Fields, AllocError>
    requires { length (fields_of row.now) ≡ length names.now }
    ensures { IfOk result (λ members. seen members.entries ≡ put_all [] (named names.now (fields_of row.now))) }
{
    let mut members = names.unset(alloc)?;
    let places = names.places();
    for (index, place) in places.iter().enumerate() {
        let Some(field) = row.get(index) else {
            break;
        };
        set_field(alloc, &mut members, *place, field)?;
    }
    Ok(members)
}

fn set_field(alloc: Global, members: &mut Fields, at: usize, field: &[u8]) -> Result<(), AllocError>
    requires { at < length members.old.entries }
    ensures { OnOk result (seen members.new.entries ≡ value_set_at (seen members.old.entries) at (text_datum (utf8_lossy field.now))) }
{
    let value = text_of(alloc, field)?;
    members.set_at(at, Value::Text(value));
    Ok(())
}

/// Valid UTF-8 is taken as it is.
fn text_of(alloc: Global, field: &[u8]) -> Result<Text, AllocError>
    ensures { IfOk result (λ text. text ≡ utf8_lossy field.now) }
{
    match str::from_utf8(field) {
        Ok(text) => Ok(Text::from_str(alloc, text)?),
        Err(_) => Ok(Text::new(String::from_utf8_lossy(alloc, field)?)?),
    }
}

/// The parts of the header.
fn names_of(alloc: Global, header: &str, delimiter: u8) -> Result<Vec<Text>, AllocError>
    requires { delimiter < 128 }
    ensures { IfOk result (λ names. names.items ≡ parts_of delimiter header.now) }
{
    let mut names = Vec::new(alloc);
    let mut rest = header;
    'parts: loop {
        let (part, behind, found) = first_part(rest, delimiter);
        names.push(Text::from_str(alloc, part)?)?;
        if !found {
            return Ok(names);
        }
        rest = behind;
    }
}
