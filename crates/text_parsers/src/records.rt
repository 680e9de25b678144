// The records of a CSV text.
ghost use Rattle.std.specs.Prelude.{◌≡◌, ◌||◌, [], ℕ, IfOk, IfErr};
ghost use Rattle.std.specs.List.{list_any};
ghost use Rattle.csv.specs.Machine as machine;
ghost use Rattle.csv.specs.Reading.{strip_bom};
ghost use Rattle.csv.specs.Records.{fields_of, partial_of};
ghost use Rattle.text_parsers.specs.CsvRecords.{config_with, records_of};
ghost use Rattle.text_parsers.specs.Split.{IsSplit};
ghost use Rattle.text_parsers.specs.FirstRecord.{state_of, is_line_end as ends_line, is_other, IsStep, Takes, IsFirst, HasEnded};
ghost use Rattle.text_parsers.specs.declared.fault.ParseFault.TheVariants.{Memory};

use crate::ParseFault;
use csv::ByteRecord;
use std::alloc::{AllocError, Global};

/// How many records a text has.
#[derive(Clone, Copy)]
pub enum Split {
    Nothing,
    One,
    More,
}

/// Where in a record its reader stands.
#[derive(Clone, Copy)]
pub enum Place {
    /// In front of the record, where line ends are passed over.
    Front,
    /// In front of a field.
    Between,
    Field,
    /// Behind the first quote of a field.
    Quoted,
    /// Behind a quote that may be the second one.
    Closed,
}

/// What a byte does.
#[derive(Clone, Copy)]
pub enum Step {
    Skips(Place),
    /// It is one of the field's.
    Adds(Place),
    EndsField,
    EndsRecord,
}

/// What was read of a record.
#[derive(Drop)]
pub struct Reading {
    place: Place,
    /// The field at hand.
    field: Vec<u8>,
    /// The fields before it.
    row: ByteRecord,
}

/// The first record of the text as the crate `csv` reads it, and whether there are more.
pub fn split_record(
    alloc: Global,
    text: &str,
    delimiter: u8,
    row: &mut ByteRecord,
) -> Result<Split, ParseFault>
    ensures ok { IfOk result (λ split. IsSplit (records_of delimiter text.now) split (fields_of row.new)) }
    ensures fault { IfErr result (λ fault. fault ≡ Memory) }
{
    let bytes = without_mark(text.as_bytes());
    let mut reading = Reading::new(alloc, bytes.len())?;
    let end = reading.first(delimiter, bytes)?;
    let Reading { row: read, .. } = reading;
    *row = read;
    match end {
        None => Ok(Split::Nothing),
        Some(end) => {
            if is_more(&bytes[end..]) {
                return Ok(Split::More);
            }
            Ok(Split::One)
        }
    }
}

/// The bytes behind a byte order mark, where they begin with one.
fn without_mark(bytes: &[u8]) -> &[u8]
    ensures { result.now ≡ strip_bom bytes.now }
{
    if bytes.starts_with(b"\xef\xbb\xbf") {
        return &bytes[3..];
    }
    bytes
}

/// Whether what stands behind a record has one more: anything but line ends.
fn is_more(bytes: &[u8]) -> bool
    ensures { result ≡ list_any is_other bytes.now }
{
    bytes.iter().any(|byte| is_other(*byte))
}

fn is_other(byte: u8) -> bool
    ensures { result ≡ is_other byte }
{
    !is_line_end(byte)
}

fn is_line_end(byte: u8) -> bool
    ensures { result ≡ ends_line byte }
{
    byte == b'\r' || byte == b'\n'
}

impl Reading {
    /// What stands in front of a record that has at most so many bytes.
    fn new(alloc: Global, most: usize) -> Result<Reading, AllocError>
        ensures place { IfOk result (λ reading. reading.place ≡ Place.Front) }
        ensures field { IfOk result (λ reading. reading.field.items ≡ []) }
        ensures fields { IfOk result (λ reading. fields_of reading.row ≡ []) }
        ensures partial { IfOk result (λ reading. partial_of reading.row ≡ []) }
    {
        Ok(Reading {
            place: Place::Front,
            field: Vec::with_capacity(alloc, most)?,
            row: ByteRecord::with_capacity(alloc, most, 16)?,
        })
    }

    /// Reads the first record of the bytes, and answers where it ends with its line; `None` where there is none.
    fn first(&mut self, delimiter: u8, bytes: &[u8]) -> Result<Option<usize>, AllocError>
        requires place { self.old.place ≡ Place.Front }
        requires field { self.old.field.items ≡ [] }
        requires fields { fields_of self.old.row ≡ [] }
        requires partial { partial_of self.old.row ≡ [] }
        ensures { IfOk result (IsFirst delimiter bytes.now (fields_of self.new.row)) }
    {
        for (at, byte) in bytes.iter().enumerate() {
            let goes_on = self.take(delimiter, *byte)?;
            if !goes_on {
                return Ok(Some(at + 1));
            }
        }
        let ends = self.end()?;
        if !ends {
            return Ok(None);
        }
        Ok(Some(bytes.len()))
    }

    /// Reads a byte more, and answers whether the record goes on.
    fn take(&mut self, delimiter: u8, byte: u8) -> Result<bool, AllocError>
        requires { partial_of self.old.row ≡ [] }
        ensures partial { IfOk result (λ goes_on. partial_of self.new.row ≡ []) }
        ensures takes { IfOk result (Takes delimiter self.old byte self.new) }
    {
        match step_at(self.place, delimiter, byte) {
            Step::Skips(next) => {
                self.place = next;
                Ok(true)
            }
            Step::Adds(next) => {
                self.field.push(byte)?;
                self.place = next;
                Ok(true)
            }
            Step::EndsField => {
                self.row.push_field(&self.field)?;
                self.field.clear();
                self.place = Place::Between;
                Ok(true)
            }
            Step::EndsRecord => {
                self.row.push_field(&self.field)?;
                Ok(false)
            }
        }
    }

    /// Ends the record where the bytes end, and answers whether there is one.
    fn end(&mut self) -> Result<bool, AllocError>
        requires { partial_of self.old.row ≡ [] }
        ensures { IfOk result (HasEnded self.old (fields_of self.new.row)) }
    {
        match self.place {
            Place::Front => Ok(false),
            _ => {
                self.row.push_field(&self.field)?;
                Ok(true)
            }
        }
    }
}

fn step_at(place: Place, delimiter: u8, byte: u8) -> Step
    ensures { IsStep (machine.step (config_with delimiter) (state_of place) byte) result }
{
    match place {
        Place::Front => at_front(delimiter, byte),
        Place::Between => between(delimiter, byte),
        Place::Field => in_field(delimiter, byte),
        Place::Quoted => in_quotes(byte),
        Place::Closed => behind_quote(delimiter, byte),
    }
}

fn at_front(delimiter: u8, byte: u8) -> Step
    ensures { IsStep (machine.start_record (config_with delimiter) byte) result }
{
    if is_line_end(byte) {
        return Step::Skips(Place::Front);
    }
    between(delimiter, byte)
}

fn between(delimiter: u8, byte: u8) -> Step
    ensures { IsStep (machine.start_field (config_with delimiter) byte) result }
{
    if byte == b'"' {
        return Step::Skips(Place::Quoted);
    }
    in_field(delimiter, byte)
}

fn in_field(delimiter: u8, byte: u8) -> Step
    ensures { IsStep (machine.in_field (config_with delimiter) byte) result }
{
    if byte == delimiter {
        return Step::EndsField;
    }
    if is_line_end(byte) {
        return Step::EndsRecord;
    }
    Step::Adds(Place::Field)
}

fn in_quotes(byte: u8) -> Step
    ensures { (delimiter : ℕ) → IsStep (machine.step (config_with delimiter) (state_of Place.Quoted) byte) result }
{
    if byte == b'"' {
        return Step::Skips(Place::Closed);
    }
    Step::Adds(Place::Quoted)
}

/// Two quotes stand for one.
fn behind_quote(delimiter: u8, byte: u8) -> Step
    ensures { IsStep (machine.step (config_with delimiter) (state_of Place.Closed) byte) result }
{
    if byte == b'"' {
        return Step::Adds(Place::Quoted);
    }
    in_field(delimiter, byte)
}
