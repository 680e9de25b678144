// Values, lists and objects (RFC 8259, sections 2 to 5).
ghost use Rattle.std.specs.Prelude.{ℕ, ◌≡◌, ◌≢◌, ◌≤◌, ◌<◌, suc, false, [], ◌∷◌, codes, length, slice_index, IfOk, IfErr, OnOk};
ghost use Rattle.std.specs.BTreeMap.{insert_entry};
ghost use Rattle.std.specs.Cmp.Lexicographic.{slice_cmp};
ghost use Rattle.std.specs.Ordering.{nat_cmp};
ghost use Rattle.std.specs.Str.{IsCharBoundary};
ghost use Rattle.entry_model.specs.Datum.{Datum, datum, null as no_value, boolean as truth};
ghost use Rattle.json_text.specs.Bytes.{is_blank};
ghost use Rattle.json_text.specs.Fault.{IsFault};
ghost use Rattle.json_text.specs.Grammar.{IsText};
ghost use Rattle.json_text.specs.Machine.{state, opened_list, opened_map, wants_value, wants_name, in_text, a_value, no_content, in_list};
ghost use Rattle.json_text.specs.Reads.{Reads, Leads, Refuses, Around, value_from, value_read_as, behind, member_from, named_as, scalar_from, word_from};

use crate::JsonFault;
use crate::bytes::{byte_at, expect, skip_blanks, stands};
use crate::number::number;
use crate::strings::string;
use entry_model::{Fields, FieldsBuilder, Text, Value, Values};
use std::alloc::{AllocError, Global};

/// How many lists and objects may be open at once.
const MAX_LEVELS: usize = 64;

/// The value that a text spells by the grammar of RFC 8259, with blanks around it.
///
/// An integer that fits an `i64` is an `Int` (`-0` is 0), and any other number the `Text` that spells it. Of a repeated
/// name the last value stays. A `\u` escape of half a surrogate pair is U+FFFD.
///
/// `Syntax` for every other text, at the first byte from which it can't go on, or at its length where only more is
/// missing. `TooDeep` where the text can go on with the bracket there only if it opens the 65th level. The first of the
/// two in the text counts.
pub fn read(alloc: Global, text: &str) -> Result<Value, JsonFault>
    ensures ok { IfOk result (λ value. IsText 64 text.now (datum value)) }
    ensures fault { IfErr result (IsFault text.now) }
{
    let (value, next) = match value(alloc, text, 0, MAX_LEVELS) {
        Ok(read) => read,
        Err(fault) => return Err(fault),
    };
    let end = skip_blanks(text, next);
    if end < text.len() {
        return Err(JsonFault::Syntax { at: end });
    }
    Ok(value)
}

/// The value at `at` or behind blanks there, and the place behind it. So many levels may be opened.
#[cycle(value)]
fn value(alloc: Global, text: &str, at: usize, room: usize) -> Result<(Value, usize), JsonFault>
    requires { at ≤ length text.now }
    ensures { Reads text.now at (value_from room) (value_read_as room) result }
{
    let at = skip_blanks(text, at);
    let Some(byte) = byte_at(text, at) else {
        return Err(JsonFault::Syntax { at });
    };
    if byte == b'[' {
        if room == 0 {
            return Err(JsonFault::TooDeep { at });
        }
        return list(alloc, text, at + 1, room - 1);
    }
    if byte == b'{' {
        if room == 0 {
            return Err(JsonFault::TooDeep { at });
        }
        return map(alloc, text, at + 1, room - 1);
    }
    scalar(alloc, text, at, byte)
}

/// The value at `at` that begins with this byte, where it is no list and no object, and the place behind it.
fn scalar(alloc: Global, text: &str, at: usize, byte: u8) -> Result<(Value, usize), JsonFault>
    requires inside { at < length text.now }
    requires is { slice_index text.now at ≡ byte }
    requires no_blank { is_blank byte ≡ false }
    requires no_list { byte ≢ 91 }
    requires no_map { byte ≢ 123 }
    ensures { Reads text.now at scalar_from (λ around value. behind (datum value) around) result }
{
    if byte == b'"' {
        return text_value(alloc, text, at + 1);
    }
    if byte == b'n' {
        return null(text, at + 1);
    }
    if byte == b't' {
        return boolean(text, at + 1, b"rue", true);
    }
    if byte == b'f' {
        return boolean(text, at + 1, b"alse", false);
    }
    number(alloc, text, at)
}

/// Null, and the place behind its word, whose first letter stands before `at`.
fn null(text: &str, at: usize) -> Result<(Value, usize), JsonFault>
    requires { at ≤ length text.now }
    ensures { Reads text.now at (word_from (codes "ull") no_value) (λ around value. behind (datum value) around) result }
{
    match word(text, at, b"ull") {
        Ok(next) => Ok((Value::Null, next)),
        Err(fault) => Err(fault),
    }
}

/// The truth value, and the place behind its word, which goes on so at `at`.
fn boolean(text: &str, at: usize, rest: &[u8], flag: bool) -> Result<(Value, usize), JsonFault>
    requires { at ≤ length text.now }
    ensures { Reads text.now at (word_from rest.now (truth flag)) (λ around value. behind (datum value) around) result }
{
    match word(text, at, rest) {
        Ok(next) => Ok((Value::Bool(flag), next)),
        Err(fault) => Err(fault),
    }
}

/// The string whose first quote stands before `at`, as a value, and the place behind its second.
fn text_value(alloc: Global, text: &str, at: usize) -> Result<(Value, usize), JsonFault>
    requires { IsCharBoundary text.now at }
    ensures { Reads {Around = Around} text.now at (λ around. state (in_text a_value no_content) around.0 around.1) (λ around value. behind (datum value) around) result }
{
    match string(alloc, text, at) {
        Ok((content, next)) => Ok((Value::Text(content), next)),
        Err(fault) => Err(fault),
    }
}

/// The list whose bracket stands before `at`, and the place behind it.
#[cycle(value)]
fn list(alloc: Global, text: &str, at: usize, room: usize) -> Result<(Value, usize), JsonFault>
    requires { at ≤ length text.now }
    ensures { Reads text.now at (λ frames. state opened_list frames room) (value_read_as (suc room)) result }
{
    let at = skip_blanks(text, at);
    if stands(text, at, b']') {
        return Ok((Value::List(Values::new(alloc)), at + 1));
    }
    items(alloc, text, at, room)
}

/// The list whose first value stands at `at`, and the place behind it.
#[cycle(value)]
fn items(alloc: Global, text: &str, at: usize, room: usize) -> Result<(Value, usize), JsonFault>
    requires { at ≤ length text.now }
    ensures { Reads text.now at (λ frames. state wants_value (in_list [] ∷ frames) room) (value_read_as (suc room)) result }
{
    let mut values = Values::new(alloc);
    let mut place = at;
    loop {
        let (one, next) = match value(alloc, text, place, room) {
            Ok(read) => read,
            Err(fault) => return Err(fault),
        };
        values.push(one)?;
        let end = skip_blanks(text, next);
        if stands(text, end, b']') {
            return Ok((Value::List(values), end + 1));
        }
        if !stands(text, end, b',') {
            return Err(JsonFault::Syntax { at: end });
        }
        place = end + 1;
    }
}

/// The object whose bracket stands before `at`, and the place behind it.
#[cycle(value)]
fn map(alloc: Global, text: &str, at: usize, room: usize) -> Result<(Value, usize), JsonFault>
    requires { at ≤ length text.now }
    ensures { Reads text.now at (λ frames. state opened_map frames room) (value_read_as (suc room)) result }
{
    let at = skip_blanks(text, at);
    if stands(text, at, b'}') {
        return Ok((Value::Map(Fields::new(alloc)), at + 1));
    }
    members(alloc, text, at, room)
}

/// The object whose first name stands at `at`, and the place behind it.
#[cycle(value)]
fn members(alloc: Global, text: &str, at: usize, room: usize) -> Result<(Value, usize), JsonFault>
    requires { at ≤ length text.now }
    ensures { Reads text.now at (λ frames. state (wants_name []) frames room) (value_read_as (suc room)) result }
{
    let mut fields = FieldsBuilder::new(alloc);
    let mut place = at;
    loop {
        let (name, behind) = match name(alloc, text, place) {
            Ok(read) => read,
            Err(fault) => return Err(fault),
        };
        let (one, next) = match value(alloc, text, behind, room) {
            Ok(read) => read,
            Err(fault) => return Err(fault),
        };
        put(&mut fields, name, one)?;
        let end = skip_blanks(text, next);
        if stands(text, end, b'}') {
            let members = fields.finish()?;
            return Ok((Value::Map(members), end + 1));
        }
        if !stands(text, end, b',') {
            return Err(JsonFault::Syntax { at: end });
        }
        place = end + 1;
    }
}

/// Puts a member into the object. The value of an earlier one of the name goes.
fn put(fields: &mut FieldsBuilder, name: Text, value: Value) -> Result<(), AllocError>
    ensures { OnOk result (fields.new.entries ≡ insert_entry (slice_cmp nat_cmp) fields.old.entries name value) }
{
    fields.insert(name, value)
}

/// The name of a member with its colon, and the place behind them.
fn name(alloc: Global, text: &str, at: usize) -> Result<(Text, usize), JsonFault>
    requires { at ≤ length text.now }
    ensures { (room : ℕ) → Reads text.now at (member_from room) (named_as room) result }
{
    let quote = match expect(text, at, b'"') {
        Ok(quote) => quote,
        Err(fault) => return Err(fault),
    };
    let (name, end) = match string(alloc, text, quote) {
        Ok(read) => read,
        Err(fault) => return Err(fault),
    };
    match expect(text, end, b':') {
        Ok(next) => Ok((name, next)),
        Err(fault) => Err(fault),
    }
}

/// The place behind what a word goes on with at `at`.
fn word(text: &str, at: usize, word: &[u8]) -> Result<usize, JsonFault>
    requires { at ≤ length text.now }
    ensures ok { (value : Datum) → IfOk result (λ next. Leads text.now at (word_from word.now value) next (behind value)) }
    ensures fault { (value : Datum) → IfErr result (Refuses text.now at (word_from word.now value)) }
{
    let mut place = at;
    for wanted in word {
        if !stands(text, place, *wanted) {
            return Err(JsonFault::Syntax { at: place });
        }
        place += 1;
    }
    Ok(place)
}
