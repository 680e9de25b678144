// Readers of values, by their tags.
ghost use Rattle.std.specs.Prelude.{◌≡◌, ◌∷◌, map, All};
ghost use Rattle.std.specs.Bool.{OnTrue};
ghost use Rattle.std.specs.Map.{keys_of};
ghost use Rattle.std.specs.Ordering.{nat_cmp};
ghost use Rattle.std.specs.Cmp.Lexicographic.{slice_cmp};
ghost use Rattle.std.specs.declared.cmp.Ordering.TheVariants.{Greater};
ghost use Rattle.std.specs.Int.{w32, w64};
ghost use Rattle.entry_model.specs.Datum.{datum};
ghost use Rattle.entry_model.specs.Seen.{seen};
ghost use Rattle.state_codec.specs.Gives.{Gives};
ghost use Rattle.state_codec.specs.Reading.{leaf_at, value_at, list_at, map_at, fields_at, is_behind, last_key};

use crate::cursor::Fault;
use crate::read::{read_text, read_u32, read_u64};
use entry_model::{Fields, Text, Value, Values};
use std::alloc::Global;

#[tactic(auto, unfolding(crate::specs::Reading::leaf_at))]
fn read_leaf(alloc: Global, tag: u8, bytes: &[u8]) -> Result<(Value, &[u8]), Fault>
    ensures { Gives (λ x. (datum x.0, x.1.now)) result (leaf_at tag bytes.now) }
{
    match tag {
        0 => Ok((Value::Null, bytes)),
        1 => Ok((Value::Bool(false), bytes)),
        2 => Ok((Value::Bool(true), bytes)),
        3 => {
            let (number, rest) = read_u64(bytes)?;
            Ok((Value::Int(number.cast_signed()), rest))
        }
        4 => {
            let (text, rest) = read_text(alloc, bytes)?;
            Ok((Value::Text(text), rest))
        }
        _ => Err(Fault::Malformed(bytes.len() + 1)),
    }
}

/// A value in which `room` lists and maps may still be opened.
#[cycle(value)]
pub fn read_value(alloc: Global, room: usize, bytes: &[u8]) -> Result<(Value, &[u8]), Fault>
    ensures { Gives (λ x. (datum x.0, x.1.now)) result (value_at room bytes.now) }
{
    match bytes {
        [] => Err(Fault::Malformed(0)),
        [tag, rest @ ..] => read_tagged(alloc, room, *tag, rest),
    }
}

/// The same, behind the tag.
#[cycle(value)]
fn read_tagged(alloc: Global, room: usize, tag: u8, bytes: &[u8]) -> Result<(Value, &[u8]), Fault>
    ensures { Gives (λ x. (datum x.0, x.1.now)) result (value_at room (tag ∷ bytes.now)) }
{
    if room == 0 {
        return read_leaf(alloc, tag, bytes);
    }
    match tag {
        5 => {
            let (values, rest) = read_list(alloc, room - 1, bytes)?;
            Ok((Value::List(values), rest))
        }
        6 => {
            let (fields, rest) = read_map(alloc, room - 1, bytes)?;
            Ok((Value::Map(fields), rest))
        }
        leaf => read_leaf(alloc, leaf, bytes),
    }
}

#[cycle(value)]
#[tactic(auto, unfolding(crate::specs::Reading::list_at))]
fn read_list(alloc: Global, room: usize, bytes: &[u8]) -> Result<(Values, &[u8]), Fault>
    ensures { Gives (λ x. (map datum x.0.items, x.1.now)) result (list_at (value_at room) bytes.now) }
{
    let (count, mut rest) = read_u32(bytes)?;
    let mut values = Values::new(alloc);
    for _ in 0..count {
        let (value, after) = read_value(alloc, room, rest)?;
        values.push(value)?;
        rest = after;
    }
    Ok((values, rest))
}

#[cycle(value)]
#[tactic(auto, unfolding(crate::specs::Reading::map_at))]
fn read_map(alloc: Global, room: usize, bytes: &[u8]) -> Result<(Fields, &[u8]), Fault>
    ensures { Gives (λ x. (seen x.0.entries, x.1.now)) result (map_at (value_at room) bytes.now) }
{
    let (count, mut rest) = read_u32(bytes)?;
    let mut fields = Fields::new(alloc);
    for _ in 0..count {
        let (key, behind) = read_text(alloc, rest)?;
        if !is_last(&fields, &key) {
            return Err(Fault::Malformed(rest.len()));
        }
        let (value, after) = read_value(alloc, room, behind)?;
        fields.insert(key, value)?;
        rest = after;
    }
    Ok((fields, rest))
}

/// A key stands behind all keys of the map, in byte order.
fn is_last(fields: &Fields, key: &Text) -> bool
    ensures test { result ≡ is_behind (last_key fields.now.entries) key.now }
    ensures above { OnTrue result (All (λ k. slice_cmp nat_cmp key.now k ≡ Greater) (keys_of fields.now.entries)) }
{
    match fields.members().last() {
        None => true,
        Some((last, _)) => last < key,
    }
}

/// A map in which `room` lists and maps may still be opened.
#[tactic(auto, unfolding(crate::specs::Reading::fields_at))]
pub fn read_fields(alloc: Global, room: usize, bytes: &[u8]) -> Result<(Fields, &[u8]), Fault>
    ensures { Gives (λ x. (seen x.0.entries, x.1.now)) result (fields_at room bytes.now) }
{
    match bytes {
        [] => Err(Fault::Malformed(0)),
        [6, rest @ ..] => read_map(alloc, room, rest),
        [_, ..] => Err(Fault::Malformed(bytes.len())),
    }
}
