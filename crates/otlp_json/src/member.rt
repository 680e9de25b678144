// Members whose value is a text or an integer.
ghost use Rattle.std.specs.Prelude.{◌≡◌, ◌+◌, ◌*◌, ◌<◌, ◌≤◌, ◌++◌, [], IsTrue, IfSome, OnOk, codes, length, take};
ghost use Rattle.entry_model.specs.Datum.{int};
ghost use Rattle.otlp_json.specs.Escaped.{escaped};
ghost use Rattle.otlp_json.specs.HasFront.{HasFront};
ghost use Rattle.otlp_json.specs.Inner.WithQuoted.{with_quoted};
ghost use Rattle.otlp_json.specs.ValueText.{value_text};

use crate::block::put;
use crate::lanes::{first_escape, plain_length_by_ends};
use crate::string::append_escaped;
use entry_model::copies::{put_ends, put_lanes};
use itoa::Buffer;
use std::alloc::AllocError;

// The longest key and value that are short, in bytes.
const KEY: usize = 32;

const VALUE: usize = 96;

// What opens a member behind another one, in bytes.
const OPENING: usize = 9;

// Room for the longest member that is short.
const ROOM: usize = 176;

/// A KeyValue whose value is a text.
pub fn append_text_member(
    opening: &[u8],
    key: &[u8],
    text: &[u8],
    out: &mut Vec<u8>,
) -> Result<(), AllocError>
    ensures ok { OnOk result (out.new.items
        ≡ out.old.items ++ opening.now ++ escaped key.now ++ codes "\",\"value\":{\"stringValue\":\"" ++ escaped text.now ++ codes "\"}}") }
    ensures front { HasFront out.old.items out.new.items }
{
    append_quoted(opening, key, b"\",\"value\":{\"stringValue\":\"", text, out)
}

/// A KeyValue whose value is an integer.
pub fn append_int_member(
    opening: &[u8],
    key: &[u8],
    number: i64,
    out: &mut Vec<u8>,
) -> Result<(), AllocError>
    ensures ok { OnOk result (out.new.items
        ≡ out.old.items ++ opening.now ++ escaped key.now ++ codes "\",\"value\":" ++ value_text (int number) ++ codes "}") }
    ensures front { HasFront out.old.items out.new.items }
{
    let mut buffer = Buffer::new();
    let digits = buffer.format(number).as_bytes();
    append_quoted(opening, key, b"\",\"value\":{\"intValue\":\"", digits, out)
}

// A short member that stands for itself is made in a block of a fixed size, and appended as one piece. `between` stands
// between the key and the value's text.
#[inline(always)]
fn append_quoted(
    opening: &[u8],
    key: &[u8],
    between: &[u8],
    text: &[u8],
    out: &mut Vec<u8>,
) -> Result<(), AllocError>
    requires { length between.now ≤ 26 }
    ensures ok { OnOk result (out.new.items ≡ with_quoted out.old.items opening.now key.now between.now text.now) }
    ensures front { HasFront out.old.items out.new.items }
{
    if !is_short(opening, key, text) {
        return append_pieces(opening, key, between, text, out);
    }
    let mut block = [0; ROOM];
    match put_member(opening, key, between, text, &mut block) {
        Some(made) => out.extend_from_slice(&block[..made]),
        None => append_pieces(opening, key, between, text, out),
    }
}

#[inline(never)]
fn append_pieces(
    opening: &[u8],
    key: &[u8],
    between: &[u8],
    text: &[u8],
    out: &mut Vec<u8>,
) -> Result<(), AllocError>
    ensures ok { OnOk result (out.new.items ≡ with_quoted out.old.items opening.now key.now between.now text.now) }
    ensures front { HasFront out.old.items out.new.items }
{
    out.extend_from_slice(opening)?;
    append_escaped(key, out)?;
    out.extend_from_slice(between)?;
    append_escaped(text, out)?;
    out.extend_from_slice(b"\"}}")
}

#[inline(always)]
fn is_short(opening: &[u8], key: &[u8], text: &[u8]) -> bool
    ensures opening { IsTrue result → length opening.now ≡ 9 }
    ensures key { IsTrue result → length key.now ≤ 32 }
    ensures text { IsTrue result → length text.now ≤ 96 }
{
    opening.len() == OPENING && key.len() <= KEY && text.len() <= VALUE
}

// Nothing where a byte of the key or of the text is escaped.
#[inline(always)]
fn put_member(
    opening: &[u8],
    key: &[u8],
    between: &[u8],
    text: &[u8],
    block: &mut [u8],
) -> Option<usize>
    requires opening { length opening.now ≡ 9 }
    requires key { length key.now ≤ 32 }
    requires between { length between.now ≤ 26 }
    requires text { length text.now ≤ 96 }
    requires room { length block.old ≡ 176 }
    ensures bytes { IfSome result (λ made. take made block.new ≡ with_quoted [] opening.now key.now between.now text.now) }
    ensures made { IfSome result (λ made. made ≤ 176) }
    ensures size { length block.new ≡ length block.old }
{
    let made = put(&opening[..OPENING], block, 0);
    let made = put_plain(key, block, made)?;
    let made = put(between, block, made);
    let made = put_plain(text, block, made)?;
    Some(put(b"\"}}", block, made))
}

// A text that stands for itself.
#[inline(always)]
fn put_plain(text: &[u8], block: &mut [u8], made: usize) -> Option<usize>
    requires { made + length text.now ≤ length block.old }
    ensures bytes { IfSome result (λ end. take end block.new ≡ take made block.old ++ escaped text.now) }
    ensures made { IfSome result (λ end. end ≡ made + length text.now) }
    ensures size { length block.new ≡ length block.old }
{
    match text.len() {
        4..8 => put_plain_ends::<4>(text, block, made),
        8..16 => put_plain_ends::<8>(text, block, made),
        16..32 => put_plain_ends::<16>(text, block, made),
        _ => put_plain_run(text, block, made),
    }
}

// The first and the last bytes, which are all.
#[inline(always)]
fn put_plain_ends<const N: usize>(text: &[u8], block: &mut [u8], made: usize) -> Option<usize>
    requires lanes { (0 < N) × (N ≤ 64) }
    requires many { N ≤ length text.now }
    requires few { length text.now ≤ 2 * N }
    requires room { made + length text.now ≤ length block.old }
    ensures bytes { IfSome result (λ end. take end block.new ≡ take made block.old ++ escaped text.now) }
    ensures made { IfSome result (λ end. end ≡ made + length text.now) }
    ensures size { length block.new ≡ length block.old }
{
    if plain_length_by_ends::<N>(text) < text.len() {
        return None;
    }
    put_ends::<N>(text, block, made);
    Some(made + text.len())
}

#[inline(always)]
fn put_plain_run(text: &[u8], block: &mut [u8], made: usize) -> Option<usize>
    requires { made + length text.now ≤ length block.old }
    ensures bytes { IfSome result (λ end. take end block.new ≡ take made block.old ++ escaped text.now) }
    ensures made { IfSome result (λ end. end ≡ made + length text.now) }
    ensures size { length block.new ≡ length block.old }
{
    match first_escape(text) {
        Some(_) => None,
        None => {
            put_lanes(text, block, made);
            Some(made + text.len())
        }
    }
}
