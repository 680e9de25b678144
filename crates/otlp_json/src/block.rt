// Text whose escapes stand close to each other, escaped into a block of a fixed size. Looks at 16 bytes at a time are
// copied whole, and the block goes on behind those that stand for themselves.
ghost use Rattle.std.specs.Prelude.{◌≡◌, ◌+◌, ◌*◌, ◌<◌, ◌≤◌, ◌++◌, IsTrue, length, take, drop};
ghost use Rattle.otlp_json.specs.Escaped.{needs_escape, escaped_byte, escaped};

use crate::escape::{escape_letter, long_escape};
use crate::lanes::{is_escaped, plain_of_16};
use std::simd::prelude::*;

pub const BLOCK: usize = 128;

/// Escapes bytes in front of the text, at least one, as many as the block surely has room for. Answers how many, and how
/// many bytes of the block they make.
pub fn escape_block(text: &[u8], block: &mut [u8]) -> (usize, usize)
    requires some { 0 < length text.now }
    requires room { length block.old ≡ 128 }
    ensures bytes { take result.1 block.new ++ escaped (drop result.0 text.now) ≡ escaped text.now }
    ensures taken { (0 < result.0) × (result.0 ≤ length text.now) }
    ensures made { result.1 ≤ 128 }
    ensures size { length block.new ≡ length block.old }
{
    let (taken, made) = escape_lanes(text, block);
    if text.len() - taken < 16 {
        return escape_few(text, taken, block, made);
    }
    (taken, made)
}

// All but fewer than 16 bytes, where the block has the room.
#[inline(always)]
fn escape_lanes(text: &[u8], block: &mut [u8]) -> (usize, usize)
    requires { length block.old ≡ 128 }
    ensures bytes { take result.1 block.new ++ escaped (drop result.0 text.now) ≡ escaped text.now }
    ensures taken { result.0 ≤ length text.now }
    ensures some { 16 ≤ length text.now → 0 < result.0 }
    ensures made { (result.1 ≤ 128) × (result.1 ≤ 6 * result.0) }
    ensures size { length block.new ≡ length block.old }
{
    let mut taken = 0;
    let mut made = 0;
    while taken + 16 <= text.len() && made <= BLOCK - 22 {
        (taken, made) = escape_run(text, taken, block, made);
    }
    (taken, made)
}

// Up to the first byte of 16 that is escaped.
#[inline(always)]
fn escape_run(text: &[u8], taken: usize, block: &mut [u8], made: usize) -> (usize, usize)
    requires lanes { taken + 16 ≤ length text.now }
    requires room { made + 22 ≤ length block.old }
    ensures bytes { take result.1 block.new ++ escaped (drop result.0 text.now) ≡ take made block.old ++ escaped (drop taken text.now) }
    ensures taken { (taken < result.0) × (result.0 ≤ length text.now) }
    ensures made { (result.1 ≤ made + 22) × (result.1 + 6 * taken ≤ made + 6 * result.0) }
    ensures size { length block.new ≡ length block.old }
{
    let lanes = u8x16::from_slice(&text[taken..]);
    lanes.copy_to_slice(&mut block[made..]);
    let run = plain_of_16(lanes);
    if run == 16 {
        return (taken + 16, made + 16);
    }
    let made = escape_byte(text[taken + run], block, made + run);
    (taken + run + 1, made)
}

// Byte by byte from the place where `taken` and `made` are.
#[inline(always)]
fn escape_few(text: &[u8], taken: usize, block: &mut [u8], made: usize) -> (usize, usize)
    requires within { taken ≤ length text.now }
    requires room { (length block.old ≡ 128) × ((made ≤ 128) × (made ≤ 6 * taken)) }
    ensures bytes { take result.1 block.new ++ escaped (drop result.0 text.now) ≡ take made block.old ++ escaped (drop taken text.now) }
    ensures taken { (taken ≤ result.0) × (result.0 ≤ length text.now) }
    ensures some { taken ≡ 0 → 0 < length text.now → 0 < result.0 }
    ensures made { result.1 ≤ 128 }
    ensures size { length block.new ≡ length block.old }
{
    let mut at = taken;
    let mut len = made;
    while at < text.len() && len <= BLOCK - 6 {
        len = escape_byte(text[at], block, len);
        at += 1;
    }
    (at, len)
}

#[inline(always)]
fn escape_byte(byte: u8, block: &mut [u8], made: usize) -> usize
    requires { made + 6 ≤ length block.old }
    ensures bytes { take result block.new ≡ take made block.old ++ escaped_byte byte }
    ensures made { (made < result) × (result ≤ made + 6) }
    ensures size { length block.new ≡ length block.old }
{
    if is_escaped(byte) {
        return put_escape(byte, block, made);
    }
    put(&[byte], block, made)
}

#[inline(always)]
fn put_escape(byte: u8, block: &mut [u8], made: usize) -> usize
    requires escaped { IsTrue (needs_escape byte) }
    requires room { made + 6 ≤ length block.old }
    ensures bytes { take result block.new ≡ take made block.old ++ escaped_byte byte }
    ensures made { (made < result) × (result ≤ made + 6) }
    ensures size { length block.new ≡ length block.old }
{
    match escape_letter(byte) {
        Some(letter) => put(&[b'\\', letter], block, made),
        None => put(&long_escape(byte), block, made),
    }
}

#[inline(always)]
pub fn put(bytes: &[u8], block: &mut [u8], made: usize) -> usize
    requires { made + length bytes.now ≤ length block.old }
    ensures bytes { take result block.new ≡ take made block.old ++ bytes.now }
    ensures made { result ≡ made + length bytes.now }
    ensures size { length block.new ≡ length block.old }
{
    let end = made + bytes.len();
    block[made..end].copy_from_slice(bytes);
    end
}
