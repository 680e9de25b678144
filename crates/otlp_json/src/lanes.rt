// Where the first byte stands that a JSON string escapes. Up to 32 bytes are looked at at once; the last look at a text
// ends with it, over bytes that were looked at before.
ghost use Rattle.std.specs.Prelude.{◌≡◌, ◌<◌, ◌≤◌, ◌*◌, length, map, position};
ghost use Rattle.std.specs.List.{position_or_len};
ghost use Rattle.std.specs.Simd.Lanes.{mask_l};
ghost use Rattle.otlp_json.specs.Escaped.{needs_escape};

use std::simd::prelude::*;

#[inline(always)]
pub fn first_escape(text: &[u8]) -> Option<usize>
    ensures { result ≡ position needs_escape text.now }
{
    let at = plain_length(text);
    if at < text.len() { Some(at) } else { None }
}

/// How many bytes in front stand for themselves.
#[inline(always)]
fn plain_length(text: &[u8]) -> usize
    ensures { result ≡ position_or_len needs_escape text.now }
{
    match text.len() {
        0..4 => plain_length_of_few(text),
        4..8 => plain_length_by_ends::<4>(text),
        8..16 => plain_length_by_ends::<8>(text),
        16..32 => plain_length_by_ends::<16>(text),
        _ => plain_length_by_32(text),
    }
}

fn plain_length_of_few(text: &[u8]) -> usize
    ensures { result ≡ position_or_len needs_escape text.now }
{
    let mut at = 0;
    while at < text.len() && !is_escaped(text[at]) {
        at += 1;
    }
    at
}

#[inline(always)]
pub fn is_escaped(byte: u8) -> bool
    ensures { result ≡ needs_escape byte }
{
    byte == b'"' || byte == b'\\' || byte < 0x20
}

/// By looks at the first and at the last bytes, which are all.
#[inline(always)]
pub fn plain_length_by_ends<const N: usize>(text: &[u8]) -> usize
    requires lanes { (0 < N) × (N ≤ 64) }
    requires few { length text.now ≤ 2 * N }
    requires many { N ≤ length text.now }
    ensures { result ≡ position_or_len needs_escape text.now }
{
    let found = escaped_of(Simd::<u8, N>::from_slice(text));
    if found != 0 {
        return found.trailing_zeros() as usize;
    }
    let last = text.len() - N;
    let found = escaped_of(Simd::<u8, N>::from_slice(&text[last..]));
    if found != 0 {
        return last + found.trailing_zeros() as usize;
    }
    text.len()
}

fn plain_length_by_32(text: &[u8]) -> usize
    requires { 32 ≤ length text.now }
    ensures { result ≡ position_or_len needs_escape text.now }
{
    let last = text.len() - 32;
    let mut at = 0;
    while at < last {
        let found = escaped_of(u8x32::from_slice(&text[at..]));
        if found != 0 {
            return at + found.trailing_zeros() as usize;
        }
        at += 32;
    }
    let found = escaped_of(u8x32::from_slice(&text[last..]));
    if found != 0 {
        return last + found.trailing_zeros() as usize;
    }
    text.len()
}

/// How many of 16 bytes in front stand for themselves.
#[inline(always)]
pub fn plain_of_16(lanes: u8x16) -> usize
    ensures run { result ≡ position_or_len needs_escape lanes }
    ensures fits { result ≤ 16 }
{
    let found = escaped_of(lanes);
    if found == 0 {
        return 16;
    }
    found.trailing_zeros() as usize
}

// The lanes of bytes that are escaped, as the bits of a number.
#[inline(always)]
fn escaped_of<const N: usize>(lanes: Simd<u8, N>) -> u64
    requires { N ≤ 64 }
    ensures { result ≡ mask_l (map needs_escape lanes.entry) }
{
    (lanes.simd_eq(Simd::splat(b'"'))
        | lanes.simd_eq(Simd::splat(b'\\'))
        | lanes.simd_lt(Simd::splat(0x20))).to_bitmask()
}
