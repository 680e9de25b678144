//! Bytes copied into a block where it isn't known how many there are when this is compiled. They are copied some at a time,
//! and the last again with those ahead of them, so nothing is called.
ghost use Rattle.std.specs.Prelude.{◌≡◌, ◌+◌, ◌*◌, ◌<◌, ◌≤◌, ◌++◌, length, take};

use std::simd::prelude::*;

/// Puts bytes into a block behind the `made` bytes that stand there.
#[inline(always)]
pub fn put_lanes(bytes: &[u8], block: &mut [u8], made: usize)
    requires { made + length bytes.now ≤ length block.old }
    ensures bytes { take (made + length bytes.now) block.new ≡ take made block.old ++ bytes.now }
    ensures size { length block.new ≡ length block.old }
{
    match bytes.len() {
        32.. => put_by_16(bytes, block, made),
        16..32 => put_ends::<16>(bytes, block, made),
        8..16 => put_ends::<8>(bytes, block, made),
        4..8 => put_ends::<4>(bytes, block, made),
        2..4 => put_ends::<2>(bytes, block, made),
        1 => block[made] = bytes[0],
        0 => {}
    }
}

/// As [`put_lanes`], where the first and the last bytes are all.
#[inline(always)]
pub fn put_ends<const N: usize>(bytes: &[u8], block: &mut [u8], made: usize)
    requires lanes { (0 < N) × (N ≤ 64) }
    requires many { N ≤ length bytes.now }
    requires few { length bytes.now ≤ 2 * N }
    requires room { made + length bytes.now ≤ length block.old }
    ensures bytes { take (made + length bytes.now) block.new ≡ take made block.old ++ bytes.now }
    ensures size { length block.new ≡ length block.old }
{
    let last = bytes.len() - N;
    Simd::<u8, N>::from_slice(bytes).copy_to_slice(&mut block[made..]);
    Simd::<u8, N>::from_slice(&bytes[last..]).copy_to_slice(&mut block[made + last..]);
}

#[inline(always)]
fn put_by_16(bytes: &[u8], block: &mut [u8], made: usize)
    requires many { 16 ≤ length bytes.now }
    requires room { made + length bytes.now ≤ length block.old }
    ensures bytes { take (made + length bytes.now) block.new ≡ take made block.old ++ bytes.now }
    ensures size { length block.new ≡ length block.old }
{
    let last = bytes.len() - 16;
    let mut at = 0;
    while at < last {
        u8x16::from_slice(&bytes[at..]).copy_to_slice(&mut block[made + at..]);
        at += 16;
    }
    u8x16::from_slice(&bytes[last..]).copy_to_slice(&mut block[made + last..]);
}
