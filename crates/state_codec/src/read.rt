//! Readers of what stands at the front of some bytes: numbers, bytes and texts.
ghost use Rattle.std.specs.Prelude.{◌≡◌, ◌+◌, ◌-◌, ◌<◌, ◌≤◌, ℕ, length, drop, map, IfErr};
ghost use Rattle.std.specs.Int.{w32, w64};
ghost use Rattle.state_codec.specs.Gives.{Gives};
ghost use Rattle.state_codec.specs.Reading.{number_at, bytes_at, text_at, text_fault, character_len};
ghost use Rattle.std.specs.Str.{IsErrorLen};
ghost use Rattle.std.specs.Str.Lossy.{utf8_valid_len, utf8_error_len};

use crate::cursor::Fault;
use entry_model::Text;
use std::alloc::Global;

/// A number of four bytes.
#[tactic(auto, unfolding(crate::specs::Reading::number_at))]
pub fn read_u32(bytes: &[u8]) -> Result<(u32, &[u8]), Fault>
    ensures exact { Gives (λ x. (x.0, x.1.now)) result (number_at w32 bytes.now) }
    ensures short { IfErr result (λ fault. fault ≡ Fault.Malformed 0) }
{
    if bytes.len() < 4 {
        return Err(Fault::Malformed(0));
    }
    let (front, rest) = bytes.split_at(4);
    let number = u32::from_be_bytes([front[0], front[1], front[2], front[3]]);
    Ok((number, rest))
}

/// A number of eight bytes.
#[tactic(auto, unfolding(crate::specs::Reading::number_at))]
pub fn read_u64(bytes: &[u8]) -> Result<(u64, &[u8]), Fault>
    ensures exact { Gives (λ x. (x.0, x.1.now)) result (number_at w64 bytes.now) }
    ensures short { IfErr result (λ fault. fault ≡ Fault.Malformed 0) }
{
    if bytes.len() < 8 {
        return Err(Fault::Malformed(0));
    }
    let (front, rest) = bytes.split_at(8);
    let number = u64::from_be_bytes([
        front[0], front[1], front[2], front[3], front[4], front[5], front[6], front[7],
    ]);
    Ok((number, rest))
}

/// As many bytes as the number before them says.
#[tactic(auto, unfolding(crate::specs::Reading::bytes_at))]
pub fn read_bytes(alloc: Global, bytes: &[u8]) -> Result<(Vec<u8>, &[u8]), Fault>
    ensures { Gives (λ x. (x.0.items, x.1.now)) result (bytes_at bytes.now) }
{
    let (size, rest) = read_u32(bytes)?;
    let size = size as usize;
    if rest.len() < size {
        return Err(Fault::Malformed(0));
    }
    let (front, rest) = rest.split_at(size);
    Ok((Vec::from_slice(alloc, front)?, rest))
}

/// A text, of which as many bytes are looked at as are there.
#[tactic(auto, unfolding(crate::specs::Reading::text_at))]
pub fn read_text(alloc: Global, bytes: &[u8]) -> Result<(Text, &[u8]), Fault>
    ensures { Gives (λ x. (x.0, x.1.now)) result (text_at bytes.now) }
{
    let (size, rest) = read_u32(bytes)?;
    let size = size as usize;
    let front = &rest[..size.min(rest.len())];
    match std::str::from_utf8(front) {
        Ok(text) => {
            if front.len() < size {
                return Err(Fault::Malformed(0));
            }
            Ok((Text::from_str(alloc, text)?, &rest[size..]))
        }
        Err(fault) => {
            let fault = text_fault(size, front, fault.valid_up_to(), fault.error_len());
            Err(Fault::Malformed(rest.len() - fault))
        }
    }
}

/// The first of these bytes that can't stand in a text of so many, where they are no text beyond `valid`.
fn text_fault(size: usize, bytes: &[u8], valid: usize, behind: Option<usize>) -> usize
    requires within { valid < length bytes.now }
    requires size { length bytes.now ≤ size }
    requires bound { IsErrorLen bytes.now valid behind }
    requires valid { valid ≡ utf8_valid_len bytes.now }
    requires behind { behind ≡ utf8_error_len (drop valid bytes.now) }
    ensures value { result ≡ text_fault size bytes.now }
    ensures within { result ≤ length bytes.now }
{
    let room = character_len(bytes[valid]);
    if room == 0 || size - valid < room {
        return valid;
    }
    match behind {
        None => bytes.len(),
        Some(behind) => valid + behind,
    }
}

/// How many bytes a character has that begins with this byte, or 0 where none does.
fn character_len(lead: u8) -> usize
    ensures { result ≡ character_len lead }
{
    match lead {
        0..=0x7F => 1,
        0xC2..=0xDF => 2,
        0xE0..=0xEF => 3,
        0xF0..=0xF4 => 4,
        _ => 0,
    }
}
