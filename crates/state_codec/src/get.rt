// The calls that read at a place of some bytes.
ghost use Rattle.std.specs.Prelude.{◌≡◌, ℕ, ◌<◌, ◌^◌, ◌≢◌, Err, length, drop};
ghost use Rattle.std.specs.Int.{w32, w64, to_be_bytes};
ghost use Rattle.entry_model.specs.LogRecord.{log_record};
ghost use Rattle.state_codec.specs.Spelling.{bytes_spelling, entry_spelling};
ghost use Rattle.state_codec.specs.Rules.{IsShortText, IsReadable};
ghost use Rattle.state_codec.specs.Reading.{number_at, bytes_at, text_at, entry_at};
ghost use Rattle.state_codec.specs.Gives.{IsTold};
ghost use Rattle.state_codec.specs.Reads.{Reads};

use crate::CodecFault;
use crate::cursor::Fault;
use crate::entry::read_entry;
use crate::read::{read_bytes, read_text, read_u32, read_u64};
use entry_model::{Entry, Text};
use std::alloc::Global;

/// The number in the four bytes at a place, and the place behind it.
pub fn get_u32(bytes: &[u8], at: usize) -> Result<(u32, usize), CodecFault>
    ensures reads { Reads (λ n. n) (to_be_bytes w32) (λ n. n < 2 ^ 32) (number_at w32) bytes.now at result }
    ensures no_memory { result ≢ Err CodecFault.Memory }
{
    match read_u32(behind(bytes, at)) {
        Ok((value, rest)) => Ok((value, bytes.len() - rest.len())),
        Err(_) => Err(CodecFault::Malformed { at: bytes.len() }),
    }
}

/// The number in the eight bytes at a place, and the place behind it.
pub fn get_u64(bytes: &[u8], at: usize) -> Result<(u64, usize), CodecFault>
    ensures reads { Reads (λ n. n) (to_be_bytes w64) (λ n. n < 2 ^ 64) (number_at w64) bytes.now at result }
    ensures no_memory { result ≢ Err CodecFault.Memory }
{
    match read_u64(behind(bytes, at)) {
        Ok((value, rest)) => Ok((value, bytes.len() - rest.len())),
        Err(_) => Err(CodecFault::Malformed { at: bytes.len() }),
    }
}

/// The bytes that are spelled at a place, and the place behind them.
pub fn get_bytes(alloc: Global, bytes: &[u8], at: usize) -> Result<(Vec<u8>, usize), CodecFault>
    ensures { Reads (λ v. v.items) bytes_spelling (λ v. length v < 2 ^ 32) bytes_at bytes.now at result }
{
    match read_bytes(alloc, behind(bytes, at)) {
        Ok((value, rest)) => Ok((value, bytes.len() - rest.len())),
        Err(fault) => Err(told(bytes.len(), fault)),
    }
}

/// The text that is spelled at a place, and the place behind it.
pub fn get_text(alloc: Global, bytes: &[u8], at: usize) -> Result<(Text, usize), CodecFault>
    ensures { Reads (λ t. t) bytes_spelling IsShortText text_at bytes.now at result }
{
    match read_text(alloc, behind(bytes, at)) {
        Ok((value, rest)) => Ok((value, bytes.len() - rest.len())),
        Err(fault) => Err(told(bytes.len(), fault)),
    }
}

/// The entry that is spelled at a place, and the place behind it.
pub fn get_entry(alloc: Global, bytes: &[u8], at: usize) -> Result<(Entry, usize), CodecFault>
    ensures { Reads log_record entry_spelling IsReadable entry_at bytes.now at result }
{
    match read_entry(alloc, behind(bytes, at)) {
        Ok((value, rest)) => Ok((value, bytes.len() - rest.len())),
        Err(fault) => Err(told(bytes.len(), fault)),
    }
}

/// The bytes from a place on, which are none past the end.
fn behind(bytes: &[u8], at: usize) -> &[u8]
    ensures { result.now ≡ drop at bytes.now }
{
    if at < bytes.len() { &bytes[at..] } else { &[] }
}

fn told(size: usize, fault: Fault) -> CodecFault
    ensures { IsTold size fault result }
{
    match fault {
        Fault::Malformed(left) => CodecFault::Malformed {
            at: size.saturating_sub(left),
        },
        Fault::Memory => CodecFault::Memory,
    }
}
