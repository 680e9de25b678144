// What stands between the quotes of a JSON string, and numbers.
ghost use Rattle.std.specs.Prelude.{◌≡◌, ◌++◌, ◌<◌, ◌≤◌, IfOk, OnOk, IsTrue, Some, decimal, length, drop, position};
ghost use Rattle.std.specs.Fmt.{signed_decimal};
ghost use Rattle.otlp_json.specs.Escaped.{needs_escape, escaped_byte, escaped};
ghost use Rattle.otlp_json.specs.HasFront.{HasFront};

use crate::block::{BLOCK, escape_block};
use crate::escape::{escape_letter, long_escape};
use crate::lanes::first_escape;
use itoa::Buffer;
use std::alloc::AllocError;

pub fn append_decimal(number: u64, out: &mut Vec<u8>) -> Result<(), AllocError>
    ensures ok { OnOk result (out.new.items ≡ out.old.items ++ decimal number) }
    ensures front { HasFront out.old.items out.new.items }
{
    let mut buffer = Buffer::new();
    out.extend_from_slice(buffer.format(number).as_bytes())
}

pub fn append_integer(number: i64, out: &mut Vec<u8>) -> Result<(), AllocError>
    ensures ok { OnOk result (out.new.items ≡ out.old.items ++ signed_decimal number) }
    ensures front { HasFront out.old.items out.new.items }
{
    let mut buffer = Buffer::new();
    out.extend_from_slice(buffer.format(number).as_bytes())
}

/// Copies a text that stands for itself at once.
pub fn append_escaped(text: &[u8], out: &mut Vec<u8>) -> Result<(), AllocError>
    ensures ok { OnOk result (out.new.items ≡ out.old.items ++ escaped text.now) }
    ensures front { HasFront out.old.items out.new.items }
{
    match first_escape(text) {
        None => out.extend_from_slice(text),
        Some(first) => append_escapes(text, first, out),
    }
}

// `first` is where the first byte stands that is escaped.
#[inline(never)]
fn append_escapes(text: &[u8], first: usize, out: &mut Vec<u8>) -> Result<(), AllocError>
    requires { position needs_escape text.now ≡ Some first }
    ensures ok { OnOk result (out.new.items ≡ out.old.items ++ escaped text.now) }
    ensures front { HasFront out.old.items out.new.items }
{
    let mut rest = &text[append_first(text, first, out)?..];
    while let Some(at) = first_escape(rest) {
        rest = &rest[append_first(rest, at, out)?..];
    }
    append_run(rest, out)
}

// Escapes bytes in front of the text, the one at `first` too, and answers how many.
#[inline(always)]
fn append_first(text: &[u8], first: usize, out: &mut Vec<u8>) -> Result<usize, AllocError>
    requires { position needs_escape text.now ≡ Some first }
    ensures ok { IfOk result (λ taken. (0 < taken) × (taken ≤ length text.now)
        × (out.new.items ++ escaped (drop taken text.now) ≡ out.old.items ++ escaped text.now)) }
    ensures front { HasFront out.old.items out.new.items }
{
    if first < 16 {
        return append_block(text, out);
    }
    out.extend_from_slice(&text[..first])?;
    append_escape(text[first], out)?;
    Ok(first + 1)
}

#[inline(always)]
fn append_block(text: &[u8], out: &mut Vec<u8>) -> Result<usize, AllocError>
    requires { 0 < length text.now }
    ensures ok { IfOk result (λ taken. (0 < taken) × (taken ≤ length text.now)
        × (out.new.items ++ escaped (drop taken text.now) ≡ out.old.items ++ escaped text.now)) }
    ensures front { HasFront out.old.items out.new.items }
{
    let mut block = [0; BLOCK];
    let (taken, made) = escape_block(text, &mut block);
    out.extend_from_slice(&block[..made])?;
    Ok(taken)
}

#[inline(always)]
fn append_escape(byte: u8, out: &mut Vec<u8>) -> Result<(), AllocError>
    requires { IsTrue (needs_escape byte) }
    ensures ok { OnOk result (out.new.items ≡ out.old.items ++ escaped_byte byte) }
    ensures front { HasFront out.old.items out.new.items }
{
    match escape_letter(byte) {
        Some(letter) => out.extend_from_slice(&[b'\\', letter]),
        None => out.extend_from_slice(&long_escape(byte)),
    }
}

/// Appending nothing costs as much as appending a byte.
pub fn append_run(run: &[u8], out: &mut Vec<u8>) -> Result<(), AllocError>
    ensures ok { OnOk result (out.new.items ≡ out.old.items ++ run.now) }
    ensures front { HasFront out.old.items out.new.items }
{
    if run.is_empty() {
        return Ok(());
    }
    out.extend_from_slice(run)
}
