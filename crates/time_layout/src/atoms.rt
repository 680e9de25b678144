// Numbers, names and zones at a place of a text.
ghost use Rattle.std.specs.Prelude.{◌≡◌, ◌<◌, ◌≤◌, ◌+◌, ◌-◌, ◌*◌, ◌^◌, ℕ, min, length, take, drop, IfOk, IfSome, OnSome, Ok};
ghost use Rattle.std.specs.Bool.{OnTrue};
ghost use Rattle.std.specs.Char.{is_ascii_digit};
ghost use Rattle.std.specs.List.{prefix_len};
ghost use Rattle.case_table.specs.Rows.{table_of};
ghost use Rattle.time_layout.specs.Atoms.{value_of, stands, may_lie, IsPair, number, fraction, optional_fraction, fixed_fraction, fraction_point, unpadded, padded_day, name_at, full_name_at, code_at, begins_with, begun, reach, common_fold, signed, zone, offset, minutes_behind, letters, zone_name};

use crate::TimeFault;
use crate::parts::Colon;
use case_table::{Row, find_fold_bytes};

/// What was read and the place behind it, or the fault.
pub type Reading<T> = Result<(T, usize), TimeFault>;

/// Whether this byte stands at the place.
pub(crate) fn stands(byte: u8, text: &[u8], at: usize) -> bool
    ensures { result ≡ stands byte text.now at }
{
    at < text.len() && text[at] == byte
}

/// A number of this many digits that lies within its bounds. Where the digits that stand there begin none, it's refused at
/// the first of them, else where one is missing.
#[tactic(auto, unfolding(crate::specs::Atoms::number))]
pub(crate) fn read_number(
    digits: usize,
    low: u32,
    high: u32,
    text: &[u8],
    at: usize,
) -> Reading<u32>
    requires within { at ≤ length text.now }
    requires few { digits ≤ 9 }
    ensures is { result ≡ number digits low high text.now at }
    ensures within { IfOk result (λ read. read.1 ≤ length text.now) }
    ensures bounded { IfOk result (λ read. read.0 ≤ high) }
    ensures spelled { IfOk result (λ read. read.0 < 10 ^ digits) }
{
    let (value, count) = read_digits(front(&text[at..], digits));
    if !may_lie(digits - count, low, high, value) {
        return Err(TimeFault::Mismatch { at });
    }
    if count < digits {
        return Err(TimeFault::Mismatch { at: at + count });
    }
    Ok((value, at + digits))
}

/// The same for two digits, which nearly always are such a number.
#[inline(always)]
fn read_pair(low: u8, high: u8, text: &[u8], at: usize) -> Reading<u32>
    requires { at ≤ length text.now }
    ensures is { result ≡ number 2 low high text.now at }
    ensures within { IfOk result (λ read. read.1 ≤ length text.now) }
    ensures bounded { IfOk result (λ read. read.0 ≤ high) }
{
    if at + 1 < text.len() {
        if let Some(value) = number_at(low, high, text, at) {
            return Ok((u32::from(value), at + 2));
        }
    }
    read_number(2, u32::from(low), u32::from(high), text, at)
}

/// Two digits whose number lies within the bounds.
#[inline(always)]
pub(crate) fn number_at(low: u8, high: u8, text: &[u8], at: usize) -> Option<u8>
    requires { at + 1 < length text.now }
    ensures is { IfSome result (λ value. number 2 low high text.now at ≡ Ok (value, at + 2)) }
    ensures bounded { IfSome result (λ value. value ≤ high) }
{
    let value = pair_at(text, at)?;
    if value < low || high < value {
        return None;
    }
    Some(value)
}

/// The number that two digits spell.
#[inline(always)]
pub(crate) fn pair_at(text: &[u8], at: usize) -> Option<u8>
    requires { at + 1 < length text.now }
    ensures is { IfSome result (IsPair text.now at) }
    ensures bounded { IfSome result (λ value. value ≤ 99) }
{
    let tens = text[at];
    let ones = text[at + 1];
    if !tens.is_ascii_digit() || !ones.is_ascii_digit() {
        return None;
    }
    Some((tens - b'0') * 10 + (ones - b'0'))
}

/// Whether digits of this value, with so many more behind them, can spell a number within the bounds.
fn may_lie(more: usize, low: u32, high: u32, value: u32) -> bool
    requires { more ≤ 9 }
    ensures { result ≡ may_lie more low high value }
{
    if more == 0 {
        return low <= value && value <= high;
    }
    let unit = 10u64.pow(more as u32);
    u64::from(low) < (u64::from(value) + 1) * unit && u64::from(value) * unit <= u64::from(high)
}

/// One to so many digits of a second's fraction, in nanoseconds.
#[tactic(auto, unfolding(crate::specs::Atoms::fraction))]
pub(crate) fn read_fraction(most: u8, text: &[u8], at: usize) -> Reading<u32>
    requires within { at ≤ length text.now }
    requires few { most ≤ 9 }
    ensures is { result ≡ fraction most text.now at }
    ensures within { IfOk result (λ read. read.1 ≤ length text.now) }
    ensures bounded { IfOk result (λ read. read.0 < 10 ^ 9) }
{
    let (value, count) = read_digits(front(&text[at..], most as usize));
    if count == 0 {
        return Err(TimeFault::Mismatch { at });
    }
    Ok((scaled(value, count), at + count))
}

/// Nothing, or a point and a fraction of at most so many digits, and of nine.
pub(crate) fn read_optional_fraction(most: u8, text: &[u8], at: usize) -> Reading<u32>
    requires { at ≤ length text.now }
    ensures is { result ≡ optional_fraction (min most 9) text.now at }
    ensures within { IfOk result (λ read. read.1 ≤ length text.now) }
{
    if stands(b'.', text, at) {
        return read_fraction(most.min(9), text, at + 1);
    }
    Ok((0, at))
}

/// A point and so many digits of a second's fraction, in nanoseconds.
pub(crate) fn read_fixed_fraction(digits: u8, text: &[u8], at: usize) -> Reading<u32>
    requires within { at ≤ length text.now }
    requires few { digits ≤ 9 }
    ensures is { result ≡ fixed_fraction digits text.now at }
    ensures within { IfOk result (λ read. read.1 ≤ length text.now) }
{
    if !stands(b'.', text, at) {
        return Err(TimeFault::Mismatch { at });
    }
    let (value, next) = read_number(digits as usize, 0, 999_999_999, text, at + 1)?;
    Ok((scaled(value, digits as usize), next))
}

/// A point, or a point, a fraction and another point, of which the fraction is read.
pub(crate) fn read_fraction_point(text: &[u8], at: usize) -> Reading<u32>
    requires { at ≤ length text.now }
    ensures is { result ≡ fraction_point text.now at }
    ensures within { IfOk result (λ read. read.1 ≤ length text.now) }
{
    if !stands(b'.', text, at) {
        return Err(TimeFault::Mismatch { at });
    }
    let (_, count) = read_digits(front(&text[at + 1..], 1));
    if count == 0 {
        return Ok((0, at + 1));
    }
    let (nanoseconds, next) = read_fraction(9, text, at + 1)?;
    if !stands(b'.', text, next) {
        return Err(TimeFault::Mismatch { at: next });
    }
    Ok((nanoseconds, next + 1))
}

/// A number from 1 on as two digits, or as one.
pub(crate) fn read_unpadded(high: u32, text: &[u8], at: usize) -> Reading<u32>
    requires { at ≤ length text.now }
    ensures is { result ≡ unpadded high text.now at }
    ensures within { IfOk result (λ read. read.1 ≤ length text.now) }
    ensures bounded { IfOk result (λ read. read.0 ≤ high) }
{
    let (_, count) = read_digits(front(&text[at..], 2));
    read_number(if count == 2 { 2 } else { 1 }, 1, high, text, at)
}

/// A day as a space and a digit, or as two digits, or as one.
pub(crate) fn read_padded_day(text: &[u8], at: usize) -> Reading<u32>
    requires { at ≤ length text.now }
    ensures is { result ≡ padded_day text.now at }
    ensures within { IfOk result (λ read. read.1 ≤ length text.now) }
    ensures bounded { IfOk result (λ read. read.0 ≤ 31) }
{
    if stands(b' ', text, at) {
        return read_number(1, 1, 31, text, at + 1);
    }
    read_unpadded(31, text, at)
}

/// The code of a row whose name of this length stands there, with the case of letters ignored.
#[tactic(auto, unfolding(crate::specs::Atoms::name_at))]
pub(crate) fn read_name(rows: &[Row], size: usize, text: &[u8], at: usize) -> Reading<u16>
    requires { at ≤ length text.now }
    ensures is { result ≡ name_at (table_of rows.now) size text.now at }
    ensures within { IfOk result (λ read. read.1 ≤ length text.now) }
{
    let rest = &text[at..];
    match code_at(rows, size, rest) {
        Some(code) => Ok((code, at + size)),
        None => Err(TimeFault::Mismatch {
            at: at + reach(rows, rest),
        }),
    }
}

/// The code of the row whose name stands there, with the case of letters ignored, where no name begins another.
#[tactic(auto, unfolding(crate::specs::Atoms::full_name_at))]
pub(crate) fn read_full_name(rows: &[Row], text: &[u8], at: usize) -> Reading<u16>
    requires { at ≤ length text.now }
    ensures is { result ≡ full_name_at (table_of rows.now) text.now at }
    ensures within { IfOk result (λ read. read.1 ≤ length text.now) }
{
    let rest = &text[at..];
    match begun(rows, rest) {
        Some((code, size)) => Ok((code, at + size)),
        None => {
            let at = at + reach(rows, rest);
            Err(TimeFault::Mismatch { at })
        }
    }
}

/// `UTC` or `GMT`, as seconds east of UTC.
pub(crate) fn read_zone_name(text: &[u8], at: usize) -> Reading<i32>
    requires { at ≤ length text.now }
    ensures is { result ≡ zone_name text.now at }
    ensures within { IfOk result (λ read. read.1 ≤ length text.now) }
{
    if stands(b'G', text, at) {
        return read_letters(b"GMT", text, at);
    }
    read_letters(b"UTC", text, at)
}

/// These bytes, which name UTC.
fn read_letters(name: &[u8], text: &[u8], at: usize) -> Reading<i32>
    requires { at ≤ length text.now }
    ensures is { result ≡ letters name.now text.now at }
    ensures within { IfOk result (λ read. read.1 ≤ length text.now) }
{
    let mut next = at;
    for byte in name {
        if !stands(*byte, text, next) {
            return Err(TimeFault::Mismatch { at: next });
        }
        next += 1;
    }
    Ok((0, next))
}

/// `Z`, or a sign with hours and minutes, in seconds east of UTC.
#[tactic(auto, unfolding(crate::specs::Atoms::zone))]
pub(crate) fn read_zone(colon: Colon, text: &[u8], at: usize) -> Reading<i32>
    requires { at ≤ length text.now }
    ensures is { result ≡ zone colon text.now at }
    ensures within { IfOk result (λ read. read.1 ≤ length text.now) }
{
    if stands(b'Z', text, at) {
        return Ok((0, at + 1));
    }
    read_signed(colon, text, at)
}

/// A sign with hours and minutes, in seconds east of UTC.
#[tactic(auto, unfolding(crate::specs::Atoms::signed))]
pub(crate) fn read_signed(colon: Colon, text: &[u8], at: usize) -> Reading<i32>
    requires { at ≤ length text.now }
    ensures is { result ≡ signed colon text.now at }
    ensures within { IfOk result (λ read. read.1 ≤ length text.now) }
{
    if stands(b'+', text, at) {
        let (seconds, next) = read_offset(colon, text, at + 1)?;
        return Ok((seconds as i32, next));
    }
    if stands(b'-', text, at) {
        let (seconds, next) = read_offset(colon, text, at + 1)?;
        return Ok((-(seconds as i32), next));
    }
    Err(TimeFault::Mismatch { at })
}

/// Hours and minutes, in seconds.
fn read_offset(colon: Colon, text: &[u8], at: usize) -> Reading<u32>
    requires { at ≤ length text.now }
    ensures is { result ≡ offset colon text.now at }
    ensures within { IfOk result (λ read. read.1 ≤ length text.now) }
    ensures bounded { IfOk result (λ read. read.0 < 86400) }
{
    let (hours, behind) = read_pair(0, 23, text, at)?;
    let (minutes, next) = read_minutes(colon, text, behind)?;
    Ok((hours * 3600 + minutes * 60, next))
}

/// The minutes of a zone, behind its hours.
fn read_minutes(colon: Colon, text: &[u8], at: usize) -> Reading<u32>
    requires { at ≤ length text.now }
    ensures is { result ≡ minutes_behind colon text.now at }
    ensures within { IfOk result (λ read. read.1 ≤ length text.now) }
    ensures bounded { IfOk result (λ read. read.0 ≤ 59) }
{
    if colon.may_stand() && stands(b':', text, at) {
        return read_pair(0, 59, text, at + 1);
    }
    match colon {
        Colon::Optional | Colon::Missing => read_pair(0, 59, text, at),
        Colon::Required => Err(TimeFault::Mismatch { at }),
    }
}

fn code_at(rows: &[Row], size: usize, rest: &[u8]) -> Option<u16>
    ensures is { result ≡ code_at (table_of rows.now) size rest.now }
    ensures within { OnSome result (size ≤ length rest.now) }
{
    if rest.len() < size {
        return None;
    }
    find_fold_bytes(rows, &rest[..size])
}

/// The code and the length of the first name with which the text begins, with the case of letters ignored.
fn begun(rows: &[Row], text: &[u8]) -> Option<(u16, usize)>
    ensures is { result ≡ begun (table_of rows.now) text.now }
    ensures within { IfSome result (λ name. name.1 ≤ length text.now) }
{
    for row in rows {
        if begins_with(text, row.name.as_bytes()) {
            return Some((row.code, row.name.len()));
        }
    }
    None
}

fn begins_with(text: &[u8], name: &[u8]) -> bool
    ensures is { result ≡ begins_with text.now name.now }
    ensures within { OnTrue result (length name.now ≤ length text.now) }
{
    front(text, name.len()).eq_ignore_ascii_case(name)
}

/// At most so many bytes from the front.
fn front(bytes: &[u8], most: usize) -> &[u8]
    ensures { result.now ≡ take most bytes.now }
{
    if bytes.len() < most {
        bytes
    } else {
        &bytes[..most]
    }
}

/// The number that the digits at the front spell, and how many they are.
fn read_digits(bytes: &[u8]) -> (u32, usize)
    requires { length bytes.now ≤ 9 }
    ensures count { result.1 ≡ prefix_len is_ascii_digit bytes.now }
    ensures value { result.0 ≡ value_of (take result.1 bytes.now) }
    ensures bounded { result.0 < 10 ^ result.1 }
{
    let mut value: u32 = 0;
    for (count, byte) in bytes.iter().enumerate() {
        if !byte.is_ascii_digit() {
            return (value, count);
        }
        value = value * 10 + u32::from(*byte - b'0');
    }
    (value, bytes.len())
}

/// A fraction of so many digits, as one of nine.
fn scaled(value: u32, digits: usize) -> u32
    requires few { digits ≤ 9 }
    requires bounded { value < 10 ^ digits }
    ensures is { result ≡ value * 10 ^ (9 - digits) }
    ensures bounded { result < 10 ^ 9 }
{
    match digits {
        0 => value * 1_000_000_000,
        1 => value * 100_000_000,
        2 => value * 10_000_000,
        3 => value * 1_000_000,
        4 => value * 100_000,
        5 => value * 10_000,
        6 => value * 1_000,
        7 => value * 100,
        8 => value * 10,
        _ => value,
    }
}

/// How many bytes of the text a name of the rows begins with at most, with the case of letters ignored.
fn reach(rows: &[Row], text: &[u8]) -> usize
    ensures is { result ≡ reach (table_of rows.now) text.now }
    ensures within { result ≤ length text.now }
{
    let mut most = 0;
    for row in rows {
        most = most.max(common_length(row.name.as_bytes(), text));
    }
    most
}

fn common_length(name: &[u8], text: &[u8]) -> usize
    ensures is { result ≡ common_fold name.now text.now }
    ensures within { result ≤ length text.now }
{
    for (i, byte) in name.iter().enumerate() {
        if i >= text.len() || !byte.eq_ignore_ascii_case(&text[i]) {
            return i;
        }
    }
    name.len()
}
