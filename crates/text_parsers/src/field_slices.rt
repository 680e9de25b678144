// Records on one line whose fields lie in the text as they are: quotes enclose whole fields alone.
ghost use Rattle.std.specs.Prelude.{◌≡◌, ◌≤◌, ◌<◌, ◌==◌, length, drop, slice_index, true, IfSome};
ghost use Rattle.std.specs.List.{prefix_len};
ghost use Rattle.text_parsers.specs.Inner.Plain.{is_plain as is_plain_byte};
ghost use Rattle.text_parsers.specs.Inner.FieldSlices.{is_bare as is_bare_byte, HasFields, HasFieldCount, HasRecord, BeginsWithField, IsFirstField};

use crate::parts::first_part;

/// How many fields the text has, where it is one record in which quotes enclose whole fields alone. It isn't empty, and has
/// no CR, no LF, no byte order mark in front, and no other quotes, nor two that stand for one. The delimiter is no quote.
pub fn field_count(text: &str, delimiter: u8) -> Option<usize>
    ensures { IfSome result (HasRecord delimiter text.now) }
{
    let bytes = text.as_bytes();
    if bytes.is_empty() {
        return None;
    }
    if may_be_mark(bytes) {
        return None;
    }
    if !is_plain(delimiter) {
        return None;
    }
    count_fields(bytes, delimiter)
}

/// Whether it begins with the first byte of a byte order mark.
fn may_be_mark(bytes: &[u8]) -> bool
    requires { 0 < length bytes.now }
    ensures { result ≡ (slice_index bytes.now 0 == 239) }
{
    bytes[0] == 0xef
}

fn is_plain(byte: u8) -> bool
    ensures { result ≡ is_plain_byte byte }
{
    byte != b'"' && byte != b'\r' && byte != b'\n'
}

/// How many fields stand between the delimiters that no quotes enclose.
fn count_fields(bytes: &[u8], delimiter: u8) -> Option<usize>
    requires { is_plain_byte delimiter ≡ true }
    ensures { IfSome result (HasFieldCount delimiter bytes.now) }
{
    let mut rest = bytes;
    let mut count = 1;
    'fields: loop {
        let end = field_len(rest, delimiter)?;
        if end == rest.len() {
            return Some(count);
        }
        if rest[end] != delimiter {
            return None;
        }
        rest = &rest[end + 1..];
        count += 1;
    }
}

/// How many bytes the first field has, with quotes around it; `None` where no quote closes it on this line.
fn field_len(bytes: &[u8], delimiter: u8) -> Option<usize>
    ensures within { IfSome result (λ len. len ≤ length bytes.now) }
    ensures field { IfSome result (BeginsWithField delimiter bytes.now) }
{
    if !begins_with_quote(bytes) {
        return Some(bare_len(bytes, delimiter));
    }
    let within = &bytes[1..];
    let len = plain_len(within);
    if len < within.len() && within[len] == b'"' {
        return Some(len + 2);
    }
    None
}

fn begins_with_quote(bytes: &[u8]) -> bool
    ensures { result ≡ (slice_index bytes.now 0 == 34) }
{
    !bytes.is_empty() && bytes[0] == b'"'
}

/// How many bytes stand before the delimiter, a quote or a line end.
fn bare_len(bytes: &[u8], delimiter: u8) -> usize
    ensures { result ≡ prefix_len (is_bare_byte delimiter) bytes.now }
{
    bytes
        .iter()
        .take_while(|byte| is_bare(delimiter, **byte))
        .count()
}

fn is_bare(delimiter: u8, byte: u8) -> bool
    ensures { result ≡ is_bare_byte delimiter byte }
{
    byte != delimiter && is_plain(byte)
}

/// How many bytes stand before a quote or a line end.
fn plain_len(bytes: &[u8]) -> usize
    ensures { result ≡ prefix_len is_plain_byte bytes.now }
{
    bytes.iter().take_while(|byte| is_plain(**byte)).count()
}

/// The first field of the text, what stands behind its delimiter, and whether there is one.
pub fn first_field(text: &str, delimiter: u8) -> (&str, &str, bool)
    requires low { delimiter < 128 }
    requires fields { HasFields delimiter text.now }
    ensures { IsFirstField delimiter text.now result.0.now result.1.now result.2 }
{
    if begins_with_quote(text.as_bytes()) {
        return enclosed_field(text, delimiter);
    }
    first_part(text, delimiter)
}

/// The same, of a field with quotes around it.
fn enclosed_field(text: &str, delimiter: u8) -> (&str, &str, bool)
    requires low { delimiter < 128 }
    requires quote { slice_index text.now 0 ≡ 34 }
    requires fields { HasFields delimiter text.now }
    ensures { IsFirstField delimiter text.now result.0.now result.1.now result.2 }
{
    let (field, behind, _) = first_part(behind_first(text), b'"');
    if behind.is_empty() {
        return (field, behind, false);
    }
    (field, behind_first(behind), true)
}

/// The text behind its first byte.
fn behind_first(text: &str) -> &str
    requires some { 0 < length text.now }
    requires low { slice_index text.now 0 < 128 }
    ensures { result.now ≡ drop 1 text.now }
{
    &text[1..]
}
