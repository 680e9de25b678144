// The names of a header, and delimiters.
ghost use Rattle.std.specs.Prelude.{◌≡◌, ◌==◌, ◌<◌, ◌∷◌, ◌||◌, not, length, IsTrue, IfOk, ℕ, List};
ghost use Rattle.std.specs.List.{list_any, position_or_len};
ghost use Rattle.std.specs.Str.{bytes_eq};
ghost use Rattle.settings_text.specs.Names as names;
ghost use Rattle.settings_text.specs.Names.{has, is_empty, parts_of, parts_left};

use std::alloc::{AllocError, Global};
use std::collections::BTreeSet;

/// Whether the parts of a header between delimiters are names: none is empty, and none stands twice. It takes time in
/// proportion to the header's length and the logarithm of their number.
pub fn are_names(alloc: Global, header: &[u8], delimiter: u8) -> Result<bool, AllocError>
    ensures { IfOk result (λ are. are ≡ names.are_names (parts_of delimiter header.now)) }
{
    let mut seen = BTreeSet::new(alloc);
    let mut rest = header;
    'names: loop {
        let (name, behind, found) = first_part(rest, delimiter);
        if !add_name(&mut seen, name)? {
            return Ok(false);
        }
        if !found {
            return Ok(true);
        }
        rest = behind;
    }
}

/// Adds a part to the names in front of it, and says whether it is a name that is none of those.
fn add_name<'a>(seen: &mut BTreeSet<&'a [u8]>, name: &'a [u8]) -> Result<bool, AllocError>
    ensures is { IfOk result (λ is. is ≡ not (is_empty name.now || has seen.old name.now)) }
    ensures added { IfOk result (λ is. IsTrue is → (other : List ℕ) → has seen.new other ≡ (bytes_eq name.now other || has seen.old other)) }
{
    if name.is_empty() {
        return Ok(false);
    }
    Ok(seen.insert(name)?)
}

/// The first part of a text, what stands behind the delimiter, and whether there is one.
fn first_part(text: &[u8], delimiter: u8) -> (&[u8], &[u8], bool)
    ensures parts { parts_of delimiter text.now ≡ result.0.now ∷ parts_left delimiter result.1.now result.2 }
    ensures shorter { IsTrue result.2 → length result.1.now < length text.now }
{
    let end = part_len(text, delimiter);
    if end < text.len() {
        return (&text[..end], &text[end + 1..], true);
    }
    (text, text, false)
}

/// How many bytes stand before the delimiter, or at all where there is none.
fn part_len(text: &[u8], delimiter: u8) -> usize
    ensures { result ≡ position_or_len (λ byte. byte == delimiter) text.now }
{
    text.iter().take_while(|byte| **byte != delimiter).count()
}

/// The one byte of a text, where it can part the fields of a record.
pub fn single(text: &[u8]) -> Option<u8>
    ensures { result ≡ names.single text.now }
{
    match text {
        [byte] if parts_fields(*byte) => Some(*byte),
        _ => None,
    }
}

fn parts_fields(byte: u8) -> bool
    ensures { result ≡ names.parts_fields byte }
{
    byte < 128 && !(byte == b'"' || byte == b'\r' || byte == b'\n')
}

/// Whether a text can part keys, values and pairs.
pub fn is_delimiter(text: &[u8]) -> bool
    ensures { result ≡ names.is_delimiter text.now }
{
    !(text.is_empty() || has_quote(text))
}

fn has_quote(text: &[u8]) -> bool
    ensures { result ≡ list_any names.is_quote text.now }
{
    text.iter().any(|byte| *byte == b'"' || *byte == b'\'')
}
