// The parts of a text between the bytes that are its delimiter.
ghost use Rattle.std.specs.Prelude.{◌≡◌, ◌==◌, ◌<◌, ◌∷◌, length, IsTrue};
ghost use Rattle.std.specs.List.{position_or_len};
ghost use Rattle.text_parsers.specs.CsvRecords.{parts_of, parts_left};
ghost use Rattle.text_parsers.specs.Inner.FirstPart.{IsFirstPart};

/// The first part of the text, what stands behind the delimiter, and whether there is one.
pub fn first_part(text: &str, delimiter: u8) -> (&str, &str, bool)
    requires { delimiter < 128 }
    ensures first { IsFirstPart delimiter text.now result.0.now result.1.now result.2 }
    ensures parts { parts_of delimiter text.now ≡ result.0.now ∷ parts_left delimiter result.1.now result.2 }
    ensures shorter { IsTrue result.2 → length result.1.now < length text.now }
{
    let end = part_len(text.as_bytes(), delimiter);
    if end < text.len() {
        return (&text[..end], &text[end + 1..], true);
    }
    (text, text, false)
}

/// How many bytes stand before the delimiter, or at all where there is none.
fn part_len(bytes: &[u8], delimiter: u8) -> usize
    ensures { result ≡ position_or_len (λ byte. byte == delimiter) bytes.now }
{
    bytes.iter().take_while(|byte| **byte != delimiter).count()
}
