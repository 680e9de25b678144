// Single bytes of a text, and cutting a text at one.
ghost use Rattle.std.specs.Prelude.{◌≡◌, ◌+◌, ◌<◌, ◌&&◌, ◌||◌, ◌==◌, [], ◌∷◌, length, take, drop, nat_lt, slice_index, IfSome, IfNone};

/// The first byte, where there is one.
pub(crate) fn first(text: &str) -> Option<u8>
    ensures some { IfSome result (λ byte. text.now ≡ byte ∷ drop 1 text.now) }
    ensures none { IfNone result (text.now ≡ []) }
{
    let bytes = text.as_bytes();
    if bytes.is_empty() {
        return None;
    }
    Some(bytes[0])
}

/// Whether this byte stands at `at`.
pub(crate) fn stands(text: &str, at: usize, byte: u8) -> bool
    ensures { result ≡ (nat_lt at (length text.now) && (slice_index text.now at == byte)) }
{
    let bytes = text.as_bytes();
    at < bytes.len() && bytes[at] == byte
}

/// Whether one of these two bytes stands at `at`.
pub(crate) fn stands_either(text: &str, at: usize, one: u8, other: u8) -> bool
    ensures { result ≡ (nat_lt at (length text.now) && ((slice_index text.now at == one) || (slice_index text.now at == other))) }
{
    let bytes = text.as_bytes();
    at < bytes.len() && (bytes[at] == one || bytes[at] == other)
}

/// What stands in front of a character of ASCII, and what stands behind it.
pub(crate) fn cut(text: &str, at: usize) -> (&str, &str)
    requires inside { at < length text.now }
    requires ascii { slice_index text.now at < 128 }
    ensures front { result.0.now ≡ take at text.now }
    ensures behind { result.1.now ≡ drop (at + 1) text.now }
{
    (&text[..at], &text[at + 1..])
}

/// What stands in front of a character of ASCII, and what stands from it on.
pub(crate) fn split(text: &str, at: usize) -> (&str, &str)
    requires inside { at < length text.now }
    requires ascii { slice_index text.now at < 128 }
    ensures front { result.0.now ≡ take at text.now }
    ensures behind { result.1.now ≡ drop at text.now }
{
    (&text[..at], &text[at..])
}
