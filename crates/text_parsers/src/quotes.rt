// Quoted parts of a text, from a `"` or a `'` to the next same character.
ghost use Rattle.std.specs.Prelude.{◌≡◌, ◌≤◌, None, IfSome, IfNone, length, take};
ghost use Rattle.text_parsers.specs.Quotes.{is_quote as is_quote_byte, open_behind as open_quote_behind, open_quote, unquoted, IsUnclosed};

use memchr::memchr2;

pub fn is_quote(byte: u8) -> bool
    ensures { result ≡ is_quote_byte byte }
{
    byte == b'"' || byte == b'\''
}

/// The quote that is open behind one byte more.
pub fn open_behind(quote: Option<u8>, byte: u8) -> Option<u8>
    ensures { result ≡ open_quote_behind quote byte }
{
    match quote {
        None if is_quote(byte) => Some(byte),
        Some(opened) if opened != byte => Some(opened),
        _ => None,
    }
}

/// The place of the quote that no quote closes, where there is one.
pub fn unclosed_quote(text: &str) -> Option<usize>
    ensures unclosed { IfSome result (IsUnclosed text.now) }
    ensures closed { IfNone result (open_quote text.now ≡ None) }
{
    match memchr2(b'"', b'\'', text.as_bytes()) {
        Some(first) => unclosed_from(text, first),
        None => None,
    }
}

/// The same, of a text in which no quote is open at this place.
fn unclosed_from(text: &str, start: usize) -> Option<usize>
    requires within { start ≤ length text.now }
    requires outside { open_quote (take start text.now) ≡ None }
    ensures unclosed { IfSome result (IsUnclosed text.now) }
    ensures closed { IfNone result (open_quote text.now ≡ None) }
{
    let bytes = text.as_bytes();
    let mut quote = None;
    let mut place = start;
    for at in start..bytes.len() {
        if quote.is_none() {
            place = at;
        }
        quote = open_behind(quote, bytes[at]);
    }
    match quote {
        Some(_) => Some(place),
        None => None,
    }
}

/// The text without one pair of equal quotes around it.
#[tactic(auto, unfolding(crate::specs::Quotes::unquoted))]
pub fn unquote(text: &str) -> &str
    ensures { result.now ≡ unquoted text.now }
{
    let bytes = text.as_bytes();
    let len = bytes.len();
    if len > 1 && is_quote(bytes[0]) && bytes[len - 1] == bytes[0] {
        return &text[1..len - 1];
    }
    text
}
