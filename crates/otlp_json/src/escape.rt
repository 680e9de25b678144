// How a byte is spelled that a JSON string escapes.
ghost use Rattle.std.specs.Prelude.{◌≡◌, ◌<◌, ◌/◌, ◌%◌, ◌++◌, [], ◌∷◌, IsTrue, MatchOption, codes};
ghost use Rattle.std.specs.Char.{digit_char};
ghost use Rattle.otlp_json.specs.Escaped.{needs_escape, escaped_byte};

/// What stands behind the backslash where JSON has a short escape for the byte.
#[tactic(auto, unfolding(crate::specs::Escaped::escaped_byte))]
#[inline(always)]
pub fn escape_letter(byte: u8) -> Option<u8>
    requires { IsTrue (needs_escape byte) }
    ensures { MatchOption result
        (escaped_byte byte ≡ codes "\\u00" ++ digit_char (byte / 16) ∷ digit_char (byte % 16) ∷ [])
        (λ letter. escaped_byte byte ≡ 92 ∷ letter ∷ []) }
{
    match byte {
        b'"' | b'\\' => Some(byte),
        0x08 => Some(b'b'),
        0x0c => Some(b'f'),
        b'\n' => Some(b'n'),
        b'\r' => Some(b'r'),
        b'\t' => Some(b't'),
        _ => None,
    }
}

/// The escape of a byte that has no short one.
pub fn long_escape(byte: u8) -> [u8; 6]
    ensures { result ≡ codes "\\u00" ++ digit_char (byte / 16) ∷ digit_char (byte % 16) ∷ [] }
{
    [
        b'\\',
        b'u',
        b'0',
        b'0',
        hex_digit(byte / 16),
        hex_digit(byte % 16),
    ]
}

fn hex_digit(digit: u8) -> u8
    requires { digit < 16 }
    ensures { result ≡ digit_char digit }
{
    if digit < 10 {
        b'0' + digit
    } else {
        b'a' - 10 + digit
    }
}
