// What stands behind a backslash (RFC 8259, section 7).
ghost use Rattle.std.specs.Prelude.{◌≡◌, ◌+◌, ◌*◌, ◌≤◌, ◌<◌, length, IfOk, IfSome};
ghost use Rattle.json_text.specs.Bytes.{escaped, hex_value as value_of_hex};
ghost use Rattle.json_text.specs.Machine.{Content, state, with_piece, unit_phase};
ghost use Rattle.json_text.specs.Pieces.{IsAsciiPiece};
ghost use Rattle.json_text.specs.Reads.{IsBehindAscii, Reads, AroundText, text_from, piece_from};

use crate::JsonFault;
use crate::bytes::byte_at;
use crate::content::Piece;

/// The piece that the escape at `at` stands for, behind its backslash, and the place behind it.
pub fn escape(text: &str, at: usize) -> Result<(Piece, usize), JsonFault>
    requires { at ≤ length text.now }
    ensures ascii { IfOk result (λ read. IsAsciiPiece read.0) }
    ensures behind { IfOk result (λ read. IsBehindAscii text.now read.1) }
    ensures reads { (content : Content) → Reads text.now at (piece_from content) (λ around piece. text_from (with_piece content piece) around) result }
{
    let Some(byte) = byte_at(text, at) else {
        return Err(JsonFault::Syntax { at });
    };
    if byte == b'u' {
        return unit(text, at + 1);
    }
    match meant(byte) {
        Some(meant) => Ok((Piece::Byte(meant), at + 1)),
        None => Err(JsonFault::Syntax { at }),
    }
}

/// The character that a backslash and this byte stand for.
#[tactic(auto, unfolding(crate::specs::Bytes::escaped))]
fn meant(byte: u8) -> Option<u8>
    ensures value { result ≡ escaped byte }
    ensures ascii { IfSome result (λ meant. meant < 128) }
{
    match byte {
        b'"' | b'\\' | b'/' => Some(byte),
        b'b' => Some(8),
        b'f' => Some(12),
        b'n' => Some(b'\n'),
        b'r' => Some(b'\r'),
        b't' => Some(b'\t'),
        _ => None,
    }
}

/// The unit that four hexadecimal digits write, and the place behind them.
fn unit(text: &str, at: usize) -> Result<(Piece, usize), JsonFault>
    requires { at ≤ length text.now }
    ensures unit { IfOk result (λ read. IsAsciiPiece read.0) }
    ensures behind { IfOk result (λ read. IsBehindAscii text.now read.1) }
    ensures reads { (content : Content) → Reads {Around = AroundText} text.now at (λ around. state (unit_phase around.0 content 4 0) around.1.0 around.1.1)
        (λ around piece. text_from (with_piece content piece) around) result }
{
    let mut unit = 0;
    for count in 0..4usize {
        let place = at + count;
        let Some(byte) = byte_at(text, place) else {
            return Err(JsonFault::Syntax { at: place });
        };
        let Some(digit) = hex_value(byte) else {
            return Err(JsonFault::Syntax { at: place });
        };
        unit = unit * 16 + digit;
    }
    Ok((Piece::Unit(unit), at + 4))
}

#[tactic(auto, unfolding(crate::specs::Bytes::hex_value))]
fn hex_value(byte: u8) -> Option<u16>
    ensures value { result ≡ value_of_hex byte }
    ensures digit { IfSome result (λ digit. digit < 16) }
{
    match byte {
        b'0'..=b'9' => Some((byte - b'0') as u16),
        b'a'..=b'f' => Some((byte - b'a') as u16 + 10),
        b'A'..=b'F' => Some((byte - b'A') as u16 + 10),
        _ => None,
    }
}
