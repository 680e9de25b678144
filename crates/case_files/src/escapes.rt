// Bytes in a text that a person reads.
use std::alloc::{AllocError, Global};

/// The bytes of a text in which `\xNN` stands for the byte NN, in lower-case hexadecimal digits.
pub fn unescaped(alloc: Global, text: &str) -> Result<Vec<u8>, AllocError> {
    let mut bytes = Vec::new(alloc);
    let mut rest = text.as_bytes();
    for _ in 0..text.len() {
        let Some((byte, behind)) = first_of(rest) else {
            break;
        };
        bytes.push(byte)?;
        rest = behind;
    }
    Ok(bytes)
}

// The first byte that is meant, and what stands behind its spelling.
fn first_of(text: &[u8]) -> Option<(u8, &[u8])> {
    match text {
        [b'\\', b'x', high, low, rest @ ..] => match (digit(*high), digit(*low)) {
            (Some(high), Some(low)) => Some((high << 4 | low, rest)),
            _ => Some((b'\\', &text[1..])),
        },
        [byte, rest @ ..] => Some((*byte, rest)),
        [] => None,
    }
}

fn digit(byte: u8) -> Option<u8> {
    match byte {
        b'0'..=b'9' => Some(byte - b'0'),
        b'a'..=b'f' => Some(byte - b'a' + 10),
        _ => None,
    }
}

/// A text that a person reads for these bytes: UTF-8 as it stands, and `\xNN` for a control character other than LF, and for a
/// byte that isn't UTF-8.
pub fn shown(alloc: Global, bytes: &[u8]) -> Result<String, AllocError> {
    let mut text = String::new(alloc);
    let mut rest = bytes;
    for _ in 0..bytes.len() {
        match std::str::from_utf8(rest) {
            Ok(valid) => {
                push_plain(&mut text, valid)?;
                break;
            }
            Err(fault) => {
                let (valid, behind) = rest.split_at(fault.valid_up_to());
                push_plain(&mut text, std::str::from_utf8(valid).unwrap_or(""))?;
                let Some((byte, behind)) = behind.split_first() else {
                    break;
                };
                push_escaped(&mut text, *byte)?;
                rest = behind;
            }
        }
    }
    Ok(text)
}

fn push_plain(text: &mut String, plain: &str) -> Result<(), AllocError> {
    for letter in plain.chars() {
        if letter.is_ascii_control() && letter != '\n' {
            push_escaped(text, letter as u8)?;
        } else {
            text.push(letter)?;
        }
    }
    Ok(())
}

fn push_escaped(text: &mut String, byte: u8) -> Result<(), AllocError> {
    let digits = b"0123456789abcdef";
    text.push_str("\\x")?;
    text.push(char::from(digits[usize::from(byte >> 4)]))?;
    text.push(char::from(digits[usize::from(byte & 15)]))?;
    Ok(())
}
