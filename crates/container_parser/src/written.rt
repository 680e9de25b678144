// Lines of Docker's JSON files as Docker writes them: three members in their order, with no blanks between them.
ghost use Rattle.std.specs.Prelude.{◌≡◌, ◌<◌, ◌++◌, [], IfOk, IfSome, length};
ghost use Rattle.std.specs.List.{take_while};
ghost use Rattle.json_text.specs.Bytes.{is_plain as is_plain_byte, escaped};
ghost use Rattle.container_parser.specs.Inner.Strings.{IsEscape, IsTail, Spells};
ghost use Rattle.container_parser.specs.Lines.{IsLine};
ghost use Rattle.container_parser.specs.declared.format.Format.TheVariants.{Docker};

use crate::ContainerLine;
use arrayvec::ArrayString;
use entry_model::Text;
use std::alloc::{AllocError, Global};
use time_layout::rfc3339;

/// The most bytes of a log that has escapes and is read here.
const ROOM: usize = 1024;

/// What a line says whose members stand as Docker writes them, and whose escapes are of two bytes each; `None` of every other
/// line, and of one whose log has escapes and more than 1024 bytes.
pub fn written_line(alloc: Global, text: &str) -> Result<Option<ContainerLine>, AllocError>
    ensures { IfOk result (λ found. IfSome found (IsLine Docker text.now)) }
{
    let Some(front) = behind_prefix(text, "{\"log\":\"") else {
        return Ok(None);
    };
    let Some((text, behind)) = log_of(alloc, front)? else {
        return Ok(None);
    };
    let Some((stream, time)) = tail_of(behind) else {
        return Ok(None);
    };
    let Ok(timestamp) = rfc3339(time, 9) else {
        return Ok(None);
    };
    let stream = Text::from_str(alloc, stream)?;
    Ok(Some(ContainerLine {
        timestamp,
        stream,
        partial: false,
        text,
    }))
}

/// The stream and the time.
fn tail_of(text: &str) -> Option<(&str, &str)>
    ensures { IfSome result (λ parts. IsTail text.now parts.0.now parts.1.now) }
{
    let stream = behind_prefix(text, ",\"stream\":\"")?;
    let (stream, behind) = plain_string(stream)?;
    let time = behind_prefix(behind, ",\"time\":\"")?;
    let (time, behind) = plain_string(time)?;
    if behind != "}" {
        return None;
    }
    Some((stream, time))
}

/// A string whose first quote stands before the text, and what stands behind its second.
fn log_of(alloc: Global, text: &str) -> Result<Option<(Text, &str)>, AllocError>
    ensures { IfOk result (λ found. IfSome found (λ read. Spells text.now read.0 read.1.now)) }
{
    if let Some((content, behind)) = plain_string(text) {
        return Ok(Some((Text::from_str(alloc, content)?, behind)));
    }
    let mut content = ArrayString::new();
    let Some(behind) = unescape(text, &mut content) else {
        return Ok(None);
    };
    Ok(Some((Text::from_str(alloc, content.as_str())?, behind)))
}

/// As [`log_of`] of a string without escapes.
fn plain_string(text: &str) -> Option<(&str, &str)>
    ensures { IfSome result (λ parts. Spells text.now parts.0.now parts.1.now) }
{
    let end = plain_length(text);
    let behind = behind_prefix(&text[end..], "\"")?;
    Some((&text[..end], behind))
}

/// Puts what the string spells into the content, which has nothing, and answers what stands behind it.
fn unescape<'t>(text: &'t str, content: &mut ArrayString<ROOM>) -> Option<&'t str>
    requires { content.old.bytes ≡ [] }
    ensures { IfSome result (λ behind. Spells text.now content.new.bytes behind.now) }
{
    let mut rest = text;
    loop {
        let end = plain_length(rest);
        let Ok(()) = content.try_push_str(&rest[..end]) else {
            return None;
        };
        let special = &rest[end..];
        if let Some(behind) = behind_prefix(special, "\"") {
            return Some(behind);
        }
        let (byte, behind) = escape(special)?;
        let Ok(()) = content.try_push(byte as char) else {
            return None;
        };
        rest = behind;
    }
}

/// What the escape at the front stands for, and what stands behind it.
fn escape(text: &str) -> Option<(u8, &str)>
    ensures { IfSome result (λ read. IsEscape text.now read.0 read.1.now) }
{
    match *text.as_bytes() {
        [b'\\', byte, ..] => Some((meant(byte)?, &text[2..])),
        _ => None,
    }
}

#[tactic(auto, unfolding(json_text::specs::Bytes::escaped))]
fn meant(byte: u8) -> Option<u8>
    ensures value { result ≡ escaped byte }
    ensures ascii { IfSome result (λ meant. meant < 128) }
    ensures behind { IfSome result (λ _. byte < 128) }
{
    match byte {
        b'"' | b'\\' | b'/' => Some(byte),
        b'b' => Some(8),
        b'f' => Some(12),
        b'n' => Some(b'\n'),
        b'r' => Some(b'\r'),
        b't' => Some(b'\t'),
        _ => None,
    }
}

fn behind_prefix<'t>(text: &'t str, prefix: &str) -> Option<&'t str>
    ensures { IfSome result (λ behind. text.now ≡ prefix.now ++ behind.now) }
{
    text.strip_prefix(prefix)
}

/// How many bytes in front stand for themselves.
fn plain_length(text: &str) -> usize
    ensures { result ≡ length (take_while is_plain_byte text.now) }
{
    text.as_bytes()
        .iter()
        .take_while(|byte| is_plain(**byte))
        .count()
}

#[tactic(auto, unfolding(json_text::specs::Bytes::is_plain))]
fn is_plain(byte: u8) -> bool
    ensures { result ≡ is_plain_byte byte }
{
    byte >= b' ' && byte != b'"' && byte != b'\\'
}
