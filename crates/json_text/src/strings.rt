// Strings (RFC 8259, section 7).
ghost use Rattle.std.specs.Prelude.{◌≡◌, ◌+◌, ◌≤◌, length, drop};
ghost use Rattle.std.specs.List.{take_while};
ghost use Rattle.std.specs.Str.{IsCharBoundary};
ghost use Rattle.json_text.specs.Bytes.{is_plain as is_plain_byte};
ghost use Rattle.json_text.specs.Machine.{no_content};
ghost use Rattle.json_text.specs.Reads.{Reads, text_from, text_read_as};

use crate::JsonFault;
use crate::bytes::stands;
use crate::content::Content;
use crate::escape::escape;
use entry_model::Text;
use std::alloc::Global;

/// The string whose first quote stands before `at`, and the place behind its second.
pub fn string(alloc: Global, text: &str, at: usize) -> Result<(Text, usize), JsonFault>
    requires { IsCharBoundary text.now at }
    ensures { Reads text.now at (text_from no_content) text_read_as result }
{
    let end = plain_end(text, at);
    if stands(text, end, b'"') {
        let content = Text::from_str(alloc, &text[at..end])?;
        return Ok((content, end + 1));
    }
    escaped_string(alloc, text, at)
}

fn escaped_string(alloc: Global, text: &str, at: usize) -> Result<(Text, usize), JsonFault>
    requires { IsCharBoundary text.now at }
    ensures { Reads text.now at (text_from no_content) text_read_as result }
{
    let mut content = Content::new(alloc);
    let mut place = at;
    loop {
        let end = plain_end(text, place);
        content.push_plain(&text[place..end])?;
        if stands(text, end, b'"') {
            return Ok((content.finish()?, end + 1));
        }
        if !stands(text, end, b'\\') {
            return Err(JsonFault::Syntax { at: end });
        }
        let (piece, next) = match escape(text, end + 1) {
            Ok(read) => read,
            Err(fault) => return Err(fault),
        };
        content.push(piece)?;
        place = next;
    }
}

/// The first place from `at` on whose byte doesn't stand for itself.
#[tactic(auto, using(std::proofs::lemmas::List::take_rest))]
fn plain_end(text: &str, at: usize) -> usize
    requires { at ≤ length text.now }
    ensures { result ≡ at + length (take_while is_plain_byte (drop at text.now)) }
{
    let bytes = text.as_bytes();
    at + plain_count(&bytes[at..])
}

fn plain_count(bytes: &[u8]) -> usize
    ensures { result ≡ length (take_while is_plain_byte bytes.now) }
{
    bytes.iter().take_while(|byte| is_plain(**byte)).count()
}

#[tactic(auto, unfolding(crate::specs::Bytes::is_plain))]
fn is_plain(byte: u8) -> bool
    ensures { result ≡ is_plain_byte byte }
{
    byte >= b' ' && byte != b'"' && byte != b'\\'
}
