// Values of parameters (RFC 5424, section 6.3.3).
ghost use Rattle.std.specs.Prelude.{◌≡◌, ◌≤◌, IfOk, IfErr, OnOk, length, string_bytes};
ghost use Rattle.syslog_parser.specs.Inner.Reads.{StopsWith, StopsInValue, Escapes, IsAtEnd};
ghost use Rattle.syslog_parser.specs.Structured.{IsContent};

use crate::bytes::{is_special, plain_count};
use crate::cuts::{cut, first, stands};
use crate::fault::Stop;
use entry_model::Text;
use std::alloc::Global;

/// The value that stands behind its first quote, and what stands behind its second.
pub(crate) fn read_value(alloc: Global, text: &str) -> Result<(Text, &str), Stop>
    ensures ok { IfOk result (λ read. IsContent text.now read.0 read.1.now) }
    ensures fault { IfErr result (StopsWith (StopsInValue text.now)) }
{
    let count = plain_count(text.as_bytes());
    if stands(text, count, b'"') {
        let (own, rest) = cut(text, count);
        return Ok((Text::from_str(alloc, own)?, rest));
    }
    read_escaped(alloc, text)
}

/// As [`read_value`], of a value with backslashes.
fn read_escaped(alloc: Global, text: &str) -> Result<(Text, &str), Stop>
    ensures ok { IfOk result (λ read. IsContent text.now read.0 read.1.now) }
    ensures fault { IfErr result (StopsWith (StopsInValue text.now)) }
{
    let mut value = String::new(alloc);
    let mut rest = text;
    'pieces: loop {
        let count = plain_count(rest.as_bytes());
        if count == rest.len() {
            return Err(Stop::At { left: 0 });
        }
        if stands(rest, count, b']') {
            let left = rest.len() - count;
            return Err(Stop::At { left });
        }
        let (own, behind) = cut(rest, count);
        value.push_str(own)?;
        if stands(rest, count, b'"') {
            return Ok((Text::new(value)?, behind));
        }
        rest = match push_escaped(&mut value, behind) {
            Ok(next) => next,
            Err(stop) => return Err(stop),
        };
    }
}

/// Adds what a backslash in front of this text stands for, and answers what is still to be read.
fn push_escaped<'t>(value: &mut String, text: &'t str) -> Result<&'t str, Stop>
    ensures ok { IfOk result (λ rest. Escapes text.now (string_bytes value.old) (string_bytes value.new) rest.now) }
    ensures fault { IfErr result (StopsWith (IsAtEnd text.now)) }
{
    let Some(byte) = first(text) else {
        return Err(Stop::At { left: 0 });
    };
    if is_special(byte) {
        let (_, rest) = cut(text, 0);
        value.push(byte as char)?;
        return Ok(rest);
    }
    value.push('\\')?;
    Ok(text)
}
