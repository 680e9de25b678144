// Parameters of an element (RFC 5424, section 6.3.3).
ghost use Rattle.std.specs.Prelude.{◌≡◌, IfOk, IfErr};
ghost use Rattle.entry_model.specs.Seen.{seen};
ghost use Rattle.syslog_parser.specs.Bytes.{is_name_byte};
ghost use Rattle.syslog_parser.specs.Inner.Reads.{StopsWith, HasNoWord, is_equals_sign, IsNameText, PutsParam, StopsInParam, PutsParams, StopsInParams};

use crate::bytes::name_count;
use crate::cuts::{cut, stands};
use crate::escaped::read_value;
use crate::fault::Stop;
use crate::members::put_text;
use entry_model::FieldsBuilder;
use std::alloc::Global;

/// Puts the parameters that stand behind an id into the members, and answers what stands behind their bracket.
pub(crate) fn put_params<'t>(
    alloc: Global,
    members: &mut FieldsBuilder,
    text: &'t str,
) -> Result<&'t str, Stop>
    ensures ok { IfOk result (λ rest. PutsParams text.now (seen members.old.entries) (seen members.new.entries) rest.now) }
    ensures fault { IfErr result (StopsWith (StopsInParams text.now)) }
{
    let mut rest = text;
    'params: loop {
        if stands(rest, 0, b']') {
            let (_, behind) = cut(rest, 0);
            return Ok(behind);
        }
        if !stands(rest, 0, b' ') {
            return Err(Stop::At { left: rest.len() });
        }
        let (_, named) = cut(rest, 0);
        rest = match put_param(alloc, members, named) {
            Ok(next) => next,
            Err(stop) => return Err(stop),
        };
    }
}

/// Puts a parameter into the members, and answers what stands behind its value.
fn put_param<'t>(alloc: Global, members: &mut FieldsBuilder, text: &'t str) -> Result<&'t str, Stop>
    ensures ok { IfOk result (λ rest. PutsParam text.now (seen members.old.entries) (seen members.new.entries) rest.now) }
    ensures fault { IfErr result (StopsWith (StopsInParam text.now)) }
{
    let (name, valued) = match read_name(text) {
        Ok(read) => read,
        Err(stop) => return Err(stop),
    };
    if !stands(valued, 0, b'"') {
        return Err(Stop::At { left: valued.len() });
    }
    let (_, quoted) = cut(valued, 0);
    let (value, rest) = match read_value(alloc, quoted) {
        Ok(read) => read,
        Err(stop) => return Err(stop),
    };
    put_text(alloc, members, name, value)?;
    Ok(rest)
}

/// The name of a parameter, and what stands behind its `=`.
fn read_name(text: &str) -> Result<(&str, &str), Stop>
    ensures ok { IfOk result (λ read. IsNameText text.now read.0.now read.1.now) }
    ensures fault { IfErr result (StopsWith (HasNoWord is_name_byte 32 is_equals_sign text.now)) }
{
    let count = name_count(text.as_bytes());
    if count > 32 {
        let left = text.len() - 32;
        return Err(Stop::At { left });
    }
    if count == 0 || !stands(text, count, b'=') {
        let left = text.len() - count;
        return Err(Stop::At { left });
    }
    Ok(cut(text, count))
}
