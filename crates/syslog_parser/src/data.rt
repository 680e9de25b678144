// Structured data (RFC 5424, section 6.3).
ghost use Rattle.std.specs.Prelude.{◌≡◌, IfOk, IfErr};
ghost use Rattle.entry_model.specs.Seen.{seen};
ghost use Rattle.syslog_parser.specs.Bytes.{is_name_byte};
ghost use Rattle.syslog_parser.specs.Inner.Reads.{StopsWith, HasNoWord, ends_id, IsIdText, PutsElement, StopsInElement, PutsElements, PutsData, StopsInData};

use crate::bytes::name_count;
use crate::cuts::{cut, split, stands, stands_either};
use crate::fault::Stop;
use crate::members::put_map;
use crate::params::put_params;
use entry_model::FieldsBuilder;
use std::alloc::Global;

/// Puts structured data into the members, unless they are `-`, and answers what stands behind them.
pub(crate) fn put_data<'t>(
    alloc: Global,
    members: &mut FieldsBuilder,
    text: &'t str,
) -> Result<&'t str, Stop>
    ensures ok { IfOk result (λ rest. PutsData text.now (seen members.old.entries) (seen members.new.entries) rest.now) }
    ensures fault { IfErr result (StopsWith (StopsInData text.now)) }
{
    if stands(text, 0, b'-') {
        let (_, rest) = cut(text, 0);
        return Ok(rest);
    }
    let mut elements = FieldsBuilder::new(alloc);
    let rest = match put_elements(alloc, &mut elements, text) {
        Ok(rest) => rest,
        Err(stop) => return Err(stop),
    };
    put_map(alloc, members, "structured_data", elements.finish()?)?;
    Ok(rest)
}

/// Puts the elements into the members, by their ids, and answers what stands behind them.
fn put_elements<'t>(
    alloc: Global,
    members: &mut FieldsBuilder,
    text: &'t str,
) -> Result<&'t str, Stop>
    ensures ok { IfOk result (λ rest. PutsElements text.now (seen members.old.entries) (seen members.new.entries) rest.now) }
    ensures fault { IfErr result (StopsWith (StopsInElement text.now)) }
{
    let mut rest = text;
    'elements: loop {
        rest = match put_element(alloc, members, rest) {
            Ok(next) => next,
            Err(stop) => return Err(stop),
        };
        if !stands(rest, 0, b'[') {
            return Ok(rest);
        }
    }
}

/// Puts an element into the members, as a map of its parameters, and answers what stands behind it.
fn put_element<'t>(
    alloc: Global,
    members: &mut FieldsBuilder,
    text: &'t str,
) -> Result<&'t str, Stop>
    ensures ok { IfOk result (λ rest. PutsElement text.now (seen members.old.entries) (seen members.new.entries) rest.now) }
    ensures fault { IfErr result (StopsWith (StopsInElement text.now)) }
{
    if !stands(text, 0, b'[') {
        return Err(Stop::At { left: text.len() });
    }
    let (_, named) = cut(text, 0);
    let (id, behind) = match read_id(named) {
        Ok(read) => read,
        Err(stop) => return Err(stop),
    };
    let mut params = FieldsBuilder::new(alloc);
    let rest = match put_params(alloc, &mut params, behind) {
        Ok(rest) => rest,
        Err(stop) => return Err(stop),
    };
    put_map(alloc, members, id, params.finish()?)?;
    Ok(rest)
}

/// The id of an element, and what stands from its end on.
fn read_id(text: &str) -> Result<(&str, &str), Stop>
    ensures ok { IfOk result (λ read. IsIdText text.now read.0.now read.1.now) }
    ensures fault { IfErr result (StopsWith (HasNoWord is_name_byte 32 ends_id text.now)) }
{
    let count = name_count(text.as_bytes());
    if count > 32 {
        let left = text.len() - 32;
        return Err(Stop::At { left });
    }
    if count == 0 || !stands_either(text, count, b' ', b']') {
        let left = text.len() - count;
        return Err(Stop::At { left });
    }
    Ok(split(text, count))
}
