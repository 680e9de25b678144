// The fields behind the time of RFC 5424 (section 6.2.4 to 6.2.7).
ghost use Rattle.std.specs.Prelude.{◌≡◌, IfOk, IfErr, codes};
ghost use Rattle.entry_model.specs.Seen.{seen};
ghost use Rattle.syslog_parser.specs.Bytes.{is_printable};
ghost use Rattle.syslog_parser.specs.Inner.Reads.{StopsWith, HasNoWord, is_space, IsFieldText, StopsInFields, PutsField, PutsHeader};
ghost use Rattle.syslog_parser.specs.Rfc5424.{header_fields};

use crate::bytes::printable_count;
use crate::cuts::{cut, stands};
use crate::fault::Stop;
use crate::members::put_text;
use entry_model::{FieldsBuilder, Text};
use std::alloc::Global;

/// Puts HOSTNAME, APP-NAME, PROCID and MSGID into the members, each unless it is `-`, and answers what stands behind them.
pub(crate) fn put_header<'t>(
    alloc: Global,
    members: &mut FieldsBuilder,
    text: &'t str,
) -> Result<&'t str, Stop>
    ensures ok { IfOk result (λ rest. PutsHeader text.now (seen members.old.entries) (seen members.new.entries) rest.now) }
    ensures fault { IfErr result (StopsWith (StopsInFields header_fields text.now)) }
{
    let named = match put_field(alloc, members, "hostname", 255, text) {
        Ok(rest) => rest,
        Err(stop) => return Err(stop),
    };
    let numbered = match put_field(alloc, members, "appname", 48, named) {
        Ok(rest) => rest,
        Err(stop) => return Err(stop),
    };
    let typed = match put_field(alloc, members, "proc_id", 128, numbered) {
        Ok(rest) => rest,
        Err(stop) => return Err(stop),
    };
    match put_field(alloc, members, "msg_id", 32, typed) {
        Ok(rest) => Ok(rest),
        Err(stop) => Err(stop),
    }
}

/// Puts a field of at most so many bytes into the members, unless it is `-`, and answers what stands behind its space.
fn put_field<'t>(
    alloc: Global,
    members: &mut FieldsBuilder,
    name: &str,
    most: usize,
    text: &'t str,
) -> Result<&'t str, Stop>
    ensures ok { IfOk result (λ rest. PutsField name.now most text.now (seen members.old.entries) (seen members.new.entries) rest.now) }
    ensures fault { IfErr result (StopsWith (HasNoWord is_printable most is_space text.now)) }
{
    let (own, rest) = match read_field(text, most) {
        Ok(read) => read,
        Err(stop) => return Err(stop),
    };
    if own != "-" {
        put_text(alloc, members, name, Text::from_str(alloc, own)?)?;
    }
    Ok(rest)
}

/// A field of at most so many bytes, and what stands behind its space.
fn read_field(text: &str, most: usize) -> Result<(&str, &str), Stop>
    ensures ok { IfOk result (λ read. IsFieldText most text.now read.0.now read.1.now) }
    ensures fault { IfErr result (StopsWith (HasNoWord is_printable most is_space text.now)) }
{
    let count = printable_count(text.as_bytes());
    if count > most {
        let left = text.len() - most;
        return Err(Stop::At { left });
    }
    if count == 0 || !stands(text, count, b' ') {
        let left = text.len() - count;
        return Err(Stop::At { left });
    }
    Ok(cut(text, count))
}
