// The keys that parsers share, as settings have them.
ghost use Rattle.std.specs.Prelude.{option_map, IfOk};
ghost use Rattle.op_kinds.specs.ParserView.{AreKeysOf, stamp_of};
ghost use Rattle.op_kinds.specs.Parsers.{IsGrading, IsStamp};
ghost use Rattle.op_kinds.specs.Readings.{Answers, parser_readings, severity_readings, time_readings};

use crate::OpCause;
use crate::parsing::Keys;
use crate::reading::{both, two_paths};
use crate::types::{severity_parsing, time_parsing};
use settings_text::{ParserKeys, SeveritySpec, TimeSpec};
use std::alloc::Global;
use time_severity::{SeverityOp, TimeOp};

pub(crate) fn keys_of(alloc: Global, keys: &ParserKeys) -> Result<Keys, OpCause>
    ensures ok { IfOk result (AreKeysOf keys.now) }
    ensures answers { Answers (parser_readings keys.now) result }
{
    let paths = two_paths(alloc, &keys.parse_from, &keys.parse_to);
    let stamps = both(
        time_op(alloc, &keys.timestamp),
        severity_op(alloc, &keys.severity),
    );
    match both(paths, stamps) {
        Ok(((from, to), (timestamp, severity))) => Ok(Keys {
            from,
            to,
            timestamp,
            severity,
        }),
        Err(cause) => Err(cause),
    }
}

fn time_op(alloc: Global, spec: &Option<TimeSpec>) -> Result<Option<TimeOp>, OpCause>
    ensures ok { IfOk result (λ made. IsStamp spec.now (option_map stamp_of made)) }
    ensures answers { Answers (time_readings spec.now) result }
{
    let Some(spec) = spec else {
        return Ok(None);
    };
    match time_parsing::compile(alloc, spec) {
        Ok(op) => Ok(Some(op)),
        Err(cause) => Err(cause),
    }
}

fn severity_op(alloc: Global, spec: &Option<SeveritySpec>) -> Result<Option<SeverityOp>, OpCause>
    ensures ok { IfOk result (IsGrading spec.now) }
    ensures answers { Answers (severity_readings spec.now) result }
{
    let Some(spec) = spec else {
        return Ok(None);
    };
    match severity_parsing::compile(alloc, spec) {
        Ok(op) => Ok(Some(op)),
        Err(cause) => Err(cause),
    }
}
