// Readers of entries.
ghost use Rattle.std.specs.Prelude.{◌≡◌};
ghost use Rattle.entry_model.specs.LogRecord.{log_record};
ghost use Rattle.state_codec.specs.Gives.{Gives};
ghost use Rattle.state_codec.specs.Reading.{severity_at, time_at, entry_at};

use crate::LEVELS;
use crate::cursor::Fault;
use crate::read::{read_text, read_u64};
use crate::value::{read_fields, read_value};
use entry_model::{Entry, Severity, Value};
use std::alloc::Global;

#[tactic(auto, unfolding(crate::specs::Reading::severity_at))]
fn read_severity(bytes: &[u8]) -> Result<(Severity, &[u8]), Fault>
    ensures { Gives (λ x. (x.0.number, x.1.now)) result (severity_at bytes.now) }
{
    match bytes {
        [] => Err(Fault::Malformed(0)),
        [number, rest @ ..] => {
            if *number > 24 {
                return Err(Fault::Malformed(bytes.len()));
            }
            Ok((Severity { number: *number }, rest))
        }
    }
}

#[tactic(auto, unfolding(crate::specs::Reading::time_at))]
fn read_time(bytes: &[u8]) -> Result<(Option<u64>, &[u8]), Fault>
    ensures { Gives (λ x. (x.0, x.1.now)) result (time_at bytes.now) }
{
    match bytes {
        [] => Err(Fault::Malformed(0)),
        [0, rest @ ..] => Ok((None, rest)),
        [1, rest @ ..] => {
            let (time, rest) = read_u64(rest)?;
            Ok((Some(time), rest))
        }
        [_, ..] => Err(Fault::Malformed(bytes.len())),
    }
}

#[tactic(auto, unfolding(crate::specs::Reading::entry_within))]
pub fn read_entry(alloc: Global, bytes: &[u8]) -> Result<(Entry, &[u8]), Fault>
    ensures { Gives (λ x. (log_record x.0, x.1.now)) result (entry_at bytes.now) }
{
    let (body, rest) = read_value(alloc, LEVELS, bytes)?;
    let (attributes, rest) = read_fields(alloc, LEVELS - 1, rest)?;
    let (resource, rest) = read_fields(alloc, LEVELS - 1, rest)?;
    let (severity, rest) = read_severity(rest)?;
    let (severity_text, rest) = read_text(alloc, rest)?;
    let (timestamp, rest) = read_time(rest)?;
    let entry = Entry {
        body,
        attributes: Value::Map(attributes),
        resource: Value::Map(resource),
        timestamp,
        severity,
        severity_text,
    };
    Ok((entry, rest))
}
