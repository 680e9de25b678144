// The type `syslog_parser`.
ghost use Rattle.std.specs.Prelude.{◌≡◌, ◌≢◌, [], ◌∷◌, IfOk, IfErr, OnOk, OnErr, None, Some};
ghost use Rattle.entry_model.specs.Datum.{datum};
ghost use Rattle.entry_model.specs.LogRecord.{log_record};
ghost use Rattle.field_paths.specs.PathText.{IsPathText};
ghost use Rattle.field_paths.specs.ValueAt.{datum_at};
ghost use Rattle.op_kinds.specs.Parsers as parsers;
ghost use Rattle.op_kinds.specs.Readings as readings;
ghost use Rattle.op_kinds.specs.Readings.{Caused};
ghost use Rattle.op_kinds.specs.Syslog as messages;
ghost use Rattle.op_kinds.specs.declared.row.RowFault.TheVariants.{Memory};
ghost use Rattle.op_kinds.specs.declared.types.syslog_parsing.Protocol.TheVariants as protocol;
ghost use Rattle.syslog_parser.specs.Told.{meaning_of};

use crate::OpCause;
use crate::reading::two_paths;
use crate::row::{RowFault, in_row};
use entry_model::{Entry, Severity, Text, Value};
use field_ops::put_members;
use field_paths::FieldPath;
use settings_text::ParserKeys;
use std::alloc::Global;
use syslog_parser::{Syslog, read_3164, read_5424};

/// By which RFC texts are read.
#[derive(Clone, Copy, PartialEq, Eq, Drop)]
pub(crate) enum Protocol {
    Rfc5424,
    /// Its times are of this year, at this distance from UTC, in seconds to the east.
    Rfc3164 { year: u16, location: i32 },
}

/// Puts the members of a message into an entry, and stamps it with its time and severity.
#[derive(Drop)]
pub(crate) struct SyslogOp {
    pub(crate) protocol: Protocol,
    pub(crate) from: FieldPath,
    pub(crate) to: FieldPath,
}

pub(crate) fn compile(
    alloc: Global,
    year: Option<u16>,
    location: i32,
    keys: &ParserKeys,
) -> Result<SyslogOp, OpCause>
    ensures protocol { IfOk result (λ op. op.protocol ≡ parsers.protocol_of year location) }
    ensures paths { IfOk result (λ op. IsPathText keys.now.parse_from op.from × IsPathText keys.now.parse_to op.to) }
    ensures cause { IfErr result (Caused (readings.path keys.now.parse_from ∷ readings.path keys.now.parse_to ∷ [])) }
{
    let (from, to) = two_paths(alloc, &keys.parse_from, &keys.parse_to)?;
    Ok(SyslogOp {
        protocol: protocol_of(year, location),
        from,
        to,
    })
}

fn protocol_of(year: Option<u16>, location: i32) -> Protocol
    ensures { result ≡ parsers.protocol_of year location }
{
    match year {
        Some(year) => Protocol::Rfc3164 { year, location },
        None => Protocol::Rfc5424,
    }
}

impl SyslogOp {
    /// All of it, or nothing: on any fault the entry is unchanged.
    #[tactic(auto, unfolding(crate::specs::Syslog::syslogged))]
    pub(crate) fn apply(&self, alloc: Global, entry: &mut Entry) -> Result<(), RowFault>
        ensures ok { OnOk result (messages.syslogged self.now.protocol self.now.from self.now.to (log_record entry.old) ≡ Some (log_record entry.new)) }
        ensures fault { IfErr result (λ fault. fault ≢ Memory → messages.syslogged self.now.protocol self.now.from self.now.to (log_record entry.old) ≡ None) }
        ensures err { OnErr result (log_record entry.new ≡ log_record entry.old) }
    {
        let Syslog {
            fields,
            timestamp,
            severity,
        } = self.read(alloc, entry)?;
        let name = Text::from_str(alloc, severity_name(severity))?;
        in_row(put_members(alloc, &self.to, fields, entry))?;
        if timestamp.is_some() {
            entry.timestamp = timestamp;
        }
        entry.severity = Severity {
            number: severity_number(severity),
        };
        entry.severity_text = name;
        Ok(())
    }

    fn read(&self, alloc: Global, entry: &Entry) -> Result<Syslog, RowFault>
        ensures ok { IfOk result (λ syslog. messages.told_at self.now.protocol (datum_at self.now.from (log_record entry.now)) ≡ Some (meaning_of syslog)) }
        ensures fault { IfErr result (λ fault. fault ≢ Memory → messages.told_at self.now.protocol (datum_at self.now.from (log_record entry.now)) ≡ None) }
    {
        match self.from.get(entry) {
            Some(value) => self.protocol.read(alloc, value),
            None => Err(RowFault::Faulty),
        }
    }
}

impl Protocol {
    /// What a value tells, which has to be a text.
    fn read(self, alloc: Global, value: &Value) -> Result<Syslog, RowFault>
        ensures ok { IfOk result (λ syslog. messages.told self (datum value.now) ≡ Some (meaning_of syslog)) }
        ensures fault { IfErr result (λ fault. fault ≢ Memory → messages.told self (datum value.now) ≡ None) }
    {
        match value {
            Value::Text(text) => self.read_text(alloc, text.as_str()),
            Value::Null | Value::Bool(_) | Value::Int(_) | Value::List(_) | Value::Map(_) => {
                Err(RowFault::Faulty)
            }
        }
    }

    fn read_text(self, alloc: Global, text: &str) -> Result<Syslog, RowFault>
        ensures ok { IfOk result (λ syslog. messages.told_by self text.now ≡ Some (meaning_of syslog)) }
        ensures fault { IfErr result (λ fault. fault ≢ Memory → messages.told_by self text.now ≡ None) }
    {
        match self {
            Protocol::Rfc5424 => by_5424(alloc, text),
            Protocol::Rfc3164 { year, location } => by_3164(alloc, text, year, location),
        }
    }
}

#[tactic(auto, using(crate::proofs::Syslog::told_5424, crate::proofs::Syslog::untold_5424))]
fn by_5424(alloc: Global, text: &str) -> Result<Syslog, RowFault>
    ensures ok { IfOk result (λ syslog. messages.told_by protocol.Rfc5424 text.now ≡ Some (meaning_of syslog)) }
    ensures fault { IfErr result (λ fault. fault ≢ Memory → messages.told_by protocol.Rfc5424 text.now ≡ None) }
{
    match read_5424(alloc, text) {
        Ok(syslog) => Ok(syslog),
        Err(fault) => Err(RowFault::from(fault)),
    }
}

/// The times are of this year, at this distance from UTC.
#[tactic(auto, using(crate::proofs::Syslog::told_3164, crate::proofs::Syslog::untold_3164))]
fn by_3164(alloc: Global, text: &str, year: u16, location: i32) -> Result<Syslog, RowFault>
    ensures ok { IfOk result (λ syslog. messages.told_by (protocol.Rfc3164 year location) text.now ≡ Some (meaning_of syslog)) }
    ensures fault { IfErr result (λ fault. fault ≢ Memory → messages.told_by (protocol.Rfc3164 year location) text.now ≡ None) }
{
    match read_3164(alloc, text, year, location) {
        Ok(syslog) => Ok(syslog),
        Err(fault) => Err(RowFault::from(fault)),
    }
}

/// Of 0, an emergency, to 7, for debugging.
fn severity_number(severity: u8) -> u8
    ensures { result ≡ messages.severity_number severity }
{
    match severity {
        0 => 21,
        1 => 19,
        2 => 18,
        3 => 17,
        4 => 13,
        5 => 10,
        6 => 9,
        _ => 5,
    }
}

fn severity_name(severity: u8) -> &'static str
    ensures { result.now ≡ messages.severity_name severity }
{
    match severity {
        0 => "emerg",
        1 => "alert",
        2 => "crit",
        3 => "err",
        4 => "warning",
        5 => "notice",
        6 => "info",
        _ => "debug",
    }
}
