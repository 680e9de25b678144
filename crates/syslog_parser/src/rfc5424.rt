// Messages of RFC 5424.
ghost use Rattle.std.specs.Prelude.{◌≡◌, ◌≤◌, IfOk, IfErr, OnOk};
ghost use Rattle.entry_model.specs.Seen.{seen};
ghost use Rattle.syslog_parser.specs.Faults.{Tells5424, IsFault5424};
ghost use Rattle.syslog_parser.specs.Inner.Reads.{StopsWith, StopsInData, PutsTail, header_fault, structured_fault};
ghost use Rattle.syslog_parser.specs.Told.{meaning_of};

use crate::data::put_data;
use crate::fault::Stop;
use crate::header::put_header;
use crate::members::put_number;
use crate::message::put_end;
use crate::priority::{put_priority, read_priority};
use crate::stamps::{read_time, read_version};
use crate::{Syslog, SyslogFault};
use entry_model::FieldsBuilder;
use std::alloc::Global;

/// What a message of [RFC 5424](https://www.rfc-editor.org/rfc/rfc5424), section 6, tells: its priority and the facility in
/// it, its version, and what it has of a host, an application's name, the ids of its process and of its kind, structured
/// data and a text. A part that is `-` and an empty text are left out. Of a repeated id or name the last stays. A mark
/// U+FEFF at the text's front is no part of it.
///
/// The faults come from the left: `Pri`, `Version`, `Time`, `Header`, `Structured`. A time has six digits of a fraction at
/// most. Fields are refused at the first byte that isn't printable ASCII or is one too many, and structured data at the
/// first byte from which the text can't go on, as at a `]` in a value without a backslash.
pub fn read_5424(alloc: Global, text: &str) -> Result<Syslog, SyslogFault>
    ensures ok { IfOk result (λ syslog. Tells5424 text.now (meaning_of syslog)) }
    ensures fault { IfErr result (IsFault5424 text.now) }
{
    let Some((priority, versioned)) = read_priority(text) else {
        return Err(SyslogFault::Pri);
    };
    let Some(timed) = read_version(versioned) else {
        return Err(SyslogFault::Version);
    };
    let Some((timestamp, named)) = read_time(timed) else {
        return Err(SyslogFault::Time);
    };
    let mut fields = FieldsBuilder::new(alloc);
    put_priority(alloc, &mut fields, priority)?;
    put_number(alloc, &mut fields, "version", 1)?;
    let behind = match put_header(alloc, &mut fields, named) {
        Ok(rest) => rest,
        Err(stop) => return Err(in_header(text.len(), stop)),
    };
    match put_tail(alloc, &mut fields, behind) {
        Ok(()) => Ok(Syslog {
            fields: fields.finish()?,
            timestamp,
            severity: priority % 8,
        }),
        Err(stop) => Err(in_structured(text.len(), stop)),
    }
}

/// Puts structured data and a message into the members.
fn put_tail(alloc: Global, members: &mut FieldsBuilder, text: &str) -> Result<(), Stop>
    ensures ok { OnOk result (PutsTail text.now (seen members.old.entries) (seen members.new.entries)) }
    ensures fault { IfErr result (StopsWith (StopsInData text.now)) }
{
    let rest = match put_data(alloc, members, text) {
        Ok(rest) => rest,
        Err(stop) => return Err(stop),
    };
    match put_end(alloc, members, rest) {
        Ok(()) => Ok(()),
        Err(stop) => Err(stop),
    }
}

/// The fault of a text of this length, in its header.
fn in_header(len: usize, stop: Stop) -> SyslogFault
    requires { StopsWith (λ left. left ≤ len) stop }
    ensures { result ≡ header_fault len stop }
{
    match stop {
        Stop::At { left } => SyslogFault::Header { at: len - left },
        Stop::Memory => SyslogFault::Memory,
    }
}

/// The fault of a text of this length, behind its header.
fn in_structured(len: usize, stop: Stop) -> SyslogFault
    requires { StopsWith (λ left. left ≤ len) stop }
    ensures { result ≡ structured_fault len stop }
{
    match stop {
        Stop::At { left } => SyslogFault::Structured { at: len - left },
        Stop::Memory => SyslogFault::Memory,
    }
}
