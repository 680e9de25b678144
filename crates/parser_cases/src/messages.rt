// Messages of syslog.
use crate::shown::write_members;
use std::alloc::{AllocError, Global};
use syslog_parser::{Syslog, SyslogFault, read_3164, read_5424};

/// `rfc5424`, with a message as the input.
pub fn rfc5424(alloc: Global, text: &str) -> Result<String, AllocError> {
    told(alloc, read_5424(alloc, text))
}

/// `rfc3164 YEAR LOCATION`, with a message as the input.
pub fn rfc3164(alloc: Global, words: &str, text: &str) -> Result<String, AllocError> {
    let (year, location) = words.split_once(' ').unwrap_or((words, ""));
    match (year.parse::<u16>(), location.parse::<i32>()) {
        (Ok(year), Ok(location)) => told(alloc, read_3164(alloc, text, year, location)),
        _ => String::from_str(alloc, "no year or no location"),
    }
}

/// Severity, time and members, or the fault.
fn told(alloc: Global, outcome: Result<Syslog, SyslogFault>) -> Result<String, AllocError> {
    match outcome {
        Ok(syslog) => message_told(alloc, &syslog),
        Err(fault) => format!(in alloc; "{fault:?}"),
    }
}

fn message_told(alloc: Global, syslog: &Syslog) -> Result<String, AllocError> {
    let mut out = String::new(alloc);
    let severity = syslog.severity;
    match syslog.timestamp {
        Some(time) => write!(out, "{severity} {time} ")?,
        None => write!(out, "{severity} - ")?,
    }
    write_members(&syslog.fields, &mut out)?;
    Ok(out)
}
