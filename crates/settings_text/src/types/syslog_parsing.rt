// The type `syslog_parser`.
ghost use Rattle.std.specs.Prelude.{◌≡◌, codes};
ghost use Rattle.serde_json.specs.View.{view};
ghost use Rattle.settings_text.specs.Kinds as kinds;
ghost use Rattle.settings_text.specs.Outcome.{Gives};
ghost use Rattle.settings_text.specs.Types.SyslogParsing as syslog_parsing;

use crate::fault::SettingsFault;
use crate::kinds::integer;
use crate::parsers;
use crate::place::place;
use crate::settings::OpKind;
use crate::times::location;
use crate::words::{is_one_of, named};
use serde_json::Value;
use std::alloc::Global;

/// By which RFC texts are read.
#[derive(Clone, Copy)]
enum Protocol {
    Rfc5424,
    /// Its times have no year.
    Rfc3164,
}

fn needs_year(object: &Value) -> bool
    ensures { result ≡ syslog_parsing.needs_year (view object.now) }
{
    match object.get("protocol") {
        Some(value) => match value.as_str() {
            Some(name) => name == "rfc3164",
            None => false,
        },
        None => false,
    }
}

/// Whether this object may have the key. A year is one of RFC 3164 alone.
pub fn is_key(object: &Value, name: &str) -> bool
    ensures { result ≡ syslog_parsing.is_key (view object.now) name.now }
{
    is_one_of(name, &["protocol", "location"])
        || parsers::is_field_key(name)
        || (name == "year" && needs_year(object))
}

fn read_protocol(alloc: Global, object: &Value, at: &str) -> Result<Protocol, SettingsFault>
    ensures { Gives (λ protocol. protocol) result
        (kinds.must at.now (codes "protocol") (kinds.name syslog_parsing.protocol_named) (view object.now)) }
{
    let Some(value) = object.get("protocol") else {
        return Err(SettingsFault::Missing {
            key: place(alloc, at, "protocol")?,
        });
    };
    let words = [
        ("rfc5424", Protocol::Rfc5424),
        ("rfc3164", Protocol::Rfc3164),
    ];
    named(alloc, value, at, "protocol", &words)
}

/// A year whose days have instants of 64 bits.
fn year(alloc: Global, object: &Value, at: &str) -> Result<u16, SettingsFault>
    ensures { Gives (λ year. year) result (kinds.must at.now (codes "year") (kinds.whole 1970 2553) (view object.now)) }
{
    let Some(value) = object.get("year") else {
        return Err(SettingsFault::Missing {
            key: place(alloc, at, "year")?,
        });
    };
    let number = integer(alloc, value, at, "year", 1970, 2553)?;
    Ok(number.unsigned_abs() as u16)
}

/// The year of all times, where they have none of their own.
fn year_of(
    alloc: Global,
    protocol: Protocol,
    object: &Value,
    at: &str,
) -> Result<Option<u16>, SettingsFault>
    ensures { Gives (λ year. year) result (syslog_parsing.year_of protocol at.now (view object.now)) }
{
    match protocol {
        Protocol::Rfc5424 => Ok(None),
        Protocol::Rfc3164 => Ok(Some(year(alloc, object, at)?)),
    }
}

pub fn read(alloc: Global, object: &Value, at: &str) -> Result<OpKind, SettingsFault>
    ensures { Gives (λ kind. kind) result (syslog_parsing.read at.now (view object.now)) }
{
    let protocol = read_protocol(alloc, object, at)?;
    let year = year_of(alloc, protocol, object, at)?;
    let location = location(alloc, object, at)?;
    let parser = parsers::read_fields(alloc, object, at)?;
    Ok(OpKind::Syslog {
        year,
        location,
        parser,
    })
}
