//! Messages of syslog, after [RFC 5424](https://www.rfc-editor.org/rfc/rfc5424) and
//! [RFC 3164](https://www.rfc-editor.org/rfc/rfc3164), as members of an entry, a time and a severity.
//!
//! The contract for the layer above: [`read_5424`] and [`read_3164`] answer exactly what the message that a text is tells,
//! by the grammars `IsMessage` of `specs/Rfc5424` and `specs/Rfc3164` and the members of `specs/Told`, or the leftmost fault:
//! the first part that can't be read, with the first byte from which no message can go on. [`laws`] says that a text
//! has one message and one fault.
#![tactic(auto)]

mod bytes;
mod cuts;
mod data;
mod escaped;
mod fault;
mod header;
pub mod laws;
mod members;
mod message;
mod params;
mod priority;
mod rfc3164;
mod rfc5424;
mod senders;
mod stamps;
mod syslog;

pub use fault::SyslogFault;
pub use rfc3164::read_3164;
pub use rfc5424::read_5424;
pub use syslog::Syslog;
