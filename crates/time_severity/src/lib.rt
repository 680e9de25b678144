//! The operators that stamp an entry: with the time that one of its values tells, and with the severity that one names.
//!
//! The contract for the layer above: [`TimeOp::apply`] is `timed` of `specs/Times`, and [`SeverityOp::apply`] is `graded` of
//! `specs/Gradings`. Both speak of an entry as its `log_record` and of a path as its `Place`. Their faults are exactly those
//! of the definitions, and an entry is unchanged on any fault, want of memory too. [`laws`] says in other words what the
//! definitions are: which instants values tell, which rule of a mapping counts, and which texts spell numbers.
//!
//! They are modelled on the operators `time_parser` and `severity_parser` of the OpenTelemetry Collector's
//! [`pkg/stanza`](https://github.com/open-telemetry/opentelemetry-collector-contrib/tree/main/pkg/stanza). Severity numbers
//! and their short names are those of the OpenTelemetry Logs Data Model.
#![tactic(auto)]

mod fault;
pub mod laws;
mod presets;
mod rule;
mod severity_op;
mod spelled;
mod time_op;

pub use fault::StampFault;
pub use rule::{SeverityRule, Want};
pub use severity_op::SeverityOp;
pub use time_layout::EpochKind;
pub use time_op::{TimeKind, TimeOp};
