//! The entries that the agent makes of log lines: a body, attributes, a resource, a time and a severity, after
//! the [OpenTelemetry Logs Data Model](https://opentelemetry.io/docs/specs/otel/logs/data-model/).
//!
//! Contracts see a [`Text`] as the list of its UTF-8 bytes, a [`Value`] as its `datum`, an [`Entry`] as its
//! `log_record`, and a map as its `entries`: what a value is, and nothing of how it lies in memory. A crate
//! above rests on those four views alone.
#![tactic(auto)]

mod builder;
mod content;
pub mod copies;
mod copy;
mod depth;
mod entry;
mod fields;
pub mod laws;
mod short;
mod text;
mod value;

pub use builder::FieldsBuilder;
pub use copy::{copy_fields, copy_for_more, unset_fields};
pub use entry::{Entry, Severity};
pub use fields::TextMap;
pub use text::Text;
pub use value::{Fields, Value, Values};
