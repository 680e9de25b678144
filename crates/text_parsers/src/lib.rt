//! The parsers that make members of an entry out of a text: the named groups of a pattern, the members of a JSON object,
//! the fields of a CSV record, and keys with values.
//!
//! The contract for the layer above: `apply` of each answers `NotText` exactly for a value that is no text, and else exactly
//! the members that the text says (`IsMatchedText`, `IsObjectText`, `IsRecordText`, `IsPairsText`), or its fault with its
//! place. Patterns and CSV records are those of the crates `regex` and `csv`.
//!
//! They are modelled on the operators `regex_parser`, `json_parser`, `csv_parser` and `key_value_parser` of the
//! OpenTelemetry Collector's [`pkg/stanza`](https://github.com/open-telemetry/opentelemetry-collector-contrib/tree/main/pkg/stanza).
#![tactic(auto)]

mod blanks;
mod csv_op;
mod cuts;
mod fault;
mod field_slices;
mod groups;
mod json_op;
mod key_value_op;
mod known_names;
pub mod laws;
mod members;
mod parts;
mod quotes;
mod records;
mod regex_fault;
mod regex_op;
mod search;

pub use csv_op::CsvOp;
pub use fault::ParseFault;
pub use json_op::JsonOp;
pub use key_value_op::KeyValueOp;
pub use regex_fault::RegexFault;
pub use regex_op::RegexOp;
