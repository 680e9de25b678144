//! The operators that move, copy, add, remove, retain and flatten fields of an entry, as those of the OpenTelemetry
//! Collector's log operators do, and what parsers do with the members that they make.
//!
//! The contract for the layer above: `apply` of each is its row of the definitions in `specs/Rows`, which speak of
//! an entry as its `log_record` and of a path as its `Place`. Its faults are exactly those of the row, and an entry
//! is unchanged on any fault, want of memory too.
#![tactic(auto)]

mod fault;
mod flattening;
mod keeping;
pub mod laws;
mod merging;
mod raising;
mod retaining;
mod root;
mod single;
mod transfer;

pub use fault::FieldFault;
pub use flattening::Flatten;
pub use merging::put_members;
pub use retaining::Retain;
pub use single::{Add, Remove};
pub use transfer::{Copy, Move};
