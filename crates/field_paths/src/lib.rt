//! Field paths: the texts by which operators name a place of an entry, as `body.user.name` or
//! `attributes["log.file.name"]`.
//!
//! The contract for the layer above: a [`FieldPath`] is seen as its `Place`, a root and the names of the members
//! down to it. [`FieldPath::read`] answers the place that a text spells, or the first byte from which the text
//! can't go on. [`FieldPath::get`], [`FieldPath::set`] and [`FieldPath::take`] read and change the one value at
//! that place, in the entry seen as a tree of maps; all else stays. [`FieldPath::stands_to`] tells whether two
//! places have to do with each other. They follow the field syntax of the OpenTelemetry Collector's log operators.
#![tactic(auto)]

mod get;
pub mod laws;
mod path;
mod read;
mod relation;
mod set;
mod take;

pub use path::{FieldPath, PathFault, Root, SetFault, TakeFault};
pub use relation::Relation;
