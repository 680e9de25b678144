//! The types of operators that settings can name, each a [`graph_core::Step`] over log records.
//!
//! The contract for the layer above: [`compile`] makes the operator that the settings of one ask for, as `specs/Compiled`
//! says, or tells the least cause for which a text in them can't be read, as `specs/Readings` says. What an [`AnyOp`]
//! makes of a record is `behavior_of` of `specs/Operator`, a function of what it keeps and the record: what it keeps from
//! then on, and a list of records, each with its port. An operator with one output does what the row of its type says, with
//! its condition and `on_error` around it: where the condition isn't true, or where it can't be done, the record is
//! unchanged, and is sent on or dropped, and what is kept stays. A router sends the record to the port of the first route
//! that is true. [`laws`] has what the definitions imply.
#![tactic(auto)]

mod action;
mod any_op;
mod cause;
mod compiling;
mod condition;
mod conditional;
mod joining;
pub mod laws;
mod pairs;
mod parser;
mod parser_keys;
mod parsing;
mod reading;
mod record;
mod router;
mod row;
mod saving;
mod state;
mod types;

pub use any_op::{AnyOp, fresh_state};
pub use cause::OpCause;
pub use compiling::compile;
pub use record::Record;
pub use saving::{restore_state, save_state};
pub use state::{OpState, is_fresh};
