//! The commands of the agent, over any tree of log files, disk, control input, report and clock.
//!
//! The contract for the layer above: [`run_agent`] is the whole program, and its contract is the product's promise: what each
//! command does, with which status it ends and why, what it reports, and that whatever others do to the files meanwhile, and
//! wherever it is stopped, what stands for them stands. [`run_segmented`] is the same over an output in Parts. [`next_request`] takes
//! one line of the control input.
#![tactic(auto)]

mod adopt;
mod agent;
mod audit;
mod committed;
mod control;
mod demo;
mod fault;
mod follow;
mod once;
mod opening;
mod pipe;
mod report;
mod segments;
mod turn;

pub use agent::run_agent;
pub use control::{Request, next_request};
pub use segments::run_segmented;
