//! What becomes of the calls of a device in memory: failures that are set for some of them, a fuse after which each fails,
//! and the count of faults.
//!
//! The contract for the layer above: [`Plans::fate`] is what becomes of the next call by the definitions of specs/, and the
//! count of faults never passes the bound that is told.
#![tactic(auto)]

mod failures;
mod fuse;
mod plans;

pub use failures::Failures;
pub use fuse::{Fate, Fuse};
pub use plans::Plans;
