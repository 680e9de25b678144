//! One pass over log files: each is looked at, known again by its first bytes, and read on, and the lines of what was read
//! are put behind the output. What waits at the end of a file that stands still is flushed, where the settings ask for it.
//!
//! The contract for the layer above: `take_all` takes paths in byte order, and what it makes of the rows and of the output
//! is what `standing` says of its looks (`TakesAll`), whatever others do to the files meanwhile. A row is flagged where it
//! is new or differs from what it was, and nowhere else (`FlagsChanges`). Reads give at most the front of each file looked at and what is
//! read on of it (`cost_of`). All writes lie at or past the output's length at the pass's begin (`KeepsDisk`), so until a
//! checkpoint is written nothing of it counts.
#![tactic(auto)]

mod counts;
mod ending;
mod fault;
mod feeding;
mod flushing;
mod found;
mod front;
pub mod laws;
mod looks;
mod output;
mod reading;
mod settling;
mod setup;
mod spelled;
mod taking;

pub use counts::Counts;
pub use fault::PassFault;
pub use output::{past_limit, write_behind};
pub use setup::Setup;
pub use taking::{Taking, take_all};
