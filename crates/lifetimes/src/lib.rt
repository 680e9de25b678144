//! Whole lives of the agent, played as scripts from an empty disk: what the world does, when the agent polls, where it is
//! stopped and when it is opened again.
//!
//! **The contract for the layer above.** [`run_script`] takes any settings and any list of events. On Ok the world took a
//! course that the script allows (`Runs` of `specs/Course`), and where lines are taken whole (`TakesWhole` of `specs/Whole`),
//! whatever a crash may leave at the end stands for the whole history: nothing is asked of what stood before, since nothing did
//! (`IsEnding` of `specs/Ended`). After a poll that nothing disturbed the files of a small history are taken as a whole. A fault
//! names the first event that can't come, or is that of the settings (`IsScriptFault`).
#![tactic(auto)]

mod devices;
mod ending;
mod event;
mod fault;
pub mod laws;
mod life;
mod opening;
mod polling;
mod run;
mod stopping;

pub use ending::Ending;
pub use event::Event;
pub use fault::ScriptFault;
pub use run::run_script;
