//! The walk that finds the log files which a log agent is told of by patterns, in folders that others change meanwhile.
//!
//! The contract for the layer above: [`paths`] lists folders of a [`Tree`](outside::Tree) level by level, each once, and
//! answers the paths of the files that some include matches, no exclude matches, and that aren't the agent's own, in
//! byte order and each once (`Finds`). Over a tree that tells its history (`FindsIn`) each path was that of a file at some
//! moment of the walk, and each that was so at every moment is among them, unless a folder on its way could not be listed or
//! lies too deep. Only starts are listed, and folders in which some include may have a match (`ListsOnce`).
//!
//! The words are those of the OpenTelemetry Collector's file consumer: `include`, `exclude`.
#![tactic(auto)]

mod findings;
mod folder;
mod globs;
pub mod laws;
mod level;
mod own_names;
mod path;
mod sorted;
mod starts;
mod walk;

pub use own_names::is_own_name;
pub use walk::{MAX_DEPTH, Walk, paths};
