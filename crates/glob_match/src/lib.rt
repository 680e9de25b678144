//! Globs: the patterns by which a log agent is told the files that it reads, as `/var/log/**/*.log`.
//!
//! The contract for the layer above: a [`Glob`] is seen as its `Pattern`, a list of components. [`Glob::read`] answers
//! the pattern that a text spells, or where the text goes wrong. [`Glob::matches`] is `MatchesPath`, a relation between
//! the components of a pattern and those of a path, and inside a component between pieces and characters.
//! [`Glob::lists`] tells of a folder whether a match may lie in it or below it, and [`Glob::start`] the folder in which a
//! search for matches begins. Reading takes memory, and matching takes none. For paths whose names have up to 4,095
//! characters it takes as many steps at most as the pattern is long times the path's length, whatever the pattern.
//!
//! The words are those of `glob(7)` and of the `include` patterns of the OpenTelemetry Collector's file consumer.
#![tactic(auto)]

mod class;
mod glob;
pub mod laws;
mod matching;
mod name;
mod path;
mod pattern;
mod reader;
mod search;
mod start;

pub use glob::{Glob, GlobFault};
