//! Stops and failures inside commits and rewrites, over the disk in memory.
//!
//! Tests alone: what is stopped after each of its calls, with each outcome of a crash, what is left after each call that
//! may fail, and what counts of files that are torn or make false claims.
#![tactic(auto)]

#[cfg(test)]
mod journals;
#[cfg(test)]
mod logs;
#[cfg(test)]
mod slots;
