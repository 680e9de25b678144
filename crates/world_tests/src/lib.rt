//! The outside in memory: trees that others change meanwhile, a disk that fails and that crashes, and streams that fail.
//!
//! Tests alone.
#![tactic(auto)]

#[cfg(test)]
mod disk;
#[cfg(test)]
mod streams;
#[cfg(test)]
mod tree;
