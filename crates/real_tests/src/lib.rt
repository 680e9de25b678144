//! The real outside on the machine's own files, in the folder that the tests run in.
//!
//! Tests alone.
#![tactic(auto)]

#[cfg(test)]
mod devices;
