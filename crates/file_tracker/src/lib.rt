//! The files that the agent knows. A file is known by its front, its first bytes as they were seen, whatever its name
//! is: a row whose front is how a file begins is that file's row.
//!
//! **The contract for the layer above.** Contracts see a [`Tracker`] as the list of its [`Row`]s in the order in which
//! they were admitted. [`Tracker::find`] answers the first place whose row's front is how a text begins (`place_of`),
//! and each call that changes the tracker changes one row as said. What the tracker keeps beside the rows, so that a
//! search takes few steps, no contract mentions.
//!
//! A search compares a row's front with the text at most once for each binary digit of the number of rows, where no
//! front begins another (`AreApart`); where one does, it tries the rows one by one. [`Tracker::find_counted`] says so.
#![tactic(auto)]

mod bytes;
mod ends;
mod index;
mod row;
mod search;
mod steps;
mod tracker;

pub use bytes::Bytes;
pub use ends::{End, Ends};
pub use row::Row;
pub use steps::Steps;
pub use tracker::{AdmitFault, ROW_LIMIT, Tracker, constants_are_the_limits};
