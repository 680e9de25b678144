//! What a checkpoint and its output stand for in a history of log files, and what a poll makes of them: the
//! definitions that all promises on polls are made in, and the laws that carry those promises from poll to poll.
//! There is no code here.
//!
//! Whatever other processes append, create, rename or remove, an image that stands (`Standing`) has in its output, for
//! each file that was read, the first of the lines that the settings make of that file's bytes, each once and in order,
//! and no other line. The settings enter as one record of functions, `Rules`, with the laws that they keep
//! (`AreRules`). A poll is a relation (`Pass`) between the checkpoints before and after it, its looks at files and
//! the lines that it adds; it says nothing of what the rows stand for.
//!
//! The one contract for the layers above: what stands lasts while the history goes on
//! ([`laws::standing_lasts`]), and a poll keeps it, where files can be told apart by their first bytes
//! ([`laws::a_pass_keeps_standing`]). So whoever makes a poll has to show no more than that it is a `Pass`.
#![tactic(auto)]

pub mod examples;
pub mod laws;
pub mod looks;
pub mod refusals;
