//! Sessions: what the agent remembers between two polls of its files, and the disk that it stands on.
//!
//! **The contract for the layer above.** A session stands on a disk (`StandsOn` of `specs/StandsOn`) where a crash leaves
//! one image alone, whose checkpoint is the session's and whose output is exactly as long as what is kept of it.
//! [`Session::open`] answers such a session, of the checkpoint that the disk has, or the one refusal of its settings or of
//! what stands on the disk (`IsSettingsRefusal`, `IsRefused` of `specs/OpenFaults`). Whatever it answers, at each moment a
//! crash leaves an image from before that has lost at most what stands behind the journal and behind what is kept of the
//! output (`Reopens` of `specs/Reopens`); so it keeps what the image stood for ([`laws`]).
//!
//! [`Session::poll`] goes on from there. On Ok the next session stands on the disk, and what became of the rows and of the
//! output is a pass of `standing` over a tree that tells its history (`Polled` of `specs/Polled`). Whatever it answers, at
//! each moment a crash leaves the session's checkpoint, or that of the pass beside its lines (`Stays`, `MayGain`), also where what
//! waits is flushed; so where nothing is ever flushed, what stood for the files before stands for them afterwards
//! (`KeepsStandingSince` of `specs/Since`).
//!
//! [`Session::adopt`] has the settings of a text follow those that a disk keeps. On Ok they are in force, each file that is known
//! has one part more, and the lines of what the operators before held back stand behind the output (`IsAdopted` of
//! `specs/Adopting`); or it is the one refusal of the settings (`IsNextRefusal`) or of what stands on the disk (`IsUnadopted` of
//! `specs/AdoptFaults`). Whatever it answers, at each moment a crash leaves what stood, or what is adopted beside its lines
//! (`MayAdopt`); so what stood for the files before stands for them afterwards.
#![tactic(auto)]

mod adopt_fault;
mod adopted;
mod adopting;
mod adoption;
mod cutting;
mod fault;
mod heading;
pub mod laws;
mod making;
mod opening;
mod poll_fault;
mod polling;
mod saving;
mod session;
mod summary;
mod unmade;

pub use adopt_fault::AdoptFault;
pub use adopted::Adopted;
pub use fault::OpenFault;
pub use opening::pipeline_of;
pub use poll_fault::PollFault;
pub use session::Session;
pub use summary::Summary;
