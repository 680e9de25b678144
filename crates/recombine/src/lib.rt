//! Joins entries of one source into one: lines of a container that come in parts, or any entries that belong together.
//!
//! The contract for the layer above: [`Recombine::step`] makes of the open groups and an entry what `recombined` of
//! `specs/Recombined` says, a function of both: the groups from then on with the entries that are sent on, or why the entry
//! is not taken; then it comes back, and the groups stay. [`Recombine::close`] sends all open groups on. [`laws`] says in
//! other words what the four steps of `specs/Steps` come to over a whole list of entries: what is alive at a position, and
//! what is sent on there, as `specs/Positions` and `specs/ByPosition` have it. Groups have one spelling as bytes, which
//! [`save`] appends and [`restore`] reads.
//!
//! It is modelled on the operator `recombine` of the OpenTelemetry Collector's
//! [`pkg/stanza`](https://github.com/open-telemetry/opentelemetry-collector-contrib/tree/main/pkg/stanza). The bounds, and the
//! order in which groups are ended, are this product's own.
#![tactic(auto)]

ghost use Rattle.std.specs.Prelude.{◌≡◌};
ghost use Rattle.recombine.specs.Limits.{batch_limit, byte_limit, group_limit};

mod fault;
mod group;
mod groups;
mod joining;
pub mod laws;
mod saving;
mod stepping;

pub use fault::StepFault;
pub use groups::Groups;
pub use joining::Recombine;
pub use saving::{restore, save};

/// The most groups that are open at a time.
pub const GROUP_LIMIT: usize = 1_000;

/// The most bytes that the texts of the open groups have together.
pub const BYTE_LIMIT: usize = 1_048_576;

/// The most entries that a group may be asked to have.
pub const BATCH_LIMIT: u32 = 1_000_000;

/// The constants are the limits that the definitions have.
pub fn constants_are_the_limits()
    ensures groups { GROUP_LIMIT ≡ group_limit }
    ensures bytes { BYTE_LIMIT ≡ byte_limit }
    ensures batch { BATCH_LIMIT ≡ batch_limit }
{}
