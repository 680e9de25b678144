//! Times out of texts: `strptime` layouts, layouts of Go's, RFC 3339, and counts since 1970.
//!
//! The contract for the layer above: a [`Layout`] is seen as its parts and its location. [`Layout::read`] answers the
//! parts that a text of directives spells (`layout_parts`), or the first place that is wrong, and [`Layout::read_go`]
//! those that a text spells in which Go's reference time stands (`go_parts`). [`Layout::instant`] reads a text part by
//! part (`layout_read`): what the parts say is a day of the calendar, a time of day and a distance from UTC, and the
//! instant is the number of nanoseconds from 1970-01-01T00:00:00Z up to it (`nanos_of`). A text that doesn't fit is
//! refused at its first place that can't be read. [`rfc3339`] is one such layout, and [`EpochKind`] reads counts of
//! seconds or of parts of one. [`read_parts`] and [`instant_of`] are for texts of which a time is one part among others.
//! [`laws`] says in other words what `layout_parts`, `go_parts` and `layout_read` are: the texts that are read are those
//! made of the texts of the parts, what is printed reads back, and a text that is refused can't go on at that place, where
//! the bytes before it begin a text of the layout, but for a few layouts.
//!
//! Directives are those of POSIX `strptime` and of the OpenTelemetry Collector's time parser, and Go's names those of its
//! package `time`. The calendar is that of the crate `jiff`. Seconds are POSIX's: each day has 86,400, and there is no
//! second 60.
#![tactic(auto)]

mod atoms;
mod calendar;
mod directives;
mod epoch;
mod fault;
mod go_layouts;
mod iso;
pub mod laws;
mod layout;
mod names;
mod parts;

pub use atoms::Reading;
pub use calendar::instant_of;
pub use epoch::EpochKind;
pub use fault::{LayoutFault, TimeFault};
pub use iso::rfc3339;
pub use layout::Layout;
pub use parts::{Clock, Colon, Part, Said, read_parts};
