//! The lines that container runtimes write on the nodes of a cluster: what they say, to which pod the path of their file belongs,
//! and what becomes of an entry whose body is such a line.
//!
//! The contract for the layer above: [`detect`] tells a line's format (`format_of`). [`read_line`] answers exactly what a line
//! of a format says (`IsLine`), or why it says nothing (`IsLineFault`): a line of Docker is a JSON object after RFC 8259, and
//! one of the Container Runtime Interface is four words, refused at its first byte from which it can't go on. [`pod_of_path`]
//! answers the names that the last three components of a path have, exactly where they have them (`IsPodPath`). [`laws`] says
//! that each of the three has one answer. [`ContainerOp::read`] answers what a body says (`body_read`), and [`told_by`] makes of
//! an entry and its line what `told_by` of `specs/Told` says: the line's text is the body, its time is the entry's, its stream is
//! the attribute `log.iostream`, and the pod that the path of the file tells of is in the resource; [`Pods`] does the same, and
//! keeps what the last path told. These definitions are computed, and laws say that they are what the grammars give.
//!
//! The names of the attributes are those of OpenTelemetry's
//! [semantic conventions](https://opentelemetry.io/docs/specs/semconv/resource/k8s/).
//!
//! The formats are those that the operator `container` of the OpenTelemetry Collector's
//! [`pkg/stanza`](https://github.com/open-telemetry/opentelemetry-collector-contrib/tree/main/pkg/stanza) reads; times in them
//! are those of RFC 3339. How a format is told, and where a fault lies, are this crate's own rules.
#![tactic(auto)]

mod bytes;
mod cri;
mod docker;
mod entry;
mod fault;
mod format;
pub mod laws;
mod line;
mod pod;
mod pods;
mod reading;
mod split;
mod stream;
mod tag;
mod written;

pub use entry::told_by;
pub use fault::ContainerFault;
pub use format::{Format, detect};
pub use line::{ContainerLine, read_line};
pub use pod::{Pod, pod_of_path};
pub use pods::Pods;
pub use reading::ContainerOp;
