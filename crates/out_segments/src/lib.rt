//! The output in many files: a [`Disk`](outside::Disk) whose output is made of [`Parts`].
//!
//! Part 0, 1, .. joined are the output, up to and with the first Part that has fewer bytes than the size that was set.
//! So no file grows without end.
//!
//! The contract for the layer above is that of `Disk`, in each image that a crash of the Parts may leave, and that no Part
//! becomes longer than a full one.
//!
//! [`MemParts`] are Parts in memory. What reads give of them and what a crash may leave are told by their log: between two
//! syncs of a file each written range, and the part past the old end, may hold any bytes, and a cut leaves the old or the new
//! length. `MemParts::crash` answers one of these images.
#![tactic(auto)]

mod calls;
mod cutting;
mod ending;
mod memory;
mod parts;
mod reading;
mod segmented;
mod since;
mod syncing;
mod writing;

pub use memory::MemParts;
pub use parts::{PartFile, Parts};
pub use segmented::Segmented;
pub use since::{SegmentedSince, Since};
