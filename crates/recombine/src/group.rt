// A group of entries, and an entry that comes to it.
use entry_model::{Entry, Text};

/// Entries of one source, joined so far.
#[derive(Drop)]
pub(crate) struct OpenGroup {
    pub(crate) source: Text,
    /// How many entries were joined, at least one.
    pub(crate) entries: u32,
    /// The joined text, which grows in place.
    pub(crate) text: String,
    /// The entry that goes on with the joined text once the group is ended.
    pub(crate) base: Entry,
}

/// An entry that is joined, with its text at the field.
#[derive(Drop)]
pub(crate) struct Coming {
    pub(crate) source: Text,
    pub(crate) text: Text,
    pub(crate) mark: bool,
    pub(crate) entry: Entry,
}
