// What is kept from entry to entry.
ghost use Rattle.std.specs.Prelude.{◌≡◌, [], IfOk, OnOk};
ghost use Rattle.entry_model.specs.LogRecord.{log_record};

use entry_model::Entry;
use op_kinds::Record;
use std::alloc::{AllocError, Global};

/// The memory in which entries go through the graph, for one entry after another.
#[derive(Drop)]
pub(crate) struct Buffers {
    /// Where memory is had from.
    pub(crate) alloc: Global,
    /// What an operator emits: nothing, between two entries.
    pub(crate) emitted: Vec<(u16, Record)>,
    /// What came out for the last entry.
    pub(crate) made: Vec<Record>,
}

impl Buffers {
    pub(crate) fn new(alloc: Global) -> Buffers
        ensures { result.emitted.items ≡ [] }
    {
        Buffers {
            alloc,
            emitted: Vec::new(alloc),
            made: Vec::new(alloc),
        }
    }

    /// The entry as a record. What came out for the last entry is gone; a place of it is the record's.
    pub(crate) fn next(&mut self, alloc: Global, entry: Entry) -> Result<Record, AllocError>
        ensures item { IfOk result (λ item. item ≡ log_record entry) }
        ensures made { self.new.made.items ≡ [] }
        ensures emitted { self.new.emitted.items ≡ self.old.emitted.items }
    {
        let last = self.made.pop();
        self.made.clear();
        match last {
            Some(mut item) => {
                item.put(entry);
                Ok(item)
            }
            None => Record::new(alloc, entry),
        }
    }
}
