// An entry on its way.
use entry_model::Entry;
use std::alloc::{AllocError, Global};
use std::marker::Model;

/// An entry on its way through the operators, in a place of its own: from operator to operator it isn't moved in memory.
/// Contracts see it as its log record.
#[derive(Drop)]
pub struct Record {
    pub(crate) entry: Box<Entry>,
}

impl Model for Record {
    ghost use Rattle.entry_model.specs.Code.{record_code};
    ghost use Rattle.entry_model.specs.LogRecord.{LogRecord, log_record};

    ghost Value = { LogRecord };

    ghost coded = { record_code };

    ghost view = { λ r. log_record r.entry.value };
}

impl Record {
    ghost use Rattle.std.specs.Prelude.{◌≡◌, IfOk};
    ghost use Rattle.entry_model.specs.LogRecord.{log_record};

    pub fn new(alloc: Global, entry: Entry) -> Result<Record, AllocError>
        ensures { IfOk result (λ made. made ≡ log_record entry) }
    {
        Ok(Record {
            entry: Box::new(alloc, entry)?,
        })
    }

    /// Another entry, in the same place.
    pub fn put(&mut self, entry: Entry)
        ensures { self.new ≡ log_record entry }
    {
        *self.entry = entry;
    }

    pub fn entry(&self) -> &Entry
        ensures { log_record result.now ≡ self.now }
    {
        &self.entry
    }

    pub(crate) fn into_entry(self) -> Entry
        ensures { log_record result ≡ self }
    {
        Box::into_inner(self.entry)
    }
}
