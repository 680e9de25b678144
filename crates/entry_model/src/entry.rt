// One entry: what the agent makes of one token of a log file.
ghost use Rattle.entry_model.specs.Datum.{is_map};
ghost use Rattle.std.specs.Prelude.{IsTrue, ◌≤◌};

use crate::{Fields, Text, Value};
use std::alloc::{AllocError, Global};

/// A severity number of the data model: 1 to 24, or 0 where none is known.
#[derive(Clone, Copy, Debug, PartialEq, Eq)]
pub struct Severity {
    pub number: u8,
    pub ghost in_range: { number ≤ 24 },
}

/// A log record that has not been written yet.
#[derive(PartialEq, Drop)]
pub struct Entry {
    pub body: Value,
    /// Always a [`Value::Map`].
    pub attributes: Value,
    /// Always a [`Value::Map`].
    pub resource: Value,
    /// In nanoseconds since 1970-01-01T00:00:00Z, where the record has a time.
    pub timestamp: Option<u64>,
    pub severity: Severity,
    /// The name that the source gave the severity. Empty where it gave none.
    pub severity_text: Text,
    pub ghost attributes_are_a_map: { IsTrue (is_map attributes) },
    pub ghost resource_is_a_map: { IsTrue (is_map resource) },
}

impl Entry {
    ghost use Rattle.std.specs.Prelude.{◌≡◌, IfOk};
    ghost use Rattle.entry_model.specs.LogRecord.{log_record, of_text};

    /// An entry with this body, and nothing else.
    pub fn new(alloc: Global, body: Text) -> Result<Entry, AllocError>
        ensures { IfOk result (λ entry. log_record entry ≡ of_text body) }
    {
        Ok(Entry {
            body: Value::Text(body),
            attributes: Value::Map(Fields::new(alloc)),
            resource: Value::Map(Fields::new(alloc)),
            timestamp: None,
            severity: Severity { number: 0 },
            severity_text: Text::empty(),
        })
    }
}
