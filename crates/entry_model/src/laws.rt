//! What `==` answers, at values and at entries.
ghost use Rattle.std.specs.Prelude.{◌≡◌, ◌↔◌, IsTrue};
ghost use Rattle.entry_model.specs.Datum.{datum};
ghost use Rattle.entry_model.specs.LogRecord.{log_record};
ghost use Rattle.entry_model.specs.contracts.entry.EntryPartialEq.TheImpl.{ghosts as of_entries};
ghost use Rattle.entry_model.specs.contracts.value.ValuePartialEq.TheImpl.{ghosts as of_values};
ghost use Rattle.entry_model.specs.declared.entry.Entry.{Entry};
ghost use Rattle.entry_model.specs.declared.value.Value.{Value};

/// Values are equal exactly where they are one datum, and entries exactly where they are one log record: `eq` is
/// the answer of `==`. After a call of this law a caller of `==` knows it.
pub fn equality_is_of_what_is_seen()
    ensures values { (a b : Value) → IsTrue (of_values.eq a b) ↔ (datum a ≡ datum b) }
    ensures entries { (a b : Entry) → IsTrue (of_entries.eq a b) ↔ (log_record a ≡ log_record b) }
{}
