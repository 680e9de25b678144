// The operator that stamps entries with a time.
ghost use Rattle.std.specs.Prelude.{◌≡◌, IfErr, OnOk, OnErr, Ok, Err};
ghost use Rattle.entry_model.specs.Datum.{datum};
ghost use Rattle.entry_model.specs.LogRecord.{log_record};
ghost use Rattle.time_severity.specs.Times.{time_in, time_of_text, time_of_count, timed};

use crate::StampFault;
use entry_model::{Entry, Value};
use field_paths::FieldPath;
use std::alloc::Global;
use time_layout::{EpochKind, Layout};

/// How values tell times.
#[derive(Drop)]
pub enum TimeKind {
    /// As texts of a layout.
    Layout(Layout),
    /// As counts since 1970, which are numbers or texts.
    Epoch(EpochKind),
}

/// Stamps an entry with the time that one of its values tells.
#[derive(Drop)]
pub struct TimeOp {
    from: FieldPath,
    kind: TimeKind,
}

impl TimeOp {
    pub fn new(from: FieldPath, kind: TimeKind) -> TimeOp
        ensures { result ≡ record { from = from; kind = kind } }
    {
        TimeOp { from, kind }
    }

    /// Sets the entry's time, and nothing else of it. What it needs is there: it takes no memory.
    ///
    /// `Missing` exactly where there is no value, and `NotTime` exactly where the value tells no time.
    pub fn apply(&self, _alloc: Global, entry: &mut Entry) -> Result<(), StampFault>
        ensures ok { OnOk result (timed self.now.from self.now.kind (log_record entry.old) ≡ Ok (log_record entry.new)) }
        ensures fault { IfErr result (λ fault. timed self.now.from self.now.kind (log_record entry.old) ≡ Err fault) }
        ensures err { OnErr result (log_record entry.new ≡ log_record entry.old) }
    {
        let Some(value) = self.from.get(entry) else {
            return Err(StampFault::Missing);
        };
        let Some(instant) = self.kind.instant(value) else {
            return Err(StampFault::NotTime);
        };
        entry.timestamp = Some(instant);
        Ok(())
    }
}

impl TimeKind {
    /// In nanoseconds since 1970-01-01T00:00:00Z.
    fn instant(&self, value: &Value) -> Option<u64>
        ensures { result ≡ time_in self.now (datum value.now) }
    {
        match value {
            Value::Text(text) => self.instant_of_text(text.as_str()),
            Value::Int(count) => self.instant_of_count(*count),
            Value::Null | Value::Bool(_) | Value::List(_) | Value::Map(_) => None,
        }
    }

    #[tactic(auto, using(crate::proofs::Told::layout_told, crate::proofs::Told::epoch_told))]
    fn instant_of_text(&self, text: &str) -> Option<u64>
        ensures { result ≡ time_of_text self.now text.now }
    {
        match self {
            TimeKind::Layout(layout) => layout.instant(text).ok(),
            TimeKind::Epoch(kind) => kind.instant(text).ok(),
        }
    }

    #[tactic(auto, using(crate::proofs::Told::count_told))]
    fn instant_of_count(&self, count: i64) -> Option<u64>
        ensures { result ≡ time_of_count self.now count }
    {
        match self {
            TimeKind::Layout(_) => None,
            TimeKind::Epoch(kind) => kind.instant_of_count(count).ok(),
        }
    }
}
