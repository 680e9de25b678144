// What parsers do with an entry.
ghost use Rattle.std.specs.Prelude.{◌≡◌, ◌≢◌, IfOk, IfErr, OnOk, OnErr, None, Some};
ghost use Rattle.entry_model.specs.LogRecord.{log_record};
ghost use Rattle.field_paths.specs.MapOf.{members_seen};
ghost use Rattle.field_paths.specs.ValueAt.{datum_at};
ghost use Rattle.op_kinds.specs.ParserView.{parsing_of, reader_of};
ghost use Rattle.op_kinds.specs.Parsing.{parsed, said_at, with_said};
ghost use Rattle.op_kinds.specs.declared.row.RowFault.TheVariants.{Memory};

use crate::parser::Parser;
use crate::row::{RowFault, in_row, stamped};
use entry_model::{Entry, Fields};
use field_ops::put_members;
use field_paths::FieldPath;
use std::alloc::Global;
use time_severity::{SeverityOp, TimeOp};

/// Where a parser reads and writes, and what it stamps entries with.
pub(crate) struct Keys {
    pub(crate) from: FieldPath,
    pub(crate) to: FieldPath,
    pub(crate) timestamp: Option<TimeOp>,
    pub(crate) severity: Option<SeverityOp>,
}

impl Drop for Keys {
    fn drop(self) {
        let Keys {
            from: _from,
            to: _to,
            timestamp: _timestamp,
            severity: _severity,
        } = self;
    }
}

/// Puts the members that a value says into an entry, and stamps it.
pub(crate) struct Parse {
    pub(crate) parser: Parser,
    pub(crate) keys: Keys,
}

impl Drop for Parse {
    fn drop(self) {
        let Parse {
            parser: _parser,
            keys: _keys,
        } = self;
    }
}

impl Parse {
    /// All of it, or nothing: on any fault the entry is unchanged.
    pub(crate) fn apply(&self, alloc: Global, entry: &mut Entry) -> Result<(), RowFault>
        ensures ok { OnOk result (parsed (parsing_of self.now) (log_record entry.old) ≡ Some (log_record entry.new)) }
        ensures fault { IfErr result (λ fault. fault ≢ Memory → parsed (parsing_of self.now) (log_record entry.old) ≡ None) }
        ensures err { OnErr result (log_record entry.new ≡ log_record entry.old) }
    {
        if self.keys.stamp_nothing() {
            return self.put_said(alloc, entry);
        }
        self.put_and_stamp(alloc, entry)
    }

    /// Works on a copy, which takes the place of the entry at the end.
    fn put_and_stamp(&self, alloc: Global, entry: &mut Entry) -> Result<(), RowFault>
        ensures ok { OnOk result (parsed (parsing_of self.now) (log_record entry.old) ≡ Some (log_record entry.new)) }
        ensures fault { IfErr result (λ fault. fault ≢ Memory → parsed (parsing_of self.now) (log_record entry.old) ≡ None) }
        ensures err { OnErr result (log_record entry.new ≡ log_record entry.old) }
    {
        let mut changed = entry.copy(alloc)?;
        self.put_said(alloc, &mut changed)?;
        self.keys.stamp(alloc, &mut changed)?;
        *entry = changed;
        Ok(())
    }

    /// Puts in the members that the value says.
    #[tactic(auto, unfolding(crate::specs::Parsing::with_said))]
    fn put_said(&self, alloc: Global, entry: &mut Entry) -> Result<(), RowFault>
        ensures ok { OnOk result (with_said (parsing_of self.now) (log_record entry.old) ≡ Some (log_record entry.new)) }
        ensures fault { IfErr result (λ fault. fault ≢ Memory → with_said (parsing_of self.now) (log_record entry.old) ≡ None) }
        ensures err { OnErr result (log_record entry.new ≡ log_record entry.old) }
    {
        match self.said(alloc, entry) {
            Ok(members) => in_row(put_members(alloc, &self.keys.to, members, entry)),
            Err(fault) => Err(fault),
        }
    }

    fn said(&self, alloc: Global, entry: &Entry) -> Result<Fields, RowFault>
        ensures ok { IfOk result (λ members. said_at (reader_of self.now.parser) (datum_at self.now.keys.from (log_record entry.now)) ≡ Some (members_seen members.entries)) }
        ensures fault { IfErr result (λ fault. fault ≢ Memory → said_at (reader_of self.now.parser) (datum_at self.now.keys.from (log_record entry.now)) ≡ None) }
    {
        match self.keys.from.get(entry) {
            Some(value) => self.parser.members(alloc, value),
            None => Err(RowFault::Faulty),
        }
    }
}

impl Keys {
    ghost use Rattle.std.specs.Prelude.{◌≡◌, ◌≢◌, IfErr, IsTrue, OnOk, None, Some, option_map};
    ghost use Rattle.entry_model.specs.LogRecord.{LogRecord, log_record};
    ghost use Rattle.op_kinds.specs.ParserView.{stamp_of};
    ghost use Rattle.op_kinds.specs.Parsing.{stamped};
    ghost use Rattle.op_kinds.specs.declared.row.RowFault.TheVariants.{Memory};

    #[tactic(auto, unfolding(crate::specs::Parsing::stamped))]
    fn stamp_nothing(&self) -> bool
        ensures { IsTrue result → (entry : LogRecord) → stamped (option_map stamp_of self.now.timestamp) self.now.severity entry ≡ Some entry }
    {
        self.timestamp.is_none() && self.severity.is_none()
    }

    /// Stamps the entry with its time, and then with its severity.
    #[tactic(auto, unfolding(crate::specs::Parsing::stamped))]
    fn stamp(&self, alloc: Global, entry: &mut Entry) -> Result<(), RowFault>
        ensures ok { OnOk result (stamped (option_map stamp_of self.now.timestamp) self.now.severity (log_record entry.old) ≡ Some (log_record entry.new)) }
        ensures fault { IfErr result (λ fault. fault ≢ Memory → stamped (option_map stamp_of self.now.timestamp) self.now.severity (log_record entry.old) ≡ None) }
    {
        if let Some(op) = &self.timestamp {
            stamped(op.apply(alloc, entry))?;
        }
        if let Some(op) = &self.severity {
            stamped(op.apply(alloc, entry))?;
        }
        Ok(())
    }
}
