// What operators with one output do with an entry.
ghost use Rattle.std.specs.Prelude.{◌≡◌, ◌++◌, IfOk, OnOk, option_map};
ghost use Rattle.entry_model.specs.LogRecord.{log_record};
ghost use Rattle.op_kinds.specs.AnyOpView.{act_of, entries_by, fate_from};
ghost use Rattle.op_kinds.specs.Inner.Applied.{IsApplied, effect};
ghost use Rattle.op_kinds.specs.Operator as operator;
ghost use Rattle.op_kinds.specs.Kept.{Kept, open_groups};
ghost use Rattle.op_kinds.specs.Operator.{done, joined, with_groups, sending, closing, on_one_port, row};

use crate::parsing::Parse;
use crate::row::{RowFault, in_row, stamped};
use crate::types::container_reading::Container;
use crate::types::filtering;
use crate::types::recombining::Join;
use crate::types::syslog_parsing::SyslogOp;
use crate::{OpState, Record, joining};
use entry_model::Entry;
use expr_lang::Expr;
use field_ops::{Add, Copy, Flatten, Move, Remove, Retain};
use std::alloc::{AllocError, Global};
use time_severity::{SeverityOp, TimeOp};

/// What an operator with one output does with an entry.
pub(crate) enum Action {
    Noop,
    /// Lines of containers are read, and their parts joined.
    Container(Container),
    Move(Move),
    Copy(Copy),
    Add(Add),
    Remove(Remove),
    Flatten(Flatten),
    Retain(Retain),
    Parse(Parse),
    Time(TimeOp),
    Severity(SeverityOp),
    Syslog(SyslogOp),
    /// An entry for which the expression is true is dropped.
    Filter(Expr),
    /// Entries are joined.
    Recombine(Join),
}

// By hand, so that what drops one goes by this call, and not by what each kind may hold.
impl Drop for Action {
    fn drop(self) {
        match self {
            Action::Noop => {}
            Action::Container(_container) => {}
            Action::Move(_move) => {}
            Action::Copy(_copy) => {}
            Action::Add(_add) => {}
            Action::Remove(_remove) => {}
            Action::Flatten(_flatten) => {}
            Action::Retain(_retain) => {}
            Action::Parse(_parse) => {}
            Action::Time(_time) => {}
            Action::Severity(_severity) => {}
            Action::Syslog(_syslog) => {}
            Action::Filter(_condition) => {}
            Action::Recombine(_join) => {}
        }
    }
}

/// What becomes of an entry that is changed in place.
#[derive(Clone, Copy, PartialEq, Eq)]
pub(crate) enum Fate {
    Sent,
    Dropped,
    /// It can't be done. The entry is unchanged.
    Faulty,
}

/// What an action came to.
#[derive(Drop)]
pub(crate) enum Applied {
    /// What comes of the entry was put out.
    Done,
    /// It can't be done: here is the entry, unchanged, and so is what the operator keeps.
    Faulty(Record),
}

impl Action {
    /// Whether it holds entries back in groups.
    pub(crate) fn holds_groups(&self) -> bool
        ensures { result ≡ operator.holds_groups (act_of self.now) }
    {
        matches!(self, Action::Container(_) | Action::Recombine(_))
    }

    /// Does it: puts out what comes of the entry on the one port, and changes what is kept.
    #[inline(always)]
    pub(crate) fn apply(
        &self,
        alloc: Global,
        state: &mut OpState,
        item: Record,
        out: &mut Vec<(u16, Record)>,
    ) -> Result<Applied, AllocError>
        ensures { IfOk result (IsApplied (done (act_of self.now) state.old item) item (effect state.old state.new out.old.items out.new.items)) }
    {
        if self.holds_groups() {
            self.apply_joined(alloc, state, item, out)
        } else {
            self.apply_row(alloc, item, out)
        }
    }

    /// Does it with groups.
    fn apply_joined(
        &self,
        alloc: Global,
        state: &mut OpState,
        item: Record,
        out: &mut Vec<(u16, Record)>,
    ) -> Result<Applied, AllocError>
        ensures { IfOk result (IsApplied (option_map with_groups (joined (act_of self.now) (open_groups state.old) item)) item
            (effect state.old state.new out.old.items out.new.items)) }
    {
        match self {
            Action::Container(op) => op.apply(alloc, state, item, out),
            Action::Recombine(op) => op.apply(alloc, state, item, out),
            _ => Ok(Applied::Faulty(item)),
        }
    }

    /// Does it without groups.
    #[inline(always)]
    fn apply_row(
        &self,
        alloc: Global,
        item: Record,
        out: &mut Vec<(u16, Record)>,
    ) -> Result<Applied, AllocError>
        ensures { IfOk result (λ applied. (state : Kept) → IsApplied (option_map (sending state) (row (act_of self.now) item)) item
            (effect state state out.old.items out.new.items) applied) }
    {
        let mut item = item;
        match self.change(alloc, &mut item.entry)? {
            Fate::Sent => {
                out.push((0, item))?;
                Ok(Applied::Done)
            }
            Fate::Dropped => Ok(Applied::Done),
            Fate::Faulty => Ok(Applied::Faulty(item)),
        }
    }

    /// Ends all open groups, and puts out what they make.
    pub(crate) fn close(
        &self,
        alloc: Global,
        state: &mut OpState,
        out: &mut Vec<(u16, Record)>,
    ) -> Result<(), AllocError>
        ensures { OnOk result (out.new.items ≡ out.old.items ++ on_one_port (closing (act_of self.now) state.old)) }
    {
        match self {
            Action::Container(op) => joining::close(alloc, &op.parts, state, out),
            Action::Recombine(op) => joining::close(alloc, &op.recombine, state, out),
            _ => Ok(()),
        }
    }

    // The row of a type without groups, which changes the entry in place.
    #[inline(always)]
    fn change(&self, alloc: Global, entry: &mut Entry) -> Result<Fate, AllocError>
        ensures made { IfOk result (λ fate. entries_by fate (log_record entry.new) ≡ row (act_of self.now) (log_record entry.old)) }
        ensures kept { IfOk result (λ fate. fate ≡ Fate.Faulty → log_record entry.new ≡ log_record entry.old) }
    {
        match self {
            Action::Noop => Ok(Fate::Sent),
            // These are done with groups.
            Action::Container(_) | Action::Recombine(_) => Ok(Fate::Faulty),
            Action::Move(op) => after(in_row(op.apply(alloc, entry))),
            Action::Copy(op) => after(in_row(op.apply(alloc, entry))),
            Action::Add(op) => after(in_row(op.apply(alloc, entry))),
            Action::Remove(op) => after(in_row(op.apply(alloc, entry))),
            Action::Flatten(op) => after(in_row(op.apply(alloc, entry))),
            Action::Retain(op) => after(in_row(op.apply(alloc, entry))),
            Action::Parse(op) => after(op.apply(alloc, entry)),
            Action::Time(op) => after(stamped(op.apply(alloc, entry))),
            Action::Severity(op) => after(stamped(op.apply(alloc, entry))),
            Action::Syslog(op) => after(op.apply(alloc, entry)),
            Action::Filter(expr) => filtering::apply(alloc, expr, entry),
        }
    }
}

fn after(done: Result<(), RowFault>) -> Result<Fate, AllocError>
    ensures { result ≡ fate_from done }
{
    match done {
        Ok(()) => Ok(Fate::Sent),
        Err(RowFault::Faulty) => Ok(Fate::Faulty),
        Err(RowFault::Memory) => Err(AllocError),
    }
}
