// Operators with one output.
ghost use Rattle.std.specs.Prelude.{◌≡◌, ◌++◌, IfOk, OnOk, option_map};
ghost use Rattle.expr_lang.specs.TreeOf.{tree_of};
ghost use Rattle.op_kinds.specs.AnyOpView.{act_of};
ghost use Rattle.op_kinds.specs.Inner.Applied.{IsApplied, effect};
ghost use Rattle.op_kinds.specs.Operator as operator;
ghost use Rattle.op_kinds.specs.Operator.{on_one_port, or_unchanged};

use crate::action::{Action, Applied};
use crate::condition::holds;
use crate::{OpState, Record};
use expr_lang::Expr;
use std::alloc::{AllocError, Global};

/// An operator with one output, which is done on the entries for which its condition is true.
#[derive(Drop)]
pub(crate) struct Conditional {
    pub(crate) condition: Option<Expr>,
    pub(crate) action: Action,
    pub(crate) drops_faulty: bool,
}

impl Conditional {
    /// Emits what it makes of an entry. Where it can't be done, the entry is sent on unchanged or dropped.
    #[inline(always)]
    pub(crate) fn emit(
        &self,
        alloc: Global,
        state: &mut OpState,
        item: Record,
        out: &mut Vec<(u16, Record)>,
    ) -> Result<(), AllocError>
        ensures state { OnOk result (state.new ≡ (or_unchanged self.now.drops_faulty state.old item
            (operator.made (option_map tree_of self.now.condition) (act_of self.now.action) state.old item)).kept) }
        ensures emits { OnOk result (out.new.items ≡ out.old.items ++ on_one_port (or_unchanged self.now.drops_faulty state.old item
            (operator.made (option_map tree_of self.now.condition) (act_of self.now.action) state.old item)).sent) }
    {
        // Nothing is asked and nothing done.
        if let (None, Action::Noop) = (&self.condition, &self.action) {
            out.push((0, item))?;
            return Ok(());
        }
        match self.apply(alloc, state, item, out)? {
            Applied::Done => Ok(()),
            Applied::Faulty(item) => {
                if !self.drops_faulty {
                    out.push((0, item))?;
                }
                Ok(())
            }
        }
    }

    #[inline(always)]
    fn apply(
        &self,
        alloc: Global,
        state: &mut OpState,
        item: Record,
        out: &mut Vec<(u16, Record)>,
    ) -> Result<Applied, AllocError>
        ensures { IfOk result (IsApplied (operator.made (option_map tree_of self.now.condition) (act_of self.now.action) state.old item)
            item (effect state.old state.new out.old.items out.new.items)) }
    {
        let Some(condition) = &self.condition else {
            return self.action.apply(alloc, state, item, out);
        };
        match holds(alloc, condition, item.entry())? {
            Some(true) => self.action.apply(alloc, state, item, out),
            Some(false) => {
                out.push((0, item))?;
                Ok(Applied::Done)
            }
            None => Ok(Applied::Faulty(item)),
        }
    }
}
