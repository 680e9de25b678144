// An operator of any type.
ghost use Rattle.std.specs.Prelude.{◌≡◌};
ghost use Rattle.op_kinds.specs.Kept.{fresh_kept};
ghost use Rattle.op_kinds.specs.Operator.{has_groups};

use crate::conditional::Conditional;
use crate::router::Router;
use crate::{OpState, Record};
use graph_core::Step;
use std::alloc::{AllocError, Global};
use std::marker::Model;

/// How many outputs an operator has.
#[derive(Drop)]
pub(crate) enum Form {
    Conditional(Conditional),
    Router(Router),
}

/// An operator of any type.
pub struct AnyOp {
    pub(crate) form: Form,
}

impl Drop for AnyOp {
    fn drop(self) {
        let AnyOp { form: _form } = self;
    }
}

impl Model for AnyOp {
    ghost use Rattle.op_kinds.specs.AnyOpView.{form_of};
    ghost use Rattle.op_kinds.specs.Code.{operator_code};
    ghost use Rattle.op_kinds.specs.Operator.{Operator};

    ghost Value = { Operator };

    ghost coded = { operator_code };

    ghost view = { λ op. form_of op.form };
}

impl AnyOp {
    /// Whether it holds entries back in groups.
    pub fn has_groups(&self) -> bool
        ensures { result ≡ has_groups self.now }
    {
        match &self.form {
            Form::Conditional(op) => op.action.holds_groups(),
            Form::Router(_router) => false,
        }
    }
}

/// What the operator keeps before the first entry: no open groups, or nothing.
pub fn fresh_state(alloc: Global, op: &AnyOp) -> OpState
    ensures { result ≡ fresh_kept (has_groups op.now) }
{
    OpState::fresh(alloc, op.has_groups())
}

impl Step for AnyOp {
    ghost use Rattle.op_kinds.specs.Operator.{behavior_of, port_count};
    ghost use Rattle.op_kinds.specs.Ports.{emits_in_ports, closes_in_ports};

    type Item = Record;

    type State = OpState;

    ghost port_count = { port_count };

    ghost behavior = { behavior_of };

    ghost emits_in_ports = { emits_in_ports };

    ghost closes_in_ports = { closes_in_ports };

    /// One, or for a router one for each route and one more for its default.
    fn ports(&self) -> u16 {
        match &self.form {
            Form::Conditional(_) => 1,
            Form::Router(router) => router.ports(),
        }
    }

    fn start(&self, alloc: Global) -> Result<OpState, AllocError> {
        Ok(fresh_state(alloc, self))
    }

    fn copy(&self, alloc: Global, item: &Record) -> Result<Record, AllocError> {
        Record::new(alloc, item.entry.copy(alloc)?)
    }

    #[inline(always)]
    fn step(
        &self,
        alloc: Global,
        state: &mut OpState,
        item: Record,
        out: &mut Vec<(u16, Record)>,
    ) -> Result<(), AllocError> {
        match &self.form {
            Form::Conditional(op) => op.emit(alloc, state, item, out),
            Form::Router(router) => router.emit(alloc, item, out),
        }
    }

    fn close(
        &self,
        alloc: Global,
        state: &mut OpState,
        out: &mut Vec<(u16, Record)>,
    ) -> Result<(), AllocError> {
        if let Form::Conditional(op) = &self.form {
            op.action.close(alloc, state, out)?;
        }
        *state = fresh_state(alloc, self);
        Ok(())
    }
}
