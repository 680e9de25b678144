// What an operator keeps from one entry to the next.
ghost use Rattle.std.specs.Prelude.{◌≡◌, ◌++◌, OnOk};
ghost use Rattle.op_kinds.specs.Kept as kept;
ghost use Rattle.op_kinds.specs.Kept.{nothing, open_groups, keeps_groups, is_fresh, fresh_kept};
ghost use Rattle.op_kinds.specs.States.{kept_spelling, HasSpelling};

use recombine::{Groups, save};
use std::alloc::{AllocError, Global};
use std::marker::Model;
use std::mem;

#[derive(Drop)]
enum Form {
    Nothing,
    Groups(Groups),
}

/// What an operator keeps from one entry of a file to the next: nothing, or the open groups. Contracts see it as what it
/// holds, so that a state that was restored equals the one that was saved.
#[derive(Drop)]
pub struct OpState {
    form: Form,
}

impl Model for OpState {
    ghost use Rattle.op_kinds.specs.Kept.{Kept, kept_code};

    ghost Value = { Kept };

    ghost coded = { kept_code };

    ghost use Rattle.op_kinds.specs.StateView.{kept_of};

    ghost view = { λ state. kept_of state.form };
}

impl OpState {
    /// The state of an operator that keeps nothing.
    pub fn nothing() -> OpState
        ensures { result ≡ nothing }
    {
        OpState {
            form: Form::Nothing,
        }
    }

    /// The state of an operator that holds these groups.
    pub fn with_groups(opened: Groups) -> OpState
        ensures { result ≡ kept.groups opened }
    {
        OpState {
            form: Form::Groups(opened),
        }
    }

    /// The state before the first entry, of an operator that holds groups or of another.
    pub(crate) fn fresh(alloc: Global, holds_groups: bool) -> OpState
        ensures { result ≡ fresh_kept holds_groups }
    {
        if holds_groups {
            OpState::with_groups(Groups::new(alloc))
        } else {
            OpState::nothing()
        }
    }

    /// Whether it is the state of an operator that holds groups.
    pub fn keeps_groups(&self) -> bool
        ensures { result ≡ keeps_groups self.now }
    {
        match &self.form {
            Form::Nothing => false,
            Form::Groups(_opened) => true,
        }
    }

    /// The open groups, of which none is left.
    pub(crate) fn take_groups(&mut self, alloc: Global) -> Groups
        ensures taken { result ≡ open_groups self.old }
        ensures left { self.new ≡ fresh_kept (keeps_groups self.old) }
    {
        let holds_groups = self.keeps_groups();
        let old = mem::replace(self, OpState::fresh(alloc, holds_groups));
        match old.form {
            Form::Nothing => Groups::new(alloc),
            Form::Groups(opened) => opened,
        }
    }

    /// Holds these groups from now on, where it is the state of an operator that holds some.
    pub(crate) fn put_groups(&mut self, opened: Groups)
        ensures { self.new ≡ kept.with_groups self.old opened }
    {
        if self.keeps_groups() {
            *self = OpState::with_groups(opened);
        }
    }

    /// Appends the bytes that spell it.
    pub(crate) fn save(&self, alloc: Global, out: &mut Vec<u8>) -> Result<(), AllocError>
        ensures ok { OnOk result (out.new.items ≡ out.old.items ++ kept_spelling self.now) }
        ensures lawful { OnOk result (HasSpelling self.now) }
    {
        match &self.form {
            Form::Nothing => Ok(()),
            Form::Groups(opened) => {
                save(alloc, opened, out)?;
                Ok(())
            }
        }
    }
}

/// Whether no group is open in the state.
pub fn is_fresh(state: &OpState) -> bool
    ensures { result ≡ is_fresh state.now }
{
    match &state.form {
        Form::Nothing => true,
        Form::Groups(opened) => opened.is_empty(),
    }
}
