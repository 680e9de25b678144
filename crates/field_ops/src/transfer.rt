// Operators from one field to another.
ghost use Rattle.std.specs.Prelude.{◌≡◌, ◌≢◌, OnOk, OnErr, IfErr, Ok, Err};
ghost use Rattle.entry_model.specs.LogRecord.{log_record};
ghost use Rattle.field_ops.specs.Rows.{moved, copied};
ghost use Rattle.field_ops.specs.declared.fault.FieldFault.TheVariants.{Memory};
ghost use Rattle.field_paths.specs.AreApart.{AreApart};

use crate::FieldFault;
use entry_model::Entry;
use field_paths::{FieldPath, Relation};
use std::alloc::Global;

/// Takes the value of one field and puts it at another.
#[derive(Drop)]
pub struct Move {
    from: FieldPath,
    to: FieldPath,
}

impl Move {
    pub fn new(from: FieldPath, to: FieldPath) -> Move
        ensures { result ≡ record { from = from; to = to } }
    {
        Move { from, to }
    }

    /// `Missing` exactly where there is no value at `from`, and `NotAMap` exactly where the value can't be put at
    /// `to` once it is taken. The entry is changed as a whole or not at all.
    pub fn apply(&self, alloc: Global, entry: &mut Entry) -> Result<(), FieldFault>
        ensures ok { OnOk result (moved self.now.from self.now.to (log_record entry.old) ≡ Ok (log_record entry.new)) }
        ensures fault { IfErr result (λ fault. fault ≢ Memory
            → moved self.now.from self.now.to (log_record entry.old) ≡ Err fault) }
        ensures err { OnErr result (log_record entry.new ≡ log_record entry.old) }
    {
        match self.from.stands_to(&self.to) {
            Relation::Apart => self.put_first(alloc, entry),
            // What is put above a place replaces all that is there, so nothing is left to be taken.
            Relation::Below => put_copy(alloc, &self.from, &self.to, entry),
            Relation::AtOrAbove => self.take_first(alloc, entry),
        }
    }

    /// What is put isn't in the way of what is taken from a place apart. So the value is put first: where that fails, the
    /// entry is as it was.
    fn put_first(&self, alloc: Global, entry: &mut Entry) -> Result<(), FieldFault>
        requires { AreApart self.now.from self.now.to }
        ensures ok { OnOk result (moved self.now.from self.now.to (log_record entry.old) ≡ Ok (log_record entry.new)) }
        ensures fault { IfErr result (λ fault. fault ≢ Memory
            → moved self.now.from self.now.to (log_record entry.old) ≡ Err fault) }
        ensures err { OnErr result (log_record entry.new ≡ log_record entry.old) }
    {
        let Some(value) = self.from.find(entry) else {
            return Err(FieldFault::Missing);
        };
        let copy = value.copy(alloc)?;
        self.to.set(alloc, entry, copy)?;
        let _taken = self.from.take(alloc, entry)?;
        Ok(())
    }

    /// What is taken is in the way of what is put at its own place or below. So an entry apart is changed, which takes the
    /// place of this one in the end.
    fn take_first(&self, alloc: Global, entry: &mut Entry) -> Result<(), FieldFault>
        ensures ok { OnOk result (moved self.now.from self.now.to (log_record entry.old) ≡ Ok (log_record entry.new)) }
        ensures fault { IfErr result (λ fault. fault ≢ Memory
            → moved self.now.from self.now.to (log_record entry.old) ≡ Err fault) }
        ensures err { OnErr result (log_record entry.new ≡ log_record entry.old) }
    {
        let mut changed = entry.copy(alloc)?;
        let value = self.from.take(alloc, &mut changed)?;
        self.to.set(alloc, &mut changed, value)?;
        *entry = changed;
        Ok(())
    }
}

/// Puts a copy of the value of one field at another.
#[derive(Drop)]
pub struct Copy {
    from: FieldPath,
    to: FieldPath,
}

impl Copy {
    pub fn new(from: FieldPath, to: FieldPath) -> Copy
        ensures { result ≡ record { from = from; to = to } }
    {
        Copy { from, to }
    }

    /// `Missing` exactly where there is no value at `from`, and `NotAMap` exactly where it can't be put at `to`.
    pub fn apply(&self, alloc: Global, entry: &mut Entry) -> Result<(), FieldFault>
        ensures ok { OnOk result (copied self.now.from self.now.to (log_record entry.old) ≡ Ok (log_record entry.new)) }
        ensures fault { IfErr result (λ fault. fault ≢ Memory
            → copied self.now.from self.now.to (log_record entry.old) ≡ Err fault) }
        ensures err { OnErr result (log_record entry.new ≡ log_record entry.old) }
    {
        put_copy(alloc, &self.from, &self.to, entry)
    }
}

fn put_copy(
    alloc: Global,
    from: &FieldPath,
    to: &FieldPath,
    entry: &mut Entry,
) -> Result<(), FieldFault>
    ensures ok { OnOk result (copied from.now to.now (log_record entry.old) ≡ Ok (log_record entry.new)) }
    ensures fault { IfErr result (λ fault. fault ≢ Memory → copied from.now to.now (log_record entry.old) ≡ Err fault) }
    ensures err { OnErr result (log_record entry.new ≡ log_record entry.old) }
{
    let Some(value) = from.get(entry) else {
        return Err(FieldFault::Missing);
    };
    let copy = value.copy(alloc)?;
    to.set(alloc, entry, copy)?;
    Ok(())
}
