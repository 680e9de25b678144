// Operators on one field.
ghost use Rattle.std.specs.Prelude.{◌≡◌, ◌≢◌, OnOk, OnErr, IfErr, Ok, Err};
ghost use Rattle.entry_model.specs.Datum.{datum};
ghost use Rattle.entry_model.specs.LogRecord.{log_record};
ghost use Rattle.field_ops.specs.Rows.{added, removed};
ghost use Rattle.field_ops.specs.declared.fault.FieldFault.TheVariants.{Memory};

use crate::FieldFault;
use entry_model::{Entry, Value};
use field_paths::FieldPath;
use std::alloc::Global;

/// Puts a value at a field.
#[derive(Drop)]
pub struct Add {
    field: FieldPath,
    value: Value,
}

impl Add {
    pub fn new(field: FieldPath, value: Value) -> Add
        ensures { result ≡ record { field = field; value = value } }
    {
        Add { field, value }
    }

    /// `NotAMap` exactly where the value can't be put there.
    pub fn apply(&self, alloc: Global, entry: &mut Entry) -> Result<(), FieldFault>
        ensures ok { OnOk result (added self.now.field (datum self.now.value) (log_record entry.old)
            ≡ Ok (log_record entry.new)) }
        ensures fault { IfErr result (λ fault. fault ≢ Memory
            → added self.now.field (datum self.now.value) (log_record entry.old) ≡ Err fault) }
        ensures err { OnErr result (log_record entry.new ≡ log_record entry.old) }
    {
        let copy = self.value.copy(alloc)?;
        self.field.set(alloc, entry, copy)?;
        Ok(())
    }
}

/// Takes away the value of a field.
#[derive(Drop)]
pub struct Remove {
    field: FieldPath,
}

impl Remove {
    pub fn new(field: FieldPath) -> Remove
        ensures { result ≡ record { field = field } }
    {
        Remove { field }
    }

    /// `Missing` exactly where there is no value.
    pub fn apply(&self, alloc: Global, entry: &mut Entry) -> Result<(), FieldFault>
        ensures ok { OnOk result (removed self.now.field (log_record entry.old) ≡ Ok (log_record entry.new)) }
        ensures fault { IfErr result (λ fault. fault ≢ Memory → removed self.now.field (log_record entry.old) ≡ Err fault) }
        ensures err { OnErr result (log_record entry.new ≡ log_record entry.old) }
    {
        let _value = self.field.take(alloc, entry)?;
        Ok(())
    }
}
