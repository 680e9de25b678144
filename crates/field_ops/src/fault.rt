// Why an operator left an entry as it was.
use field_paths::{SetFault, TakeFault};
use std::alloc::AllocError;
use thiserror::Error;

#[derive(Clone, Copy, Debug, PartialEq, Eq, Drop, Error)]
pub enum FieldFault {
    /// There is no value at the path that is read.
    #[error("there is no such value")]
    Missing,
    /// What is to be flattened is no map, or a value can't be put at the path that is written.
    #[error("a value is no map")]
    NotAMap,
    #[error("out of memory")]
    Memory,
}

impl From<AllocError> for FieldFault {
    ghost use Rattle.std.specs.Prelude.{◌≡◌};
    ghost use Rattle.field_ops.specs.declared.fault.FieldFault.TheVariants.{Memory};

    ghost from_gives = { λ _ fault. fault ≡ Memory };

    fn from(_error: AllocError) -> FieldFault {
        FieldFault::Memory
    }
}

impl From<SetFault> for FieldFault {
    ghost use Rattle.std.specs.Prelude.{◌≡◌};
    ghost use Rattle.field_ops.specs.Faults.{of_set_fault};

    ghost from_gives = { λ given fault. fault ≡ of_set_fault given };

    fn from(given: SetFault) -> FieldFault {
        match given {
            SetFault::NotAMap => FieldFault::NotAMap,
            SetFault::Memory => FieldFault::Memory,
        }
    }
}

impl From<TakeFault> for FieldFault {
    ghost use Rattle.std.specs.Prelude.{◌≡◌};
    ghost use Rattle.field_ops.specs.Faults.{of_take_fault};

    ghost from_gives = { λ given fault. fault ≡ of_take_fault given };

    fn from(given: TakeFault) -> FieldFault {
        match given {
            TakeFault::Missing => FieldFault::Missing,
            TakeFault::Memory => FieldFault::Memory,
        }
    }
}
