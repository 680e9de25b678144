// Why a pass doesn't come to its end.
use outside::CallFault;
use std::alloc::AllocError;
use thiserror::Error;

#[derive(Clone, Copy, Debug, PartialEq, Eq, Drop, Error)]
pub enum PassFault {
    /// A call on the disk failed, and its count of faults rose.
    #[error("the disk failed")]
    Disk,
    /// With the next line the output would have `length` bytes, which is more than its limit.
    #[error("the output would have {length} bytes")]
    OutputFull { length: u64 },
    #[error("out of memory")]
    Memory,
}

impl From<AllocError> for PassFault {
    ghost use Rattle.std.specs.Prelude.{◌≡◌};
    ghost use Rattle.file_pass.specs.declared.fault.PassFault.TheVariants.{Memory};

    ghost from_gives = { λ _ fault. fault ≡ Memory };

    fn from(_error: AllocError) -> PassFault {
        PassFault::Memory
    }
}

/// For a call on the disk.
impl From<CallFault> for PassFault {
    ghost use Rattle.std.specs.Prelude.{◌≡◌};
    ghost use Rattle.file_pass.specs.PassCause.{pass_fault};

    ghost from_gives = { λ given fault. fault ≡ pass_fault given };

    fn from(given: CallFault) -> PassFault {
        match given {
            CallFault::Failed => PassFault::Disk,
            CallFault::Memory => PassFault::Memory,
        }
    }
}
