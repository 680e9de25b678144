// Why a line says nothing.
use std::alloc::AllocError;
use thiserror::Error;

#[derive(Clone, Copy, Debug, PartialEq, Eq, Drop, Error)]
pub enum ContainerFault {
    /// The line is no JSON object with the texts `log`, `stream` and `time`, of which the last is a time.
    #[error("the line is none of Docker")]
    NotDocker,
    /// `at` is the first byte from which the line can't go on, or its length where only more is missing. Where no time
    /// begins the line it is the byte that `time_layout` names, and 0 where what begins it reads as a time but names no
    /// instant.
    #[error("the line is none of a container at byte {at}")]
    NotCri { at: usize },
    #[error("out of memory")]
    Memory,
}

impl From<AllocError> for ContainerFault {
    ghost use Rattle.std.specs.Prelude.{◌≡◌};
    ghost use Rattle.container_parser.specs.declared.fault.ContainerFault.TheVariants.{Memory};

    ghost from_gives = { λ _ fault. fault ≡ Memory };

    fn from(_error: AllocError) -> ContainerFault {
        ContainerFault::Memory
    }
}
