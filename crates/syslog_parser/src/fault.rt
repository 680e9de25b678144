// Why a text is no message.
use std::alloc::AllocError;
use thiserror::Error;

/// The part of a text, from the left, that is the first that can't be read.
#[derive(Clone, Copy, Debug, PartialEq, Eq, Drop, Error)]
pub enum SyslogFault {
    /// The text doesn't begin with a number from 0 to 191 of one to three digits between `<` and `>`.
    #[error("no priority")]
    Pri,
    /// No version 1 with a space stands behind the priority.
    #[error("no version 1")]
    Version,
    /// No time with a space stands there, or one that the calendar doesn't have, or whose instant doesn't fit 64 bits.
    #[error("no time")]
    Time,
    /// `at` is the first byte from which the text can't go on in its host and what names the sender, or the text's
    /// length where only more is missing.
    #[error("the header can't be read at byte {at}")]
    Header { at: usize },
    /// `at` is the first byte from which the text can't go on in its structured data or behind them, or the text's
    /// length where only more is missing.
    #[error("the structured data can't be read at byte {at}")]
    Structured { at: usize },
    #[error("out of memory")]
    Memory,
}

impl From<AllocError> for SyslogFault {
    ghost use Rattle.std.specs.Prelude.{◌≡◌};
    ghost use Rattle.syslog_parser.specs.declared.fault.SyslogFault.TheVariants.{Memory};

    ghost from_gives = { λ _ fault. fault ≡ Memory };

    fn from(_error: AllocError) -> SyslogFault {
        SyslogFault::Memory
    }
}

/// Why a part of the reader stops.
#[derive(Clone, Copy, Drop)]
pub(crate) enum Stop {
    /// So many bytes are left from the fault on: of the whole text as many as of what one part is given.
    At { left: usize },
    Memory,
}

impl From<AllocError> for Stop {
    ghost use Rattle.std.specs.Prelude.{◌≡◌};
    ghost use Rattle.syslog_parser.specs.declared.fault.Stop.TheVariants.{Memory};

    ghost from_gives = { λ _ stop. stop ≡ Memory };

    fn from(_error: AllocError) -> Stop {
        Stop::Memory
    }
}
