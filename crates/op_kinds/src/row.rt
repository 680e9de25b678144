// What rows of different types come to, so that one can follow another.
ghost use Rattle.std.specs.Prelude.{◌≡◌};
ghost use Rattle.op_kinds.specs.Faults as faults;

use field_ops::FieldFault;
use std::alloc::AllocError;
use syslog_parser::SyslogFault;
use text_parsers::ParseFault;
use time_severity::StampFault;

/// Why a row wasn't done on an entry. Rows that follow one another only know that there is a fault.
#[derive(Clone, Copy, PartialEq, Eq, Drop)]
pub(crate) enum RowFault {
    /// It can't be done.
    Faulty,
    Memory,
}

impl From<AllocError> for RowFault {
    ghost use Rattle.std.specs.Prelude.{◌≡◌};
    ghost use Rattle.op_kinds.specs.declared.row.RowFault.TheVariants.{Memory};

    ghost from_gives = { λ _ fault. fault ≡ Memory };

    fn from(_error: AllocError) -> RowFault {
        RowFault::Memory
    }
}

impl From<FieldFault> for RowFault {
    ghost use Rattle.std.specs.Prelude.{◌≡◌};
    ghost use Rattle.op_kinds.specs.Faults.{of_field_fault};

    ghost from_gives = { λ given fault. fault ≡ of_field_fault given };

    fn from(given: FieldFault) -> RowFault {
        match given {
            FieldFault::Missing | FieldFault::NotAMap => RowFault::Faulty,
            FieldFault::Memory => RowFault::Memory,
        }
    }
}

impl From<ParseFault> for RowFault {
    ghost use Rattle.std.specs.Prelude.{◌≡◌};
    ghost use Rattle.op_kinds.specs.Faults.{of_parse_fault};

    ghost from_gives = { λ given fault. fault ≡ of_parse_fault given };

    fn from(given: ParseFault) -> RowFault {
        match given {
            ParseFault::NotText
            | ParseFault::NoMatch
            | ParseFault::Syntax { .. }
            | ParseFault::FieldCount { .. }
            | ParseFault::NoDelimiter { .. } => RowFault::Faulty,
            ParseFault::Memory => RowFault::Memory,
        }
    }
}

impl From<SyslogFault> for RowFault {
    ghost use Rattle.std.specs.Prelude.{◌≡◌};
    ghost use Rattle.op_kinds.specs.Faults.{of_syslog_fault};

    ghost from_gives = { λ given fault. fault ≡ of_syslog_fault given };

    fn from(given: SyslogFault) -> RowFault {
        match given {
            SyslogFault::Pri
            | SyslogFault::Version
            | SyslogFault::Time
            | SyslogFault::Header { .. }
            | SyslogFault::Structured { .. } => RowFault::Faulty,
            SyslogFault::Memory => RowFault::Memory,
        }
    }
}

impl From<StampFault> for RowFault {
    ghost use Rattle.std.specs.Prelude.{◌≡◌};
    ghost use Rattle.op_kinds.specs.Faults.{of_stamp_fault};

    ghost from_gives = { λ given fault. fault ≡ of_stamp_fault given };

    fn from(given: StampFault) -> RowFault {
        match given {
            StampFault::Missing | StampFault::NotTime | StampFault::NotSeverity => RowFault::Faulty,
            StampFault::Memory => RowFault::Memory,
        }
    }
}

pub(crate) fn in_row(applied: Result<(), FieldFault>) -> Result<(), RowFault>
    ensures { result ≡ faults.in_row applied }
{
    match applied {
        Ok(()) => Ok(()),
        Err(fault) => Err(RowFault::from(fault)),
    }
}

/// A row of an operator that stamps entries.
pub(crate) fn stamped(applied: Result<(), StampFault>) -> Result<(), RowFault>
    ensures { result ≡ faults.stamped applied }
{
    match applied {
        Ok(()) => Ok(()),
        Err(fault) => Err(RowFault::from(fault)),
    }
}
