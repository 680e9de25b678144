// Why there is no operator.
use expr_lang::ExprReadFault;
use field_paths::PathFault;
use std::alloc::{AllocError, AllocFailed};
use text_parsers::RegexFault;
use thiserror::Error;
use time_layout::LayoutFault;

/// Why the settings of an operator make none. Of several causes the one that stands first here counts, and of those alike the
/// one of the text whose key stands first. `at` is a place in that text, in bytes.
#[derive(Clone, Copy, Debug, PartialEq, Eq, Drop, Error)]
pub enum OpCause {
    /// A field path can't be read from this byte on, or one that is to be flattened ends there without a member.
    #[error("a field path can't be read at byte {at}")]
    Path { at: usize },
    /// An expression can't be read from this byte on.
    #[error("an expression can't be read at byte {at}")]
    Expr { at: usize },
    /// A text is no pattern, or nests too deep for one.
    #[error("a pattern can't be read")]
    Pattern,
    /// A layout of times can't be read from this byte on. It is 0 where the text is no name of what a count counts.
    #[error("a layout can't be read at byte {at}")]
    Layout { at: usize },
    /// No group of a pattern has a name.
    #[error("no group of a pattern has a name")]
    NoNames,
    #[error("out of memory")]
    Memory,
}

impl OpCause {
    ghost use Rattle.std.specs.Prelude.{◌≡◌};
    ghost use Rattle.op_kinds.specs.Readings as readings;

    /// The place in the order of causes. Where memory ran out nothing is known of the others, so this stands first.
    fn number(self) -> u8
        ensures { result ≡ readings.number self }
    {
        match self {
            OpCause::Memory => 0,
            OpCause::Path { .. } => 1,
            OpCause::Expr { .. } => 2,
            OpCause::Pattern => 3,
            OpCause::Layout { .. } => 4,
            OpCause::NoNames => 5,
        }
    }

    /// The one of two causes that counts, where this one's text stands first.
    pub(crate) fn or_less(self, other: OpCause) -> OpCause
        ensures { result ≡ readings.least_of self other }
    {
        if other.number() < self.number() {
            other
        } else {
            self
        }
    }
}

impl From<AllocError> for OpCause {
    ghost use Rattle.std.specs.Prelude.{◌≡◌};
    ghost use Rattle.op_kinds.specs.declared.cause.OpCause.TheVariants.{Memory};

    ghost from_gives = { λ _ cause. cause ≡ Memory };

    fn from(_error: AllocError) -> OpCause {
        OpCause::Memory
    }
}

impl<T: Drop> From<AllocFailed<T>> for OpCause {
    ghost use Rattle.std.specs.Prelude.{◌≡◌};
    ghost use Rattle.op_kinds.specs.declared.cause.OpCause.TheVariants.{Memory};

    ghost from_gives = { λ _ cause. cause ≡ Memory };

    fn from(_error: AllocFailed<T>) -> OpCause {
        OpCause::Memory
    }
}

impl From<PathFault> for OpCause {
    ghost use Rattle.std.specs.Prelude.{◌≡◌};
    ghost use Rattle.op_kinds.specs.Causes.{of_path_fault};

    ghost from_gives = { λ fault cause. cause ≡ of_path_fault fault };

    fn from(fault: PathFault) -> OpCause {
        match fault {
            PathFault::NotAPath { at } => OpCause::Path { at },
            PathFault::Memory => OpCause::Memory,
        }
    }
}

impl From<ExprReadFault> for OpCause {
    ghost use Rattle.std.specs.Prelude.{◌≡◌};
    ghost use Rattle.op_kinds.specs.Causes.{of_read_fault};

    ghost from_gives = { λ fault cause. cause ≡ of_read_fault fault };

    fn from(fault: ExprReadFault) -> OpCause {
        match fault {
            ExprReadFault::Syntax { at } | ExprReadFault::Pattern { at } => OpCause::Expr { at },
            ExprReadFault::Memory => OpCause::Memory,
        }
    }
}

impl From<RegexFault> for OpCause {
    ghost use Rattle.std.specs.Prelude.{◌≡◌};
    ghost use Rattle.op_kinds.specs.Causes.{of_regex_fault};

    ghost from_gives = { λ fault cause. cause ≡ of_regex_fault fault };

    fn from(fault: RegexFault) -> OpCause {
        match fault {
            RegexFault::Refused => OpCause::Pattern,
            RegexFault::NoNames => OpCause::NoNames,
            RegexFault::Memory => OpCause::Memory,
        }
    }
}

impl From<LayoutFault> for OpCause {
    ghost use Rattle.std.specs.Prelude.{◌≡◌};
    ghost use Rattle.op_kinds.specs.Causes.{of_layout_fault};

    ghost from_gives = { λ fault cause. cause ≡ of_layout_fault fault };

    fn from(fault: LayoutFault) -> OpCause {
        match fault {
            LayoutFault::Directive { at } => OpCause::Layout { at },
            LayoutFault::Memory => OpCause::Memory,
        }
    }
}
