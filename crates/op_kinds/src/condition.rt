// What expressions decide.
ghost use Rattle.std.specs.Prelude.{◌≡◌, IfOk};
ghost use Rattle.entry_model.specs.LogRecord.{log_record};
ghost use Rattle.expr_lang.specs.TreeOf.{tree_of};
ghost use Rattle.op_kinds.specs.Operator as operator;

use entry_model::Entry;
use expr_lang::{Answer, Expr, ExprFault};
use std::alloc::{AllocError, Global};

/// Whether an expression is true for an entry. None where it has a fault.
pub(crate) fn holds(alloc: Global, expr: &Expr, entry: &Entry) -> Result<Option<bool>, AllocError>
    ensures { IfOk result (λ truth. truth ≡ operator.holds (tree_of expr.now) (log_record entry.now)) }
{
    match expr.eval(alloc, entry) {
        Ok(Answer::True) => Ok(Some(true)),
        Ok(Answer::False | Answer::Other) => Ok(Some(false)),
        Err(ExprFault::WrongKind { .. }) => Ok(None),
        Err(ExprFault::Memory) => Err(AllocError),
    }
}
