// The type `filter`.
ghost use Rattle.std.specs.Prelude.{◌≡◌, [], ◌∷◌, IfOk, IfErr};
ghost use Rattle.entry_model.specs.LogRecord.{log_record};
ghost use Rattle.expr_lang.specs.Grammar.{IsExpression};
ghost use Rattle.expr_lang.specs.TreeOf.{tree_of};
ghost use Rattle.op_kinds.specs.AnyOpView.{entries_by};
ghost use Rattle.op_kinds.specs.Operator as operator;
ghost use Rattle.op_kinds.specs.Operator.{filtered};
ghost use Rattle.op_kinds.specs.Readings as readings;
ghost use Rattle.op_kinds.specs.Readings.{Caused};

use crate::OpCause;
use crate::action::Fate;
use crate::condition::holds;
use crate::reading::expression;
use entry_model::{Entry, Text};
use expr_lang::Expr;
use std::alloc::{AllocError, Global};

pub(crate) fn compile(alloc: Global, text: &Text) -> Result<Expr, OpCause>
    ensures ok { IfOk result (λ expr. IsExpression text.now (tree_of expr)) }
    ensures cause { IfErr result (Caused (readings.expression text.now ∷ [])) }
{
    expression(alloc, text)
}

pub(crate) fn apply(alloc: Global, expr: &Expr, entry: &Entry) -> Result<Fate, AllocError>
    ensures { IfOk result (λ fate. entries_by fate (log_record entry.now) ≡ filtered (operator.holds (tree_of expr.now) (log_record entry.now)) (log_record entry.now)) }
{
    Ok(match holds(alloc, expr, entry)? {
        Some(true) => Fate::Dropped,
        Some(false) => Fate::Sent,
        None => Fate::Faulty,
    })
}
