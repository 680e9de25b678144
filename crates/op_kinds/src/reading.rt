// The texts in the settings of an operator that are to be read.
ghost use Rattle.std.specs.Prelude.{◌≡◌, [], ◌∷◌, IfOk, IfErr, option_map};
ghost use Rattle.expr_lang.specs.Grammar.{IsExpression};
ghost use Rattle.expr_lang.specs.TreeOf.{tree_of};
ghost use Rattle.field_paths.specs.PathText.{IsPathText};
ghost use Rattle.op_kinds.specs.Compiled.{IsCondition};
ghost use Rattle.op_kinds.specs.Readings as readings;
ghost use Rattle.op_kinds.specs.Readings.{Caused, condition_readings};

use crate::OpCause;
use entry_model::Text;
use expr_lang::Expr;
use field_paths::FieldPath;
use std::alloc::Global;

pub(crate) fn path(alloc: Global, text: &Text) -> Result<FieldPath, OpCause>
    ensures ok { IfOk result (IsPathText text.now) }
    ensures cause { IfErr result (Caused (readings.path text.now ∷ [])) }
{
    Ok(FieldPath::read(alloc, text.as_str())?)
}

pub(crate) fn two_paths(
    alloc: Global,
    from: &Text,
    to: &Text,
) -> Result<(FieldPath, FieldPath), OpCause>
    ensures ok { IfOk result (λ paths. IsPathText from.now paths.0 × IsPathText to.now paths.1) }
    ensures cause { IfErr result (Caused (readings.path from.now ∷ readings.path to.now ∷ [])) }
{
    let first = path(alloc, from)?;
    let second = path(alloc, to)?;
    Ok((first, second))
}

pub(crate) fn expression(alloc: Global, text: &Text) -> Result<Expr, OpCause>
    ensures ok { IfOk result (λ expr. IsExpression text.now (tree_of expr)) }
    ensures cause { IfErr result (Caused (readings.expression text.now ∷ [])) }
{
    Ok(Expr::read(alloc, text.as_str())?)
}

/// What both answer, or of their causes the one that counts.
pub(crate) fn both<A: Drop, B: Drop>(
    one: Result<A, OpCause>,
    other: Result<B, OpCause>,
) -> Result<(A, B), OpCause>
    ensures { result ≡ readings.both one other }
{
    match one {
        Ok(first) => match other {
            Ok(second) => Ok((first, second)),
            Err(cause) => Err(cause),
        },
        Err(cause) => match other {
            Ok(_second) => Err(cause),
            Err(another) => Err(cause.or_less(another)),
        },
    }
}

pub(crate) fn condition(alloc: Global, text: &Option<Text>) -> Result<Option<Expr>, OpCause>
    ensures ok { IfOk result (λ condition. IsCondition text.now (option_map tree_of condition)) }
    ensures cause { IfErr result (Caused (condition_readings text.now)) }
{
    match text {
        Some(text) => Ok(Some(expression(alloc, text)?)),
        None => Ok(None),
    }
}
