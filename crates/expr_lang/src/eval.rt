// What an expression says of an entry.
ghost use Rattle.std.specs.Prelude.{IfOk, IfErr};
ghost use Rattle.entry_model.specs.LogRecord.{log_record};
ghost use Rattle.expr_lang.specs.EvalOutcome.{Gives, Refuses, answers};
ghost use Rattle.expr_lang.specs.Meaning.{meaning, truth};
ghost use Rattle.expr_lang.specs.OperandOf.{seen_as};
ghost use Rattle.expr_lang.specs.TreeOf.{tree, tree_of};

use crate::kinds::{Operand, compare};
use crate::pattern::Searches;
use crate::tree::{Expr, Node};
use entry_model::Entry;
use std::alloc::{AllocError, Global};
use thiserror::Error;

/// What an expression gives for an entry.
#[derive(Clone, Copy, Debug, PartialEq, Eq)]
pub enum Answer {
    True,
    False,
    /// A value that is no Bool.
    Other,
}

/// Why an expression gives nothing for an entry.
#[derive(Clone, Copy, Debug, PartialEq, Eq, Drop, Error)]
pub enum ExprFault {
    /// The operator at byte `at` of the expression doesn't take values of these kinds.
    #[error("wrong kind of value for the operator at byte {at}")]
    WrongKind { at: usize },
    #[error("out of memory")]
    Memory,
}

impl From<AllocError> for ExprFault {
    ghost use Rattle.std.specs.Prelude.{◌≡◌};
    ghost use Rattle.expr_lang.specs.declared.eval.ExprFault.TheVariants.{Memory};

    ghost from_gives = { λ _ fault. fault ≡ Memory };

    fn from(_error: AllocError) -> ExprFault {
        ExprFault::Memory
    }
}

impl Expr {
    /// What the expression gives for an entry. `and` and `or` don't look at the right side where the left side
    /// decides.
    ///
    /// `WrongKind` exactly where an operator is given values of kinds that it doesn't take: the first such operator,
    /// as the values are made from left to right.
    pub fn eval(&self, alloc: Global, entry: &Entry) -> Result<Answer, ExprFault>
        ensures ok { IfOk result (Gives (answers (tree_of self.now) (log_record entry.now))) }
        ensures fault { IfErr result (Refuses (answers (tree_of self.now) (log_record entry.now))) }
    {
        match value_of(alloc, self.root, entry, &self.searches)? {
            Operand::Bool(true) => Ok(Answer::True),
            Operand::Bool(false) => Ok(Answer::False),
            _ => Ok(Answer::Other),
        }
    }
}

fn value_of<'e>(
    alloc: Global,
    node: &'static Node,
    entry: &'e Entry,
    searches: &Searches,
) -> Result<Operand<'e>, ExprFault>
    ensures ok { IfOk result (λ operand. Gives (meaning (tree node.now) (log_record entry.now)) (seen_as operand)) }
    ensures fault { IfErr result (Refuses (meaning (tree node.now) (log_record entry.now))) }
{
    match node {
        Node::Constant(value) => Ok(Operand::of(value)),
        Node::Path(path) => Ok(match path.get(entry) {
            Some(value) => Operand::of(value),
            None => Operand::Null,
        }),
        Node::SeverityNumber => Ok(Operand::Int(i64::from(entry.severity.number))),
        Node::SeverityText => Ok(Operand::Text(&entry.severity_text)),
        Node::Not { at, operand } => {
            let truth = truth_of(value_of(alloc, operand, entry, searches)?, *at)?;
            Ok(Operand::Bool(!truth))
        }
        Node::And { at, left, right } => {
            if !truth_of(value_of(alloc, left, entry, searches)?, *at)? {
                return Ok(Operand::Bool(false));
            }
            let truth = truth_of(value_of(alloc, right, entry, searches)?, *at)?;
            Ok(Operand::Bool(truth))
        }
        Node::Or { at, left, right } => {
            if truth_of(value_of(alloc, left, entry, searches)?, *at)? {
                return Ok(Operand::Bool(true));
            }
            let truth = truth_of(value_of(alloc, right, entry, searches)?, *at)?;
            Ok(Operand::Bool(truth))
        }
        Node::Compares {
            at,
            comparison,
            left,
            right,
        } => {
            let left = value_of(alloc, left, entry, searches)?;
            let right = value_of(alloc, right, entry, searches)?;
            match compare(*comparison, left, right) {
                Some(truth) => Ok(Operand::Bool(truth)),
                None => Err(ExprFault::WrongKind { at: *at }),
            }
        }
        Node::Matches { at, left, pattern } => {
            let Operand::Text(text) = value_of(alloc, left, entry, searches)? else {
                return Err(ExprFault::WrongKind { at: *at });
            };
            Ok(Operand::Bool(searches.find(alloc, *at, pattern, text.as_str())?))
        }
    }
}

fn truth_of(operand: Operand, at: usize) -> Result<bool, ExprFault>
    ensures ok { IfOk result (Gives (truth at (seen_as operand.entry))) }
    ensures fault { IfErr result (Refuses (truth at (seen_as operand.entry))) }
{
    match operand {
        Operand::Bool(truth) => Ok(truth),
        _ => Err(ExprFault::WrongKind { at }),
    }
}
