// What an expression was read as.
ghost use Rattle.std.specs.Prelude.{◌≡◌, IfOk};
ghost use Rattle.expr_lang.specs.TreeOf.{tree, tree_of};

use crate::pattern::{Pattern, Searches};
use crate::token::Comparison;
use entry_model::Value;
use field_paths::FieldPath;
use std::alloc::{AllocError, Global};

/// A condition on entries.
#[derive(Drop)]
pub struct Expr {
    /// Never freed, so that searches for its patterns can be kept beside it.
    pub(crate) root: &'static Node,
    pub(crate) searches: Searches,
}

/// A part of an expression. `at` is the place of its operator.
#[derive(Drop)]
pub enum Node {
    Constant(Value),
    Path(FieldPath),
    SeverityNumber,
    SeverityText,
    Not {
        at: usize,
        operand: Box<Node>,
    },
    And {
        at: usize,
        left: Box<Node>,
        right: Box<Node>,
    },
    Or {
        at: usize,
        left: Box<Node>,
        right: Box<Node>,
    },
    Compares {
        at: usize,
        comparison: Comparison,
        left: Box<Node>,
        right: Box<Node>,
    },
    Matches {
        at: usize,
        left: Box<Node>,
        /// Behind a pointer, since it is twenty times as large as any other part.
        pattern: Box<Pattern>,
    },
}

impl Expr {
    pub(crate) fn new(alloc: Global, root: Node) -> Result<Expr, AllocError>
        ensures { IfOk result (λ expr. tree_of expr ≡ tree root) }
    {
        let root: &'static Node = Box::leak(Box::new(alloc, root)?);
        let searches = Searches::new(alloc);
        Ok(Expr { root, searches })
    }
}
