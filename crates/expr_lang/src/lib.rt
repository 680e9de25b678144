//! Expressions: the conditions on entries that filters, routers and other operators have, as
//! `body contains "err" and attributes.n > 3`.
//!
//! The contract for the layer above: an [`Expr`] is seen as its tree (`tree_of`), and an entry as its `log_record`.
//! [`Expr::read`] answers the one tree that a text spells, by a grammar of words (`IsExpression`); each other text has one
//! fault (`IsReadFault`, `laws::text_has_one_fault`), behind the bytes that begin a word which can stand behind the words
//! before it. [`Expr::eval`] answers what the tree's meaning is for an entry (`answers`): a table by the kinds of the
//! values. The language is a part of
//! [expr-lang](https://expr-lang.org/docs/language-definition), in which the OpenTelemetry Collector's log operators
//! have their conditions; patterns are those of the crate `regex`.
#![tactic(auto)]

mod eval;
mod frames;
mod kinds;
pub mod laws;
mod lexer;
mod parser;
mod pattern;
mod place;
mod read;
mod token;
mod tree;
mod values;

pub use eval::{Answer, ExprFault};
pub use read::ExprReadFault;
pub use tree::Expr;
