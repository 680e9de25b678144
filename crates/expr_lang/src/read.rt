// Reading an expression out of its text.
ghost use Rattle.std.specs.Prelude.{◌≡◌, IfOk, IfErr};
ghost use Rattle.expr_lang.specs.Machine.{start};
ghost use Rattle.expr_lang.specs.Inner.Reads.{Reads, IsParseFault, cut};
ghost use Rattle.expr_lang.specs.TreeOf.{tree};

use crate::Expr;
use crate::lexer::{skip_blanks, token_at};
use crate::parser::Parser;
use crate::place::{begun_length, refused_length};
use crate::tree::Node;
use std::alloc::{AllocError, Global};
use thiserror::Error;

/// The most bytes of an expression.
const MAX_LENGTH: usize = 4096;

/// Why a text is no expression.
#[derive(Clone, Copy, Debug, PartialEq, Eq, Drop, Error)]
pub enum ExprReadFault {
    /// `at` is the first byte from which the text can't go on, or its length where only more is missing.
    #[error("no expression at byte {at}")]
    Syntax { at: usize },
    /// The text literal at `at` is no pattern, or one that nests too deep.
    #[error("no pattern at byte {at}")]
    Pattern { at: usize },
    #[error("out of memory")]
    Memory,
}

impl From<AllocError> for ExprReadFault {
    ghost use Rattle.std.specs.Prelude.{◌≡◌};
    ghost use Rattle.expr_lang.specs.declared.read.ExprReadFault.TheVariants.{Memory};

    ghost from_gives = { λ _ fault. fault ≡ Memory };

    fn from(_error: AllocError) -> ExprReadFault {
        ExprReadFault::Memory
    }
}

impl Expr {
    ghost use Rattle.expr_lang.specs.Grammar.{IsExpression};
    ghost use Rattle.expr_lang.specs.Outcome.{IsReadFault};
    ghost use Rattle.expr_lang.specs.TreeOf.{tree_of};

    /// The expression that a text of at most 4,096 bytes spells.
    ///
    /// ```text
    /// expr    = and { ("or" | "||") and }          and = compare { ("and" | "&&") compare }
    /// compare = unary [ op unary ]                 op = == != < <= > >= contains startsWith endsWith matches in
    /// unary   = ("not" | "!") unary | primary
    /// primary = int | text | true | false | nil | list | path | severity_number | severity_text | "(" expr ")"
    /// list    = "[" [ constant { "," constant } ] "]"
    /// ```
    ///
    /// Space, tab, LF and CR may stand between words. A word is a whole run of letters, digits and `_`. An int is digits
    /// behind a `-` or nothing, and fits an `i64`. A text stands in `"` or `'`, with the escapes `\n`, `\t`, `\r`, `\\`,
    /// `\"` and `\'`. A path is one of field_paths, but that `-` stands in it between quotes alone. A constant in a list
    /// is an int, a text, `true`, `false` or `nil`. Behind `matches` stands a text, the pattern. At most 32 groups, lists
    /// and negations are open at once; the brackets of a path aren't counted.
    ///
    /// `Syntax` for every other text, at the first byte from which it can't go on, at its length where only more is
    /// missing, at the word that opens a level too many, or at 4,096 where the text is longer and has no earlier fault.
    /// `Pattern` at the quote of a pattern that isn't one of `regex`, or nests too deep for it, where no fault comes
    /// earlier. A pattern that is too large for `regex` is want of memory.
    ///
    /// The tree's memory is kept until the program ends, so an expression is to be read once and used often.
    pub fn read(alloc: Global, text: &str) -> Result<Expr, ExprReadFault>
        ensures ok { IfOk result (λ expr. IsExpression text.now (tree_of expr)) }
        ensures fault { IfErr result (IsReadFault text.now) }
    {
        match parse(alloc, text) {
            Ok(root) => {
                if text.len() > MAX_LENGTH {
                    return Err(ExprReadFault::Syntax { at: MAX_LENGTH });
                }
                Ok(Expr::new(alloc, root)?)
            }
            Err(fault) => Err(within(fault, text.len())),
        }
    }
}

/// The fault of a text of this length, where the length isn't the first.
fn within(fault: ExprReadFault, length: usize) -> ExprReadFault
    ensures { result ≡ cut fault length }
{
    match fault {
        ExprReadFault::Syntax { at } | ExprReadFault::Pattern { at }
            if at >= MAX_LENGTH && length > MAX_LENGTH => {
            ExprReadFault::Syntax { at: MAX_LENGTH }
        }
        fault => fault,
    }
}

/// The tree of a text of any length.
fn parse(alloc: Global, text: &str) -> Result<Node, ExprReadFault>
    ensures ok { IfOk result (λ root. Reads text.now 0 start (tree root)) }
    ensures fault { IfErr result (IsParseFault text.now) }
{
    let bytes = text.as_bytes();
    let mut parser = Parser::new(alloc);
    let mut at = skip_blanks(bytes, 0);
    while at < bytes.len() {
        let wanted = parser.wanted();
        let Some((token, length)) = token_at(alloc, text, at)? else {
            let begun = begun_length(alloc, wanted, text, at)?;
            return Err(ExprReadFault::Syntax { at: at + begun });
        };
        let negates = token.negates();
        let Some(next) = parser.step(alloc, token, at)? else {
            let begun = refused_length(alloc, wanted, negates, text, at)?;
            return Err(ExprReadFault::Syntax { at: at + begun });
        };
        parser = next;
        at = skip_blanks(bytes, at + length);
    }
    match parser.end(alloc)? {
        Some(root) => Ok(root),
        None => Err(ExprReadFault::Syntax { at: bytes.len() }),
    }
}
