// The words of an expression.
ghost use Rattle.std.specs.Prelude.{◌≡◌};
ghost use Rattle.expr_lang.specs.Begun.{negates};

use entry_model::Text;
use field_paths::FieldPath;

/// How two values are compared.
#[derive(Clone, Copy, Debug, PartialEq, Eq)]
pub enum Comparison {
    Equal,
    NotEqual,
    Less,
    LessOrEqual,
    Greater,
    GreaterOrEqual,
    Contains,
    StartsWith,
    EndsWith,
    In,
}

#[derive(Drop)]
pub enum Token {
    Null,
    Bool(bool),
    Int(i64),
    Text(Text),
    Path(FieldPath),
    SeverityNumber,
    SeverityText,
    Not,
    And,
    Or,
    Compares(Comparison),
    Matches,
    OpenGroup,
    CloseGroup,
    OpenList,
    CloseList,
    Comma,
}

impl Token {
    pub fn negates(&self) -> bool
        ensures { result ≡ negates self.now }
    {
        matches!(self, Token::Not)
    }
}
