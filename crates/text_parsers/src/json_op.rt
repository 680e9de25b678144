// Members out of a JSON object.
ghost use Rattle.std.specs.Prelude.{◌≡◌, IfOk, IfErr, MatchResult};
ghost use Rattle.entry_model.specs.Datum.{datum, members_of};
ghost use Rattle.entry_model.specs.Seen.{seen};
ghost use Rattle.text_parsers.specs.JsonObjects.{IsObjectText, IsObjectFault};
ghost use Rattle.text_parsers.specs.TextValue.{IsTextWith, IsValueFault};

use crate::ParseFault;
use entry_model::{Fields, Value};
use std::alloc::Global;

/// Takes the members of a text that is one JSON object.
#[derive(Clone, Copy, Debug, PartialEq, Eq, Drop)]
pub struct JsonOp;

impl JsonOp {
    pub fn new() -> JsonOp {
        JsonOp
    }

    /// The members of the one object that the text is by RFC 8259, with blanks around it. An integer that fits an
    /// `i64` is an `Int`, and any other number the `Text` that spells it. Of a repeated name the last value stays.
    ///
    /// `Syntax` at the first byte from which the text can't go on, at the bracket of the 65th level, and at 0 where
    /// the text is another value than an object.
    pub fn apply(&self, alloc: Global, value: &Value) -> Result<Fields, ParseFault>
        ensures ok { IfOk result (λ members. IsTextWith (datum value.now) (IsObjectText (members_of (seen members.entries)))) }
        ensures fault { IfErr result (IsValueFault IsObjectFault (datum value.now)) }
    {
        match value {
            Value::Text(text) => object(alloc, text.as_str()),
            Value::Null | Value::Bool(_) | Value::Int(_) | Value::List(_) | Value::Map(_) => {
                Err(ParseFault::NotText)
            }
        }
    }
}

fn object(alloc: Global, text: &str) -> Result<Fields, ParseFault>
    ensures ok { IfOk result (λ members. IsObjectText (members_of (seen members.entries)) text.now) }
    ensures fault { IfErr result (IsObjectFault text.now) }
{
    match json_text::read(alloc, text) {
        Ok(Value::Map(members)) => Ok(members),
        Ok(_) => Err(ParseFault::Syntax { at: 0 }),
        Err(fault) => Err(ParseFault::from(fault)),
    }
}
