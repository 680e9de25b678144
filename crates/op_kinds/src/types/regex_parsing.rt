// The type `regex_parser`.
ghost use Rattle.std.specs.Prelude.{◌≡◌, [], ◌∷◌, IfOk};
ghost use Rattle.op_kinds.specs.ParserView.{parsing_of};
ghost use Rattle.op_kinds.specs.Parsers.{IsParser, IsPattern};
ghost use Rattle.op_kinds.specs.Readings as readings;
ghost use Rattle.op_kinds.specs.Readings.{Answers, parser_readings};
ghost use Rattle.op_kinds.specs.Said.{by_pattern};

use crate::OpCause;
use crate::parser::Parser;
use crate::parser_keys::keys_of;
use crate::parsing::Parse;
use crate::reading::both;
use entry_model::Text;
use settings_text::ParserKeys;
use std::alloc::Global;
use text_parsers::RegexOp;

pub(crate) fn compile(alloc: Global, regex: &Text, keys: &ParserKeys) -> Result<Parse, OpCause>
    ensures pattern { IfOk result (λ made. IsPattern regex.now) }
    ensures ok { IfOk result (λ made. IsParser (by_pattern regex.now) keys.now (parsing_of made)) }
    ensures answers { Answers (readings.pattern regex.now ∷ readings.names regex.now ∷ parser_readings keys.now) result }
{
    match both(pattern(alloc, regex), keys_of(alloc, keys)) {
        Ok((op, keys)) => Ok(Parse {
            parser: Parser::Regex(op),
            keys,
        }),
        Err(cause) => Err(cause),
    }
}

fn pattern(alloc: Global, text: &Text) -> Result<RegexOp, OpCause>
    ensures is { IfOk result (λ op. op ≡ text.now) }
    ensures read { IfOk result (λ op. IsPattern text.now) }
    ensures answers { Answers (readings.pattern text.now ∷ readings.names text.now ∷ []) result }
{
    match RegexOp::new(alloc, text.as_str()) {
        Ok(op) => Ok(op),
        Err(fault) => Err(OpCause::from(fault)),
    }
}
