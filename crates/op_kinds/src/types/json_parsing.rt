// The type `json_parser`.
ghost use Rattle.std.specs.Prelude.{IfOk};
ghost use Rattle.op_kinds.specs.ParserView.{parsing_of};
ghost use Rattle.op_kinds.specs.Parsers.{IsParser};
ghost use Rattle.op_kinds.specs.Readings.{Answers, parser_readings};
ghost use Rattle.op_kinds.specs.Said.{as_json};

use crate::OpCause;
use crate::parser::Parser;
use crate::parser_keys::keys_of;
use crate::parsing::Parse;
use settings_text::ParserKeys;
use std::alloc::Global;
use text_parsers::JsonOp;

pub(crate) fn compile(alloc: Global, keys: &ParserKeys) -> Result<Parse, OpCause>
    ensures ok { IfOk result (λ made. IsParser as_json keys.now (parsing_of made)) }
    ensures answers { Answers (parser_readings keys.now) result }
{
    match keys_of(alloc, keys) {
        Ok(keys) => Ok(Parse {
            parser: Parser::Json(JsonOp::new()),
            keys,
        }),
        Err(cause) => Err(cause),
    }
}
