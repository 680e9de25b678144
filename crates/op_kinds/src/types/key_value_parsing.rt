// The type `key_value_parser`.
ghost use Rattle.std.specs.Prelude.{IfOk};
ghost use Rattle.op_kinds.specs.ParserView.{parsing_of};
ghost use Rattle.op_kinds.specs.Parsers.{IsParser, delimiters_of};
ghost use Rattle.op_kinds.specs.Readings.{Answers, parser_readings};
ghost use Rattle.op_kinds.specs.Said.{as_pairs};
ghost use Rattle.settings_text.specs.Types.KeyValueParsing.{KeepsLimits};

use crate::OpCause;
use crate::pairs::Pairs;
use crate::parser::Parser;
use crate::parser_keys::keys_of;
use crate::parsing::Parse;
use entry_model::Text;
use settings_text::ParserKeys;
use std::alloc::{AllocError, Global};

pub(crate) fn compile(
    alloc: Global,
    delimiter: &Text,
    pair_delimiter: &Option<Text>,
    keys: &ParserKeys,
) -> Result<Parse, OpCause>
    requires { KeepsLimits delimiter.now pair_delimiter.now }
    ensures ok { IfOk result (λ made. IsParser (as_pairs (delimiters_of delimiter.now pair_delimiter.now)) keys.now (parsing_of made)) }
    ensures answers { Answers (parser_readings keys.now) result }
{
    let keys = match keys_of(alloc, keys) {
        Ok(keys) => keys,
        Err(cause) => return Err(cause),
    };
    match Pairs::new(alloc, delimiter, pair_delimiter) {
        Ok(pairs) => Ok(Parse {
            parser: Parser::KeyValue(pairs),
            keys,
        }),
        Err(AllocError) => Err(OpCause::Memory),
    }
}
