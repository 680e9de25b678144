// The type `csv_parser`.
ghost use Rattle.std.specs.Prelude.{◌<◌, IfOk};
ghost use Rattle.op_kinds.specs.ParserView.{parsing_of};
ghost use Rattle.op_kinds.specs.Parsers.{IsParser, columns_of};
ghost use Rattle.op_kinds.specs.Readings.{Answers, parser_readings};
ghost use Rattle.op_kinds.specs.Said.{as_record};

use crate::OpCause;
use crate::parser::Parser;
use crate::parser_keys::keys_of;
use crate::parsing::Parse;
use entry_model::Text;
use settings_text::ParserKeys;
use std::alloc::{AllocError, Global};
use text_parsers::CsvOp;

pub(crate) fn compile(
    alloc: Global,
    delimiter: u8,
    header: &Text,
    keys: &ParserKeys,
) -> Result<Parse, OpCause>
    requires { delimiter < 128 }
    ensures ok { IfOk result (λ made. IsParser (as_record (columns_of delimiter header.now)) keys.now (parsing_of made)) }
    ensures answers { Answers (parser_readings keys.now) result }
{
    let keys = match keys_of(alloc, keys) {
        Ok(keys) => keys,
        Err(cause) => return Err(cause),
    };
    match CsvOp::new(alloc, header.as_str(), delimiter) {
        Ok(op) => Ok(Parse {
            parser: Parser::Csv(op),
            keys,
        }),
        Err(AllocError) => Err(OpCause::Memory),
    }
}
