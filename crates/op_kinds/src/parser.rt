// How texts are read by parsers.
ghost use Rattle.std.specs.Prelude.{◌≡◌, ◌≢◌, IfOk, IfErr, None, Some};
ghost use Rattle.entry_model.specs.Datum.{datum};
ghost use Rattle.field_paths.specs.MapOf.{members_seen};
ghost use Rattle.op_kinds.specs.ParserView.{reader_of};
ghost use Rattle.op_kinds.specs.Said.{said};
ghost use Rattle.op_kinds.specs.declared.row.RowFault.TheVariants.{Memory};

use crate::pairs::Pairs;
use crate::row::RowFault;
use entry_model::{Fields, Value};
use std::alloc::Global;
use text_parsers::{CsvOp, JsonOp, RegexOp};

/// How a text is read.
#[derive(Drop)]
pub(crate) enum Parser {
    Regex(RegexOp),
    Json(JsonOp),
    Csv(CsvOp),
    KeyValue(Pairs),
}

impl Parser {
    /// The members that a value says.
    #[tactic(auto, using(crate::proofs::Said::groups_said, crate::proofs::Said::groups_unsaid, crate::proofs::Said::object_said, crate::proofs::Said::object_unsaid, crate::proofs::Recording::record_said, crate::proofs::Recording::record_unsaid, crate::proofs::Pairing::pairs_said_by, crate::proofs::Pairing::pairs_unsaid))]
    pub(crate) fn members(&self, alloc: Global, value: &Value) -> Result<Fields, RowFault>
        ensures ok { IfOk result (λ members. said (reader_of self.now) (datum value.now) ≡ Some (members_seen members.entries)) }
        ensures fault { IfErr result (λ fault. fault ≢ Memory → said (reader_of self.now) (datum value.now) ≡ None) }
    {
        let said = match self {
            Parser::Regex(op) => op.apply(alloc, value),
            Parser::Json(op) => op.apply(alloc, value),
            Parser::Csv(op) => op.apply(alloc, value),
            Parser::KeyValue(pairs) => pairs.op.apply(alloc, value),
        };
        match said {
            Ok(members) => Ok(members),
            Err(fault) => Err(RowFault::from(fault)),
        }
    }
}
