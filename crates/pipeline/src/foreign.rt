// Rows that keep no state of the operators.
ghost use Rattle.std.specs.Prelude.{◌≡◌, ℕ, List, IfOk, IfSome, IfNone};
ghost use Rattle.pipeline.specs.AsRules.{rules_of};
ghost use Rattle.pipeline.specs.Foreign.{IsLeastForeign};
ghost use Rattle.standing.specs.Rows.{AreInOrder, KeepStates};

use crate::Pipeline;
use crate::laws::a_row_tells_its_state;
use file_tracker::Row;
use state_codec::CodecFault;
use std::alloc::{AllocError, Global};

impl Pipeline {
    /// The id of the first row whose state isn't one of these operators, where rows have their places for ids, counted from 1.
    pub fn first_foreign(&self, alloc: Global, rows: &[Row]) -> Result<Option<u64>, AllocError>
        requires { AreInOrder rows.now }
        ensures fine { IfOk result (λ found. IfNone found ((text : List ℕ) → KeepStates (rules_of text self.now) rows.now)) }
        ensures foreign { IfOk result (λ found. IfSome found (λ id. (text : List ℕ) → IsLeastForeign (rules_of text self.now) rows.now id)) }
    {
        for row in rows {
            if !has_state(alloc, self, row)? {
                return Ok(Some(u64::from(row.id)));
            }
        }
        Ok(None)
    }
}

// Whether what a row keeps is a state of these operators.
fn has_state(alloc: Global, pipeline: &Pipeline, row: &Row) -> Result<bool, AllocError>
    ensures { IfOk result (λ is. (text : List ℕ) → is ≡ (rules_of text pipeline.now).is_state row.now.state) }
{
    is_state(alloc, pipeline, row, row.state.as_slice())
}

// Whether these bytes are a state of these operators, with the counts of a row.
fn is_state(alloc: Global, pipeline: &Pipeline, row: &Row, bytes: &[u8]) -> Result<bool, AllocError>
    ensures { IfOk result (λ is. (text : List ℕ) → is ≡ (rules_of text pipeline.now).is_state bytes.now) }
{
    a_row_tells_its_state(pipeline);
    match pipeline.restore(alloc, row.records, row.lines, bytes) {
        Ok(_) => Ok(true),
        Err(CodecFault::Malformed { .. }) => Ok(false),
        Err(CodecFault::Memory) => Err(AllocError),
    }
}
