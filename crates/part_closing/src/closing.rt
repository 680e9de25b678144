// What operators held back of files comes out.
ghost use Rattle.std.specs.Prelude.{◌≡◌, ◌++◌, ◌∷◌, ◌+◌, ◌≤◌, ◌^◌, ℕ, List, [], length, Some, slice_get, IsTrue, IfOk, OnOk};
ghost use Rattle.file_pass.specs.Full.{lines_text};
ghost use Rattle.file_tracker.specs.declared.row.Row.{Row};
ghost use Rattle.pipeline.specs.AsRules.{rules_of};
ghost use Rattle.pipeline.specs.Parts.{HaveKinds};
ghost use Rattle.pipeline.specs.RowStates.{IsStateOf};
ghost use Rattle.part_closing.specs.Closing.{HasClosed, rules_by};
ghost use Rattle.standing.specs.Adopted.{lines_closed, row_adopted};
ghost use Rattle.standing.specs.Rules.{Rules};

use file_tracker::{Bytes, End, Row, Tracker};
use otlp_json::laws::{line_is_one_line, lines_append};
use pipeline::laws::a_row_tells_its_state;
use pipeline::{FileState, Pipeline};
use state_codec::CodecFault;
use std::alloc::{AllocError, Global};

/// How files are closed: by the operators that held something back, with a time of these lines in nanoseconds since 1970, where they
/// have one, and the state in which the next operators begin.
#[derive(Clone, Copy)]
pub struct Closer<'c> {
    pub pipeline: &'c Pipeline,
    pub observed: Option<u64>,
    pub fresh: &'c [u8],
}

/// The files that were closed so far, and the lines that came out, which are counted.
#[derive(Drop)]
pub struct Closing {
    pub rows: Vec<Row>,
    pub lines: Vec<u8>,
    pub count: u64,
}

/// Closes all files.
pub fn close_all(
    alloc: Global,
    closer: &Closer<'_>,
    tracker: &Tracker,
) -> Result<Closing, AllocError>
    requires states { (text : List ℕ) (place : ℕ) (row : Row) → slice_get tracker.now place ≡ Some row
        → IsTrue ((rules_by closer.now text).is_state row.state) }
    requires lines { (place : ℕ) (row : Row) → slice_get tracker.now place ≡ Some row → row.lines ≤ 2 ^ 40 }
    ensures { IfOk result (HasClosed closer.now tracker.now) }
{
    line_is_one_line();
    let mut closing = Closing {
        rows: Vec::new(alloc),
        lines: Vec::new(alloc),
        count: 0,
    };
    for place in 0..tracker.len() {
        close_next(alloc, closer, tracker.row(place), &mut closing)?;
    }
    Ok(closing)
}

// Closes one file more.
fn close_next(
    alloc: Global,
    closer: &Closer<'_>,
    row: &Row,
    closing: &mut Closing,
) -> Result<(), AllocError>
    requires state { (text : List ℕ) → IsTrue ((rules_by closer.now text).is_state row.now.state) }
    requires lines { row.now.lines ≤ 2 ^ 40 }
    requires count { closing.old.count ≤ length closing.old.lines.items }
    ensures { OnOk result ((before : List Row) → HasClosed closer.now before closing.old
        → HasClosed closer.now (before ++ row.now ∷ []) closing.new) }
{
    line_is_one_line();
    let ended = close(alloc, closer, row, &mut closing.lines)?;
    closing.count += ended.lines - row.lines;
    closing.rows.push(ended)?;
    Ok(())
}

// Closes a file, and appends the lines of what was held back of it.
fn close(
    alloc: Global,
    closer: &Closer<'_>,
    row: &Row,
    out: &mut Vec<u8>,
) -> Result<Row, AllocError>
    requires state { (text : List ℕ) → IsTrue ((rules_by closer.now text).is_state row.now.state) }
    requires lines { row.now.lines ≤ 2 ^ 40 }
    ensures row { IfOk result (λ ended. (text : List ℕ) (next : Rules) → next.fresh ≡ closer.now.fresh.now
        → ended ≡ row_adopted (rules_by closer.now text) next row.now) }
    ensures lines { OnOk result ((text : List ℕ) → out.new.items
        ≡ out.old.items ++ lines_text (lines_closed (rules_by closer.now text) closer.now.observed row.now)) }
{
    lines_append();
    let mut state = restored(alloc, closer.pipeline, row, row.state.as_slice())?;
    closer
        .pipeline
        .close(alloc, &mut state, row.id, closer.observed, out)?;
    ended(alloc, row, state.lines, closer.fresh)
}

// The row whose last part has ended with so many lines, and whose next one begins with this state.
fn ended(alloc: Global, row: &Row, lines: u64, fresh: &[u8]) -> Result<Row, AllocError>
    ensures { IfOk result (λ ended. (rules next : Rules) → next.fresh ≡ fresh.now
        → lines ≡ row.now.lines + length (rules.closed row.now.state) → ended ≡ row_adopted rules next row.now) }
{
    let mut ended = row.copy(alloc)?;
    let end = End {
        offset: row.offset,
        records: row.records,
        lines,
    };
    ended.ends.push(end)?;
    ended.lines = lines;
    ended.state = Bytes::from_slice(alloc, fresh)?;
    Ok(ended)
}

// The state with the counts of a row for which these bytes stand, which are a state of these operators.
fn restored(
    alloc: Global,
    pipeline: &Pipeline,
    row: &Row,
    bytes: &[u8],
) -> Result<FileState, AllocError>
    requires { (text : List ℕ) → IsTrue ((rules_of text pipeline.now).is_state bytes.now) }
    ensures state { IfOk result (IsStateOf pipeline.now row.now.records row.now.lines bytes.now) }
    ensures kinds { IfOk result (λ state. HaveKinds pipeline.now state.states.items) }
{
    a_row_tells_its_state(pipeline);
    match pipeline.restore(alloc, row.records, row.lines, bytes) {
        Ok(state) => Ok(state),
        Err(CodecFault::Malformed { .. }) => unreachable!(),
        Err(CodecFault::Memory) => Err(AllocError),
    }
}
