// One part of a row.
ghost use Rattle.std.specs.Prelude.{◌≡◌, ◌+◌, ◌-◌, ◌≤◌, ◌<◌, ◌^◌, ℕ, List, [], ◌++◌, length, drop, IfOk, MatchBool};
ghost use Rattle.auditor.specs.Asked.{tokens_between};
ghost use Rattle.auditor.specs.Inner.Whole.{AreBetween, IsWholeClosed, IsWholeOpen};
ghost use Rattle.checkpoint_store.specs.Rules.{NoneFalls, last_point};
ghost use Rattle.graph_core.specs.Traces.{start_states, states_after, outputs};
ghost use Rattle.op_kinds.specs.StateTexts.{state_text};
ghost use Rattle.pipeline.specs.AsRules.{rules_of};
ghost use Rattle.pipeline.specs.Parts.{network, HaveKinds};
ghost use Rattle.standing.specs.Closed.{closed_output};
ghost use Rattle.standing.specs.Part.{part_from, part_output};
ghost use Rattle.whole_runs.specs.Requests.{requests};

use crate::tokens::{Taken, take_tokens};
use file_tracker::{End, Row};
use graph_core::laws as graph;
use op_kinds::Record;
use pipeline::{FileState, Pipeline};
use std::alloc::{AllocError, Global};
use whole_runs::run;

/// What a part gave.
#[derive(Drop)]
pub(crate) struct Part {
    /// What came out, in order.
    pub(crate) items: Vec<Record>,
    /// Whether the part ends where its tokens do, with the counts and the state that they leave.
    pub(crate) is_whole: bool,
}

/// The bytes past the first `from`.
fn behind(bytes: &[u8], from: u64) -> &[u8]
    ensures { result.now ≡ drop from bytes.now }
{
    if from >= bytes.len() as u64 {
        return &bytes[bytes.len()..];
    }
    &bytes[from as usize..]
}

/// Whether so many tokens, which use so many bytes, and so many lines lie between two points, of which the second isn't past the
/// last byte.
fn are_between(from: End, to: End, last: u64, used: u64, count: u64, lines: u64) -> bool
    requires { NoneFalls from to }
    ensures { MatchBool result (AreBetween from to last used count lines) (AreBetween from to last used count lines → ⊥) }
{
    if to.offset > last {
        return false;
    }
    if to.offset - from.offset != used {
        return false;
    }
    if to.records - from.records != count {
        return false;
    }
    to.lines - from.lines == lines
}

/// What the operators make of these entries, from the first states on, and what they then keep; where the run is `closed`, what
/// they held back comes out too.
fn run_fresh(
    alloc: Global,
    pipe: &Pipeline,
    entries: Vec<Record>,
    closed: bool,
) -> Result<(Vec<Record>, FileState), AllocError>
    ensures items { let network = network pipe.now in
        IfOk result (λ found. found.0.items ≡ outputs network (start_states network) (requests network entries.items closed)) }
    ensures states { let network = network pipe.now in
        IfOk result (λ found. found.1.states.items ≡ states_after network (start_states network) (requests network entries.items closed)) }
    ensures kinds { IfOk result (λ found. HaveKinds pipe.now found.1.states.items) }
{
    graph::begin(pipe.graph());
    let mut state = pipe.fresh(alloc)?;
    let order = pipe.graph().closing();
    let items = run(
        pipe.graph(),
        order,
        alloc,
        &mut state.states,
        entries,
        closed,
    )?;
    Ok((items, state))
}

/// Whether this text stands for what the operators keep.
fn is_spelled(
    alloc: Global,
    pipe: &Pipeline,
    state: &FileState,
    text: &[u8],
) -> Result<bool, AllocError>
    requires { HaveKinds pipe.now state.now.states.items }
    ensures { IfOk result (λ same. MatchBool same (text.now ≡ state_text state.now.states.items) (text.now ≡ state_text state.now.states.items → ⊥)) }
{
    let mut spelling = Vec::new(alloc);
    pipe.save(alloc, state, &mut spelling)?;
    Ok(text == spelling.as_slice())
}

/// A part that was closed, from one point to another. `bytes` are the file's from where reading began.
pub(crate) fn closed_part(
    alloc: Global,
    pipe: &Pipeline,
    row: &Row,
    bytes: &[u8],
    from: End,
    to: End,
) -> Result<Part, AllocError>
    requires start { row.now.start ≤ from.offset }
    requires order { NoneFalls from to }
    requires few { from.records + length bytes.now < 2 ^ 63 }
    requires near { row.now.start + length bytes.now < 2 ^ 63 }
    ensures items { let rules = rules_of [] pipe.now in
        IfOk result (λ part. (before : List ℕ) → length before ≡ row.now.start
        → part.items.items ≡ closed_output rules row.now.path from.records (tokens_between rules (before ++ bytes.now) from.offset to.offset)) }
    ensures whole { let rules = rules_of [] pipe.now in
        IfOk result (λ part. (before : List ℕ) → length before ≡ row.now.start
        → MatchBool part.is_whole (IsWholeClosed rules (before ++ bytes.now) row.now.path from to) (IsWholeClosed rules (before ++ bytes.now) row.now.path from to → ⊥)) }
{
    graph::go_on(pipe.graph());
    let room = to.offset - from.offset;
    let rest = behind(bytes, from.offset - row.start);
    let taken = take_tokens(alloc, pipe, row.path.as_str(), from.records, rest, room)?;
    let Taken {
        entries,
        count,
        used,
    } = taken;
    let (items, _state) = run_fresh(alloc, pipe, entries, true)?;
    let last = row.start + bytes.len() as u64;
    let is_whole = are_between(from, to, last, used, count, items.len() as u64);
    Ok(Part { items, is_whole })
}

/// The last part, from a point on.
pub(crate) fn open_part(
    alloc: Global,
    pipe: &Pipeline,
    row: &Row,
    bytes: &[u8],
    from: End,
) -> Result<Part, AllocError>
    requires start { row.now.start ≤ from.offset }
    requires order { NoneFalls from (last_point row.now) }
    requires few { from.records + length bytes.now < 2 ^ 63 }
    requires near { row.now.start + length bytes.now < 2 ^ 63 }
    ensures items { let rules = rules_of [] pipe.now in
        IfOk result (λ part. (before : List ℕ) → length before ≡ row.now.start
        → part.items.items ≡ part_output rules (part_from rules from) row.now.path (tokens_between rules (before ++ bytes.now) from.offset row.now.offset)) }
    ensures whole { let rules = rules_of [] pipe.now in
        IfOk result (λ part. (before : List ℕ) → length before ≡ row.now.start
        → MatchBool part.is_whole (IsWholeOpen rules (before ++ bytes.now) row.now from) (IsWholeOpen rules (before ++ bytes.now) row.now from → ⊥)) }
{
    let to = End {
        offset: row.offset,
        records: row.records,
        lines: row.lines,
    };
    let room = to.offset - from.offset;
    let rest = behind(bytes, from.offset - row.start);
    let taken = take_tokens(alloc, pipe, row.path.as_str(), from.records, rest, room)?;
    let Taken {
        entries,
        count,
        used,
    } = taken;
    let (items, state) = run_fresh(alloc, pipe, entries, false)?;
    if !is_spelled(alloc, pipe, &state, row.state.as_slice())? {
        return Ok(Part {
            items,
            is_whole: false,
        });
    }
    let last = row.start + bytes.len() as u64;
    let is_whole = are_between(from, to, last, used, count, items.len() as u64);
    Ok(Part { items, is_whole })
}
