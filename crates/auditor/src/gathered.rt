// All parts of a row.
ghost use Rattle.std.specs.Prelude.{◌≡◌, ◌+◌, ◌<◌, ◌^◌, ℕ, List, [], ◌++◌, length, drop, map, IfOk, OnOk, MatchBool};
ghost use Rattle.auditor.specs.Asked.{asked};
ghost use Rattle.auditor.specs.Inner.Compared.{made_in};
ghost use Rattle.auditor.specs.KeepsOrder.{KeepsOrder};
ghost use Rattle.auditor.specs.Inner.Whole.{AreWhole};
ghost use Rattle.pipeline.specs.AsRules.{rules_of};
ghost use Rattle.standing.specs.Closed.{flagged};
ghost use Rattle.standing.specs.Part.{first_point};

use crate::parts::{Part, closed_part, open_part};
use file_tracker::{End, Row};
use op_kinds::Record;
use pipeline::Pipeline;
use std::alloc::{AllocError, Global};

/// What came out, and whether its line is to have a time.
#[derive(Drop)]
pub(crate) struct Item {
    pub(crate) entry: Record,
    pub(crate) stamped: bool,
}

/// What the parts of a row gave.
#[derive(Drop)]
pub(crate) struct Gathered {
    pub(crate) items: Vec<Item>,
    /// Whether each part ends where its tokens do, with the counts and the state that they leave.
    pub(crate) is_whole: bool,
}

/// Adds what came out of a part.
fn add(items: &mut Vec<Item>, entries: Vec<Record>, stamped: bool) -> Result<(), AllocError>
    ensures { OnOk result (made_in items.new.items ≡ made_in items.old.items ++ flagged stamped entries.items) }
{
    for entry in entries {
        items.push(Item { entry, stamped })?;
    }
    Ok(())
}

/// All but the first.
fn others(pipes: &[Pipeline]) -> &[Pipeline]
    requires { 0 < length pipes.now }
    ensures { result.now ≡ drop 1 pipes.now }
{
    &pipes[1..]
}

/// What each part gives under its pipeline, from where reading began to the row's offset.
pub(crate) fn gather(
    alloc: Global,
    pipes: &[Pipeline],
    row: &Row,
    bytes: &[u8],
) -> Result<Gathered, AllocError>
    requires parts { length pipes.now ≡ length row.now.ends + 1 }
    requires order { KeepsOrder row.now }
    requires few { length bytes.now < 2 ^ 62 }
    ensures items { let rules = map (rules_of []) pipes.now in
        IfOk result (λ found. (before : List ℕ) → length before ≡ row.now.start
        → made_in found.items.items ≡ asked rules (before ++ bytes.now) row.now) }
    ensures whole { let rules = map (rules_of []) pipes.now in
        IfOk result (λ found. (before : List ℕ) → length before ≡ row.now.start
        → MatchBool found.is_whole (AreWhole rules (before ++ bytes.now) row.now (first_point row.now) row.now.ends)
        (AreWhole rules (before ++ bytes.now) row.now (first_point row.now) row.now.ends → ⊥)) }
{
    let mut items = Vec::new(alloc);
    let mut all_whole = true;
    let mut from = End {
        offset: row.start,
        records: 0,
        lines: 0,
    };
    let mut left = pipes;
    let mut ends = row.ends.as_slice();
    'closing: while let Some((end, later)) = ends.split_first() {
        let pipe = &left[0];
        let part = closed_part(alloc, pipe, row, bytes, from, *end)?;
        let Part {
            items: entries,
            is_whole,
        } = part;
        add(&mut items, entries, pipe.stamps())?;
        all_whole = all_whole && is_whole;
        from = *end;
        left = others(left);
        ends = later;
    }
    let pipe = &left[0];
    let part = open_part(alloc, pipe, row, bytes, from)?;
    let Part {
        items: entries,
        is_whole,
    } = part;
    add(&mut items, entries, pipe.stamps())?;
    Ok(Gathered {
        items,
        is_whole: all_whole && is_whole,
    })
}
