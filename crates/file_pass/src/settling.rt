// Which row is a file's.
ghost use Rattle.std.specs.Prelude.{◌≡◌, ◌+◌, ◌<◌, ◌≤◌, ◌^◌, ◌&&◌, if◌then◌else◌, length, None, Some, IfOk, IfSome, OnOk};
ghost use Rattle.file_pass.specs.Fed.{rules_in};
ghost use Rattle.file_pass.specs.Grown.{FlagsGrowth};
ghost use Rattle.file_pass.specs.Sane.{FreshFits, IsSaneTaking};
ghost use Rattle.file_pass.specs.Inner.Settled.{IsKnown, Settles, admitted};
ghost use Rattle.file_pass.specs.Unchanged.{FlagsGrown};
ghost use Rattle.file_tracker.specs.Limits.{row_limit};
ghost use Rattle.file_tracker.specs.Places.{place_of};
ghost use Rattle.pipeline.specs.Parts.{settings_of};
ghost use Rattle.settings_text.specs.Limits.{KeepsLimits};
ghost use Rattle.standing.specs.Rules.{Rules};
ghost use Rattle.state_codec.specs.Rules.{IsShortText};

use crate::ending::SeenFile;
use crate::setup::Setup;
use crate::spelled::first_spelled;
use crate::taking::Taking;
use file_tracker::{AdmitFault, Bytes, Ends, ROW_LIMIT, Row};
use settings_text::StartAt;
use std::alloc::{AllocError, Global};

/// Finds the row of a file of which the first bytes were seen, and makes one where none is known and there is room. It has
/// these bytes as its front then.
pub(crate) fn settle(
    setup: &Setup<'_>,
    seen: &SeenFile<'_>,
    taking: &mut Taking,
) -> Result<Option<usize>, AllocError>
    requires sane { IsSaneTaking setup.now taking.old }
    requires size { seen.now.file.size ≤ 2 ^ 62 }
    requires path { IsShortText seen.now.path.now }
    requires front { (1 ≤ length seen.now.front.now) × (length seen.now.front.now ≤ 4096) }
    ensures settles { IfOk result (λ place. Settles setup.now seen.now taking.old.tracker place taking.new.tracker) }
    ensures sane { OnOk result (IsSaneTaking setup.now taking.new) }
    ensures flags { OnOk result (FlagsGrown setup.now taking.old taking.new) }
    ensures end { taking.new.end ≡ taking.old.end }
    ensures counts { taking.new.counts ≡ taking.old.counts }
{
    match taking.tracker.find(seen.front) {
        Some(place) => {
            grow(setup.alloc, place, seen.front, taking)?;
            Ok(Some(place))
        }
        None => {
            let place = admit(setup, seen, taking)?;
            Ok(place)
        }
    }
}

// Gives the row of a file the front that was seen.
fn grow(alloc: Global, place: usize, front: &[u8], taking: &mut Taking) -> Result<(), AllocError>
    requires known { place_of front.now taking.old.tracker ≡ Some place }
    requires flags { length taking.old.changed.items ≡ length taking.old.tracker }
    ensures known { OnOk result (IsKnown front.now taking.old.tracker place taking.new.tracker) }
    ensures flags { OnOk result ((rules : Rules) → FlagsGrowth rules taking.old.tracker taking.old.changed.items taking.new.tracker taking.new.changed.items) }
    ensures long { length taking.new.changed.items ≡ length taking.old.changed.items }
    ensures end { taking.new.end ≡ taking.old.end }
    ensures counts { taking.new.counts ≡ taking.old.counts }
{
    if taking.tracker.row(place).front.as_slice().len() < front.len() {
        taking.tracker.grow_front(alloc, place, front)?;
        taking.changed[place] = true;
    }
    Ok(())
}

// Makes a row, where there is room for one.
fn admit(
    setup: &Setup<'_>,
    seen: &SeenFile<'_>,
    taking: &mut Taking,
) -> Result<Option<usize>, AllocError>
    requires unknown { place_of seen.now.front.now taking.old.tracker ≡ None }
    requires flags { length taking.old.changed.items ≡ length taking.old.tracker }
    ensures settles { IfOk result (λ place. Settles setup.now seen.now taking.old.tracker place taking.new.tracker) }
    ensures fits { IfOk result (λ place. IfSome place (λ _. FreshFits setup.now)) }
    ensures flags { OnOk result (FlagsGrown setup.now taking.old taking.new) }
    ensures long { OnOk result (length taking.new.changed.items ≡ length taking.new.tracker) }
    ensures end { taking.new.end ≡ taking.old.end }
    ensures counts { taking.new.counts ≡ taking.old.counts }
{
    let rows = taking.tracker.len();
    if rows >= ROW_LIMIT {
        return Ok(None);
    }
    let row = new_row(setup, seen, rows)?;
    match taking.tracker.admit(setup.alloc, row) {
        Ok(place) => {
            if taking.changed.push(true).is_err() {
                return Err(AllocError);
            }
            Ok(Some(place))
        }
        Err(AdmitFault::Full) => unreachable!(),
        Err(AdmitFault::Memory) => Err(AllocError),
    }
}

// The row behind so many rows.
fn new_row(setup: &Setup<'_>, seen: &SeenFile<'_>, rows: usize) -> Result<Row, AllocError>
    requires { rows < row_limit }
    ensures row { IfOk result (λ row. row ≡ admitted setup.now seen.now.file.size seen.now.path.now seen.now.front.now (rows + 1)) }
    ensures fits { OnOk result (FreshFits setup.now) }
{
    let start = first_offset(setup, seen.file.size);
    Ok(Row {
        id: rows as u32 + 1,
        path: seen.path.share()?,
        front: Bytes::from_slice(setup.alloc, seen.front)?,
        start,
        offset: start,
        records: 0,
        lines: 0,
        state: first_spelled(setup)?,
        born: setup.era,
        ends: Ends::none(setup.alloc),
        seen: 0,
        quiet: 0,
    })
}

// Where reading begins of a file that isn't known.
fn first_offset(setup: &Setup<'_>, size: u64) -> u64
    ensures { result ≡ (if setup.now.first && (rules_in setup.now).from_end then size else 0) }
{
    if setup.first && setup.pipeline.settings().start_at == StartAt::End {
        size
    } else {
        0
    }
}
