// What was remembered of looks at files, against what is.
ghost use Rattle.std.specs.Prelude.{◌≡◌, ◌≢◌, ◌⊎◌, ◌≤◌, length, map, false, true, IfOk};
ghost use Rattle.file_pass.specs.Fed.{rules_in};
ghost use Rattle.file_pass.specs.Inner.Looks.{FlagsLooks, idle_of, looks_in};

use crate::setup::Setup;
use file_tracker::{Row, Tracker};
use idle_flush::Idle;
use std::alloc::{AllocError, Global};

/// What is remembered of each file, where the settings ever flush anything.
pub(crate) fn looks_at(setup: &Setup<'_>, tracker: &Tracker) -> Result<Vec<Idle>, AllocError>
    ensures { IfOk result (λ looks. looks.items ≡ looks_in (rules_in setup.now) tracker.now) }
{
    if setup.pipeline.flush_after() == 0 {
        return Ok(Vec::new(setup.alloc));
    }
    each_look(setup.alloc, tracker)
}

fn each_look(alloc: Global, tracker: &Tracker) -> Result<Vec<Idle>, AllocError>
    ensures { IfOk result (λ looks. looks.items ≡ map idle_of tracker.now) }
{
    let mut looks = Vec::new(alloc);
    let mut place = 0;
    while place < tracker.len() {
        looks.push(idle(tracker.row(place)))?;
        place += 1;
    }
    Ok(looks)
}

/// What is remembered of the looks at a row's file.
pub(crate) fn idle(row: &Row) -> Idle
    ensures { result ≡ idle_of row.now }
{
    Idle {
        seen: row.seen,
        quiet: row.quiet,
    }
}

/// Flags the rows of whose files another look is remembered than these.
pub(crate) fn flag_looks(looks: &[Idle], tracker: &Tracker, changed: &mut [bool])
    requires rows { length looks.now ≤ length tracker.now }
    requires flags { length changed.old ≡ length tracker.now }
    ensures { FlagsLooks looks.now tracker.now changed.old changed.new }
{
    let mut place = 0;
    while place < looks.len() {
        let flag = changed[place];
        changed[place] = is_flagged(flag, looks[place], tracker.row(place));
        place += 1;
    }
}

// Whether a row is flagged that was so before, or of whose file another look than this one is remembered.
fn is_flagged(flag: bool, look: Idle, row: &Row) -> bool
    ensures yes { result ≡ true → (flag ≡ true) ⊎ (idle_of row.now ≢ look) }
    ensures no { result ≡ false → (flag ≡ false) × (idle_of row.now ≡ look) }
{
    if flag {
        return true;
    }
    idle(row) != look
}
