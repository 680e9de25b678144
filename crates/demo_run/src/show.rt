// The demonstration.
ghost use Rattle.std.specs.Prelude.{◌≤◌, IfOk};
ghost use Rattle.demo_run.specs.Shown.{IsDemo};

use crate::ending::kept_on;
use crate::playing::script_of;
use lifetimes::run_script;
use poll_core::laws::settings_give_one_set_of_rules;
use std::alloc::{AllocError, Global};

const SETTINGS: &[u8] = b"{\"include\":[\"d*.log*\"],\"start_at\":\"beginning\"}";

/// What a demonstration shows.
#[derive(Clone, Copy, Debug)]
pub struct Demo {
    pub rounds: u16,
    /// How many polls there were, those that were stopped too.
    pub polls: u64,
    /// How many of them were stopped.
    pub stops: u64,
    /// How many files are known at the end.
    pub files: u64,
    /// How many lines are kept of the output, and how many bytes these have.
    pub lines: u64,
    pub output: u64,
}

/// Plays so many rounds in memory.
pub fn play_rounds(alloc: Global, rounds: u16) -> Result<Demo, AllocError>
    requires { rounds ≤ 1000 }
    ensures { IfOk result (IsDemo rounds) }
{
    settings_give_one_set_of_rules();
    let script = script_of(alloc, rounds)?;
    let mut ending = match run_script(alloc, SETTINGS, &script) {
        Ok(ending) => ending,
        Err(_) => return Err(AllocError),
    };
    let kept = kept_on(alloc, &mut ending.disk)?;
    Ok(Demo {
        rounds,
        polls: ending.polls,
        stops: ending.stops,
        files: kept.files,
        lines: kept.lines,
        output: kept.output,
    })
}
