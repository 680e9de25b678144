// The command `demo`.
ghost use Rattle.std.specs.Prelude.{◌≡◌, ◌≤◌};
ghost use Rattle.outside.specs.Count.{Rose};
ghost use Rattle.agent_commands.specs.DemoEnds.{DemoEnds};

use crate::fault::Fault;
use crate::report::{refuse, report_demo};
use demo_run::play_rounds;
use outside::{CallFault, Sink};
use std::alloc::{AllocError, Global};

/// Plays so many rounds in memory and reports what they show, and answers the exit status.
pub fn show_demo<K: Sink>(alloc: Global, rounds: u16, report: &mut K) -> u8
    requires { rounds ≤ 1000 }
    ensures ends { DemoEnds rounds (K.meaning.written report.old) (K.meaning.written report.new) result }
    ensures report_failed { result ≡ 9 → Rose (K.meaning.faults report.old) (K.meaning.faults report.new) }
    ensures report_stood { result ≡ 0 → K.meaning.faults report.new ≡ K.meaning.faults report.old }
{
    let shown = match play_rounds(alloc, rounds) {
        Ok(shown) => shown,
        Err(AllocError) => return refuse(alloc, Fault::Memory, report),
    };
    match report_demo(alloc, &shown, report) {
        Ok(()) => 0,
        Err(CallFault::Failed) => 9,
        Err(CallFault::Memory) => 10,
    }
}
