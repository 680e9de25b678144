// The command `adopt`.
ghost use Rattle.std.specs.Prelude.{◌≡◌, ◌≢◌};
ghost use Rattle.outside.specs.Count.{Rose};
ghost use Rattle.outside.specs.World.{History};
ghost use Rattle.poll_core.specs.Adopting.{KeepsStandingIn};
ghost use Rattle.agent_commands.specs.Adopt.{AdoptEnds, AdoptPasses};

use crate::fault::Fault;
use crate::opening::read_settings;
use crate::report::{refuse, report_adopted};
use checkpoint_store::OUTPUT_LIMIT;
use outside::{CallFault, Disk, Sink};
use poll_core::Session;
use std::alloc::Global;

/// Has the settings file's settings follow those that are kept, reports it, and answers the exit status.
pub fn adopt<D: Disk, K: Sink>(alloc: Global, disk: &mut D, report: &mut K) -> u8
    ensures ends { AdoptEnds D.meaning.images disk.old disk.new (K.meaning.written report.old) (K.meaning.written report.new) result }
    ensures crash { AdoptPasses D.meaning.images disk.old disk.new }
    ensures standing { (history : History) → KeepsStandingIn D.meaning.images history disk.old disk.new }
    ensures disk_failed { result ≡ 7 → Rose (D.meaning.faults disk.old) (D.meaning.faults disk.new) }
    ensures disk_stood { result ≢ 7 → D.meaning.faults disk.new ≡ D.meaning.faults disk.old }
    ensures report_failed { result ≡ 9 → Rose (K.meaning.faults report.old) (K.meaning.faults report.new) }
    ensures report_stood { result ≡ 0 → K.meaning.faults report.new ≡ K.meaning.faults report.old }
{
    let settings = match read_settings(alloc, disk) {
        Ok(settings) => settings,
        Err(fault) => return refuse(alloc, Fault::from(fault), report),
    };
    let adopted = match Session::adopt(alloc, disk, &settings, OUTPUT_LIMIT) {
        Ok(adopted) => adopted,
        Err(refused) => return refuse(alloc, Fault::from(refused), report),
    };
    match report_adopted(alloc, &adopted, report) {
        Ok(()) => 0,
        Err(CallFault::Failed) => 9,
        Err(CallFault::Memory) => 10,
    }
}
