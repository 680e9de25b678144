// The command `once`.
ghost use Rattle.std.specs.Prelude.{◌≡◌, ◌≢◌};
ghost use Rattle.outside.specs.Count.{Rose};
ghost use Rattle.outside.specs.Crash.{Passes};
ghost use Rattle.outside.specs.World.{Told};
ghost use Rattle.agent_commands.specs.Grows.{GrowsBy};
ghost use Rattle.agent_commands.specs.Headline.{KeepsStanding};
ghost use Rattle.agent_commands.specs.Moment.{meanings, moment};
ghost use Rattle.agent_commands.specs.Once.{OnceEnds};

use crate::fault::Fault;
use crate::opening::open_session;
use crate::report::refuse;
use crate::turn::turn;
use outside::{Clock, Disk, Sink, Tree};
use std::alloc::Global;

/// Opens a session, makes one poll and reports it, and answers the exit status.
pub fn once<T: Tree, D: Disk, K: Sink, C: Clock>(
    alloc: Global,
    tree: &mut T,
    disk: &mut D,
    report: &mut K,
    clock: &mut C,
) -> u8
    ensures ends { OnceEnds (meanings T.meaning D.meaning K.meaning C.meaning) (moment tree.old disk.old report.old clock.old) (moment tree.new disk.new report.new clock.new) result }
    ensures crash { Passes D.meaning.images (GrowsBy 1) disk.old disk.new }
    ensures standing { Told (KeepsStanding D.meaning.images disk.old disk.new) (T.meaning.world tree.old) (T.meaning.world tree.new) }
    ensures disk_failed { result ≡ 7 → Rose (D.meaning.faults disk.old) (D.meaning.faults disk.new) }
    ensures disk_stood { result ≢ 7 → D.meaning.faults disk.new ≡ D.meaning.faults disk.old }
    ensures report_failed { result ≡ 9 → Rose (K.meaning.faults report.old) (K.meaning.faults report.new) }
    ensures report_stood { result ≡ 0 → K.meaning.faults report.new ≡ K.meaning.faults report.old }
{
    let session = match open_session(alloc, disk) {
        Ok(session) => session,
        Err(fault) => return refuse(alloc, Fault::from(fault), report),
    };
    if let Err(status) = turn(alloc, session, tree, disk, report, clock) {
        return status;
    }
    0
}
