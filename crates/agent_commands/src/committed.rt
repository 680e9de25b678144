// The command `committed`.
ghost use Rattle.std.specs.Prelude.{◌≡◌, ◌≢◌, IfOk, IfErr};
ghost use Rattle.checkpoint_journal.specs.JournalCause.{HasJournalCause};
ghost use Rattle.outside.specs.Count.{Rose};
ghost use Rattle.slot_store.specs.OnlyRead.{OnlyRead};
ghost use Rattle.agent_commands.specs.Committed.{CommittedEnds, IsKept, IsReadingFault};

use crate::fault::Fault;
use crate::report::{refuse, report_length};
use checkpoint_journal::{JournalFault, peek};
use outside::{CallFault, Disk, Sink};
use std::alloc::Global;

/// Reports how many bytes of the output are kept, and answers the exit status. Nothing is written to the disk.
pub fn committed<D: Disk, K: Sink>(alloc: Global, disk: &mut D, report: &mut K) -> u8
    ensures ends { CommittedEnds D.meaning K.meaning disk.old report.old report.new result }
    ensures only_read { OnlyRead D.meaning disk.old disk.new }
    ensures disk_failed { result ≡ 7 → Rose (D.meaning.faults disk.old) (D.meaning.faults disk.new) }
    ensures disk_stood { result ≢ 7 → D.meaning.faults disk.new ≡ D.meaning.faults disk.old }
    ensures report_failed { result ≡ 9 → Rose (K.meaning.faults report.old) (K.meaning.faults report.new) }
    ensures report_stood { result ≡ 0 → K.meaning.faults report.new ≡ K.meaning.faults report.old }
{
    let size = match kept_length(alloc, disk) {
        Ok(size) => size,
        Err(fault) => return refuse(alloc, Fault::from(fault), report),
    };
    match report_length(alloc, size, report) {
        Ok(()) => 0,
        Err(CallFault::Failed) => 9,
        Err(CallFault::Memory) => 10,
    }
}

// How many bytes of the output the checkpoint keeps, and 0 where there is none.
fn kept_length<D: Disk>(alloc: Global, disk: &mut D) -> Result<u64, JournalFault>
    ensures kept { IfOk result (IsKept D.meaning.images disk.old) }
    ensures fault { IfErr result (IsReadingFault D.meaning.images disk.old) }
    ensures only_read { OnlyRead D.meaning disk.old disk.new }
    ensures cause { HasJournalCause result (D.meaning.faults disk.old) (D.meaning.faults disk.new) }
{
    match peek(alloc, disk)? {
        Some((_, checkpoint)) => Ok(checkpoint.output_length),
        None => Ok(0),
    }
}
