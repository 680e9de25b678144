// The command `audit`.
ghost use Rattle.std.specs.Prelude.{◌≡◌, ◌≢◌};
ghost use Rattle.file_pass.specs.TreeTerms.{GoesLater};
ghost use Rattle.outside.specs.Count.{Rose};
ghost use Rattle.outside.specs.World.{Told};
ghost use Rattle.slot_store.specs.OnlyRead.{OnlyRead};
ghost use Rattle.agent_commands.specs.Audit.{AgreesWhereItStands, AuditEnds, audits};

use crate::fault::Fault;
use crate::report::{refuse, report_audited};
use folder_audit::audit as audit_folder;
use folder_audit::laws::no_row_that_stands_differs;
use outside::{CallFault, Disk, Sink, Tree};
use std::alloc::Global;

/// Reports whether the lines that are kept are those that the files give, and answers the exit status. Nothing is written to the
/// disk.
pub fn audit<T: Tree, D: Disk, K: Sink>(
    alloc: Global,
    tree: &mut T,
    disk: &mut D,
    report: &mut K,
) -> u8
    ensures ends { AuditEnds T.meaning D.meaning K.meaning (audits tree.old tree.new disk.old report.old report.new) result }
    ensures agrees { Told (AgreesWhereItStands D.meaning.images disk.old result) (T.meaning.world tree.old) (T.meaning.world tree.new) }
    ensures later { Told GoesLater (T.meaning.world tree.old) (T.meaning.world tree.new) }
    ensures only_read { OnlyRead D.meaning disk.old disk.new }
    ensures disk_failed { result ≡ 7 → Rose (D.meaning.faults disk.old) (D.meaning.faults disk.new) }
    ensures disk_stood { result ≢ 7 → D.meaning.faults disk.new ≡ D.meaning.faults disk.old }
    ensures report_failed { result ≡ 9 → Rose (K.meaning.faults report.old) (K.meaning.faults report.new) }
    ensures report_stood { result ≡ 0 → K.meaning.faults report.new ≡ K.meaning.faults report.old }
{
    no_row_that_stands_differs();
    let audited = match audit_folder(alloc, tree, disk) {
        Ok(audited) => audited,
        Err(fault) => return refuse(alloc, Fault::from(fault), report),
    };
    match report_audited(alloc, &audited, report) {
        Ok(()) => 0,
        Err(CallFault::Failed) => 9,
        Err(CallFault::Memory) => 10,
    }
}
