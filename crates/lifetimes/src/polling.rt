// Polls in a script.
ghost use Rattle.std.specs.Prelude.{◌≡◌, Some, false, IfOk, IfErr, IfSome, OnOk};
ghost use Rattle.lifetimes.specs.Inner.Answered.{next_of};
ghost use Rattle.lifetimes.specs.Ended.{history_of};
ghost use Rattle.lifetimes.specs.Inner.Past.{GoesOn, IsDiskAt, IsReady, IsTreeAt, IsTreePolled, MayPoll, Past, Waits, dropped, polled};
ghost use Rattle.lifetimes.specs.Script.{is_early};
ghost use Rattle.lifetimes.specs.Stopped.{IsStopped, halt_of};
ghost use Rattle.standing.specs.Rules.{Rules};

use crate::ScriptFault;
use crate::devices::{disk_keeps_its_terms, tree_keeps_its_terms};
use crate::stopping::{Stopping, crash};
use mem_world::{MemDisk, MemTree};
use poll_core::laws::settings_give_one_set_of_rules;
use poll_core::{PollFault, Session, Summary};
use std::alloc::Global;

// The next session, or none where the poll is refused. The steps and the failures that the poll didn't reach are dropped.
pub(crate) fn poll_through(
    alloc: Global,
    tree: &mut MemTree,
    disk: &mut MemDisk,
    session: Session,
) -> Result<Option<Session>, ScriptFault>
    requires { IsReady session disk.old }
    ensures ready { IfOk result (λ next. IfSome next (λ session. IsReady session disk.new)) }
    ensures tree { (waits : Waits) → IsTreeAt waits.plan waits.tree tree.old → IsTreePolled waits tree.old tree.new }
    ensures disk { OnOk result ((rules : Rules) (waits : Waits) (past : Past) → MayPoll rules waits past session tree.old disk.old
        → IsDiskAt rules (polled past (history_of tree.new) false) (dropped waits.disk) disk.new) }
    ensures goes_on { IfOk result (λ next. (rules : Rules) (waits : Waits) (past : Past)
        → MayPoll rules waits past session tree.old disk.old → GoesOn rules waits (history_of tree.new) disk.new next) }
    ensures memory { IfErr result (λ fault. fault ≡ ScriptFault.Memory) }
{
    settings_give_one_set_of_rules();
    let polled = session.poll(alloc, tree, disk);
    tree_keeps_its_terms(tree);
    disk_keeps_its_terms(disk);
    tree.clear_plans();
    disk.clear_plans();
    next_of(polled)
}

// Whatever the poll answers, a crash ends it.
pub(crate) fn poll_stopped(
    alloc: Global,
    tree: &mut MemTree,
    disk: &mut MemDisk,
    session: Session,
    stopping: Stopping,
) -> Result<(), ScriptFault>
    requires { IsReady session disk.old }
    ensures tree { (waits : Waits) → IsTreeAt waits.plan waits.tree tree.old → IsTreePolled waits tree.old tree.new }
    ensures disk { OnOk result ((rules : Rules) (waits : Waits) (past : Past) → MayPoll rules waits past session tree.old disk.old
        → IsDiskAt rules (polled past (history_of tree.new) (is_early (Some (halt_of stopping)))) (dropped waits.disk) disk.new) }
    ensures stopped { OnOk result (IsStopped (halt_of stopping) disk.old disk.new) }
    ensures memory { IfErr result (λ fault. fault ≡ ScriptFault.Memory) }
{
    disk.fuse(stopping.calls);
    let polled = session.poll(alloc, tree, disk);
    tree_keeps_its_terms(tree);
    disk_keeps_its_terms(disk);
    tree.clear_plans();
    next_of(polled)?;
    crash(alloc, disk, stopping.outcome)?;
    Ok(())
}

// What the script goes on with after a poll.
fn next_of(polled: Result<(Session, Summary), PollFault>) -> Result<Option<Session>, ScriptFault>
    ensures value { result ≡ next_of polled }
    ensures memory { IfErr result (λ fault. fault ≡ ScriptFault.Memory) }
{
    match polled {
        Ok((next, _)) => Ok(Some(next)),
        Err(PollFault::Memory) => Err(ScriptFault::Memory),
        Err(_) => Ok(None),
    }
}
