// One poll of a command at a reading of the clock, and its report.
ghost use Rattle.std.specs.Prelude.{◌≡◌, ◌≢◌, Err, Some, IfOk, IfErr};
ghost use Rattle.file_pass.specs.Moment as pass;
ghost use Rattle.file_pass.specs.TreeTerms.{GoesLater};
ghost use Rattle.outside.specs.Count.{Rose};
ghost use Rattle.outside.specs.Crash.{Passes};
ghost use Rattle.outside.specs.World.{Told, World};
ghost use Rattle.poll_core.specs.IsSession.{IsSession};
ghost use Rattle.poll_core.specs.PollCause.{HasPollCause};
ghost use Rattle.poll_core.specs.Polled.{Polled};
ghost use Rattle.poll_core.specs.SessionParts.{rules_of_session, checkpoint_of_session};
ghost use Rattle.poll_core.specs.Since.{KeepsStandingSince};
ghost use Rattle.poll_core.specs.StandsOn.{StandsOn};
ghost use Rattle.agent_commands.specs.Grows.{GrowsBy};
ghost use Rattle.agent_commands.specs.Headline.{HoldsAll, KeepsFrom, StoodSince};
ghost use Rattle.agent_commands.specs.Moment.{Moment, meanings, moment};
ghost use Rattle.agent_commands.specs.Turn.{IsAtReading, IsPollFault, IsTurnStatus, Stops, Turns};

use crate::fault::Fault;
use crate::report::{refuse, report_summary};
use outside::{CallFault, Clock, Disk, Sink, Tree};
use poll_core::laws::{
    a_complete_poll_reaches_all, a_session_polls_by_rules, settings_give_one_set_of_rules,
};
use poll_core::{PollFault, Session, Summary};
use std::alloc::Global;

/// Reads the clock, makes a poll at its time and reports it. On Ok the session goes on; on Err the command ends with this status.
pub fn turn<T: Tree, D: Disk, K: Sink, C: Clock>(
    alloc: Global,
    session: Session,
    tree: &mut T,
    disk: &mut D,
    report: &mut K,
    clock: &mut C,
) -> Result<Session, u8>
    requires session { IsSession session }
    requires stands { StandsOn D.meaning.images session disk.old }
    ensures session { IfOk result IsSession }
    ensures turns { IfOk result (λ next. (begun : Moment T D K C) → KeepsFrom (meanings T.meaning D.meaning K.meaning C.meaning) (rules_of_session session) begun (moment tree.old disk.old report.old clock.old)
        → Turns (meanings T.meaning D.meaning K.meaning C.meaning) session begun next (moment tree.old disk.old report.old clock.old) (moment tree.new disk.new report.new clock.new)) }
    ensures stops { IfErr result (λ status. Stops (meanings T.meaning D.meaning K.meaning C.meaning) session status (moment tree.old disk.old report.old clock.old) (moment tree.new disk.new report.new clock.new)) }
    ensures crash { Passes D.meaning.images (GrowsBy 1) disk.old disk.new }
    ensures standing { Told (KeepsStandingSince D.meaning.images (rules_of_session session) disk.old disk.new) (T.meaning.world tree.old) (T.meaning.world tree.new) }
    ensures later { Told GoesLater (T.meaning.world tree.old) (T.meaning.world tree.new) }
    ensures disk_failed { result ≡ Err 7 → Rose (D.meaning.faults disk.old) (D.meaning.faults disk.new) }
    ensures disk_stood { result ≢ Err 7 → D.meaning.faults disk.new ≡ D.meaning.faults disk.old }
    ensures report_failed { result ≡ Err 9 → Rose (K.meaning.faults report.old) (K.meaning.faults report.new) }
    ensures report_stood { IfOk result (λ next. K.meaning.faults report.new ≡ K.meaning.faults report.old) }
    ensures answers { IfErr result IsTurnStatus }
{
    let session = at_reading(session, clock);
    let (next, summary) = match poll(alloc, session, tree, disk) {
        Ok(done) => done,
        Err(fault) => return Err(refuse(alloc, Fault::from(fault), report)),
    };
    match report_summary(alloc, &summary, report) {
        Ok(()) => Ok(next),
        Err(CallFault::Failed) => Err(9),
        Err(CallFault::Memory) => Err(10),
    }
}

// The session at the time that the clock gives.
fn at_reading<C: Clock>(session: Session, clock: &mut C) -> Session
    ensures session { IsSession session → IsSession result }
    ensures at { IsAtReading C.meaning session result clock.old clock.new }
{
    let mut session = session;
    session.at(clock.now());
    session
}

// Makes a poll.
fn poll<T: Tree, D: Disk>(
    alloc: Global,
    session: Session,
    tree: &mut T,
    disk: &mut D,
) -> Result<(Session, Summary), PollFault>
    requires session { IsSession session }
    requires stands { StandsOn D.meaning.images session disk.old }
    ensures session { IfOk result (λ done. IsSession done.0) }
    ensures polled { IfOk result (λ done. Polled (pass.meanings T.meaning D.meaning) session done.0 done.1 (pass.moment tree.old disk.old) (pass.moment tree.new disk.new)) }
    ensures whole { IfOk result (λ done. (first : World) → T.meaning.world tree.old ≡ Some first
        → Told (HoldsAll session (checkpoint_of_session done.0) done.1 (StoodSince D.meaning.images first.history disk.old disk.old))
        (T.meaning.world tree.old) (T.meaning.world tree.new)) }
    ensures fault { IfErr result (IsPollFault T.meaning session tree.old tree.new) }
    ensures crash { Passes D.meaning.images (GrowsBy 1) disk.old disk.new }
    ensures standing { Told (KeepsStandingSince D.meaning.images (rules_of_session session) disk.old disk.new) (T.meaning.world tree.old) (T.meaning.world tree.new) }
    ensures later { Told GoesLater (T.meaning.world tree.old) (T.meaning.world tree.new) }
    ensures cause { HasPollCause result (D.meaning.faults disk.old) (D.meaning.faults disk.new) }
{
    settings_give_one_set_of_rules();
    a_session_polls_by_rules(&session);
    a_complete_poll_reaches_all();
    let done = session.poll(alloc, tree, disk)?;
    Ok(done)
}
