// The command `follow`.
ghost use Rattle.std.specs.Prelude.{◌≡◌, ◌≢◌, ◌↔◌, ℕ, Ok, IsTrue};
ghost use Rattle.file_pass.specs.TreeTerms.{GoesLater};
ghost use Rattle.outside.specs.Count.{Rose};
ghost use Rattle.outside.specs.Crash.{Passes};
ghost use Rattle.outside.specs.World.{Told};
ghost use Rattle.poll_core.specs.IsSession.{IsSession};
ghost use Rattle.poll_core.specs.SessionParts.{rules_of_session};
ghost use Rattle.poll_core.specs.Since.{KeepsStandingSince};
ghost use Rattle.poll_core.specs.StandsOn.{StandsOn};
ghost use Rattle.agent_commands.specs.Control.{max_control, TakesAtMost, TakesExactly};
ghost use Rattle.agent_commands.specs.Follow.{FollowEnds, IsServed, StopsAt};
ghost use Rattle.agent_commands.specs.Headline.{KeepsFrom, KeepsStanding};
ghost use Rattle.agent_commands.specs.Moment.{Moment, meanings, moment};

use crate::control::{Request, next_request};
use crate::fault::Fault;
use crate::opening::open_session;
use crate::report::refuse;
use crate::turn::turn;
use outside::{Clock, Disk, Failed, Sink, Source, Tree};
use poll_core::Session;
use std::alloc::Global;

/// The most bytes of all control lines.
const MAX_CONTROL: u64 = 1 << 40;

/// Opens a session, serves the control lines, and answers the exit status.
pub fn follow<T: Tree, D: Disk, S: Source, K: Sink, C: Clock>(
    alloc: Global,
    tree: &mut T,
    disk: &mut D,
    control: &mut S,
    report: &mut K,
    clock: &mut C,
) -> u8
    ensures ends { FollowEnds (meanings T.meaning D.meaning K.meaning C.meaning) (S.meaning.rest control.old) (S.meaning.rest control.new) (moment tree.old disk.old report.old clock.old) (moment tree.new disk.new report.new clock.new) result }
    ensures standing { Told (KeepsStanding D.meaning.images disk.old disk.new) (T.meaning.world tree.old) (T.meaning.world tree.new) }
    ensures control_failed { result ≡ 8 → Rose (S.meaning.faults control.old) (S.meaning.faults control.new) }
    ensures control_stood { result ≢ 8 → S.meaning.faults control.new ≡ S.meaning.faults control.old }
    ensures disk_failed { result ≡ 7 → Rose (D.meaning.faults disk.old) (D.meaning.faults disk.new) }
    ensures disk_stood { result ≢ 7 → D.meaning.faults disk.new ≡ D.meaning.faults disk.old }
    ensures report_failed { result ≡ 9 → Rose (K.meaning.faults report.old) (K.meaning.faults report.new) }
    ensures report_stood { result ≡ 0 → K.meaning.faults report.new ≡ K.meaning.faults report.old }
    ensures taken { Told (TakesAtMost max_control) (S.meaning.rest control.old) (S.meaning.rest control.new) }
    ensures control_long { result ≡ 15 → Told (TakesExactly max_control) (S.meaning.rest control.old) (S.meaning.rest control.new) }
{
    let session = match open_session(alloc, disk) {
        Ok(session) => session,
        Err(fault) => return refuse(alloc, Fault::from(fault), report),
    };
    serve(alloc, session, tree, disk, control, report, clock)
}

// Serves control lines, until one of them ends the command.
fn serve<T: Tree, D: Disk, S: Source, K: Sink, C: Clock>(
    alloc: Global,
    session: Session,
    tree: &mut T,
    disk: &mut D,
    control: &mut S,
    report: &mut K,
    clock: &mut C,
) -> u8
    requires session { IsSession session }
    requires stands { StandsOn D.meaning.images session disk.old }
    ensures served { (begun : Moment T D K C) → KeepsFrom (meanings T.meaning D.meaning K.meaning C.meaning) (rules_of_session session) begun (moment tree.old disk.old report.old clock.old)
        → IsServed (meanings T.meaning D.meaning K.meaning C.meaning) begun session (S.meaning.rest control.old) (S.meaning.rest control.new) (moment tree.old disk.old report.old clock.old) (moment tree.new disk.new report.new clock.new) result }
    ensures standing { Told (KeepsStandingSince D.meaning.images (rules_of_session session) disk.old disk.new) (T.meaning.world tree.old) (T.meaning.world tree.new) }
    ensures control_failed { result ≡ 8 → Rose (S.meaning.faults control.old) (S.meaning.faults control.new) }
    ensures control_stood { result ≢ 8 → S.meaning.faults control.new ≡ S.meaning.faults control.old }
    ensures disk_failed { result ≡ 7 → Rose (D.meaning.faults disk.old) (D.meaning.faults disk.new) }
    ensures disk_stood { result ≢ 7 → D.meaning.faults disk.new ≡ D.meaning.faults disk.old }
    ensures report_failed { result ≡ 9 → Rose (K.meaning.faults report.old) (K.meaning.faults report.new) }
    ensures report_stood { result ≡ 0 → K.meaning.faults report.new ≡ K.meaning.faults report.old }
    ensures taken { Told (TakesAtMost max_control) (S.meaning.rest control.old) (S.meaning.rest control.new) }
    ensures control_long { result ≡ 15 → Told (TakesExactly max_control) (S.meaning.rest control.old) (S.meaning.rest control.new) }
{
    let mut session = session;
    let mut left = MAX_CONTROL;
    let mut number = 1;
    loop {
        let request = next_request(control, &mut left);
        if !is_poll(request) {
            return stop(alloc, request, number, report);
        }
        session = match turn(alloc, session, tree, disk, report, clock) {
            Ok(next) => next,
            Err(status) => return status,
        };
        number += 1;
    }
}

fn is_poll(request: Result<Request, Failed>) -> bool
    ensures { IsTrue result ↔ (request ≡ Ok Request.Poll) }
{
    matches!(request, Ok(Request::Poll))
}

// Ends the command at this request, which asks for no poll.
fn stop<K: Sink>(alloc: Global, request: Result<Request, Failed>, number: u64, report: &mut K) -> u8
    requires { request ≢ Ok Request.Poll }
    ensures stops { StopsAt request number result (K.meaning.written report.old) (K.meaning.written report.new) }
    ensures stood { result ≡ 0 → report.new ≡ report.old }
{
    match request {
        Ok(Request::Poll | Request::Quit | Request::End) => 0,
        Ok(Request::Faulty) => refuse(alloc, Fault::ControlLine { number }, report),
        Ok(Request::Exhausted) => refuse(alloc, Fault::ControlLong, report),
        Err(Failed) => refuse(alloc, Fault::Control, report),
    }
}
