// The whole program, over any outside.
ghost use Rattle.std.specs.Prelude.{◌≡◌, ◌≢◌, ◌≤◌, ℕ, IfOk, IfErr};
ghost use Rattle.command_words.specs.Answers.{IsNoCommand};
ghost use Rattle.command_words.specs.IsCommand.{IsCommand};
ghost use Rattle.command_words.specs.Words.{texts};
ghost use Rattle.outside.specs.Count.{Rose};
ghost use Rattle.outside.specs.Crash.{Passes};
ghost use Rattle.outside.specs.Image.{Same};
ghost use Rattle.outside.specs.World.{Told};
ghost use Rattle.slot_store.specs.OnlyRead.{OnlyRead};
ghost use Rattle.agent_commands.specs.Adopt.{AdoptEnds, AdoptPasses};
ghost use Rattle.agent_commands.specs.Audit.{AgreesWhereItStands, AuditEnds, audits};
ghost use Rattle.agent_commands.specs.Committed.{CommittedEnds};
ghost use Rattle.agent_commands.specs.Control.{max_control, TakesAtMost, TakesExactly};
ghost use Rattle.agent_commands.specs.DemoEnds.{DemoEnds};
ghost use Rattle.agent_commands.specs.Follow.{FollowEnds};
ghost use Rattle.agent_commands.specs.Grows.{GrowsBy};
ghost use Rattle.agent_commands.specs.Headline.{KeepsStanding};
ghost use Rattle.agent_commands.specs.Moment.{meanings, moment};
ghost use Rattle.agent_commands.specs.Once.{OnceEnds};
ghost use Rattle.agent_commands.specs.Pipe.{PipeEnds, pipe_moment};
ghost use Rattle.agent_commands.specs.Status.{IsStatus};
ghost use Rattle.agent_commands.specs.Words.{IsNotRun, IsWordsFault};

use crate::adopt::adopt;
use crate::audit::audit;
use crate::committed::committed;
use crate::demo::show_demo;
use crate::fault::Fault;
use crate::follow::follow;
use crate::once::once;
use crate::pipe::pipe;
use crate::report::refuse;
use command_words::laws::words_spell_one_command;
use command_words::{Command, command_of};
use outside::{Clock, Disk, Sink, Source, Tree};
use std::alloc::{AllocError, Global};

/// Runs the command that the words are, and answers the exit status.
///
/// `control` is the input that `follow` serves and of which `pipe` prints the lines, and `report` the output for summaries and faults.
/// `clock` is read before each poll, and by `pipe` once where the settings ask for the time of its lines.
pub fn run_agent<T: Tree, D: Disk, S: Source, K: Sink, C: Clock>(
    alloc: Global,
    words: &[String],
    tree: &mut T,
    disk: &mut D,
    control: &mut S,
    report: &mut K,
    clock: &mut C,
) -> u8
    ensures answers { IsStatus result }

    // One poll, at one reading of the clock: its course, status by status. Wherever it is stopped, nothing that was kept is lost.
    ensures once { IsCommand (texts words.now) Command.Once
        → OnceEnds (meanings T.meaning D.meaning K.meaning C.meaning) (moment tree.old disk.old report.old clock.old) (moment tree.new disk.new report.new clock.new) result }
    ensures once_crash { IsCommand (texts words.now) Command.Once → Passes D.meaning.images (GrowsBy 1) disk.old disk.new }

    // Polls as control lines ask for them, each at a reading of the clock.
    ensures follow { IsCommand (texts words.now) Command.Follow
        → FollowEnds (meanings T.meaning D.meaning K.meaning C.meaning) (S.meaning.rest control.old) (S.meaning.rest control.new) (moment tree.old disk.old report.old clock.old) (moment tree.new disk.new report.new clock.new) result }

    // The settings file's settings follow those that are kept: by which lines the output grows, and what of each file comes next. Wherever
    // it is stopped, a crash leaves what stood, or that.
    ensures adopt { IsCommand (texts words.now) Command.Adopt
        → AdoptEnds D.meaning.images disk.old disk.new (K.meaning.written report.old) (K.meaning.written report.new) result }
    ensures adopt_crash { IsCommand (texts words.now) Command.Adopt → AdoptPasses D.meaning.images disk.old disk.new }

    // Whether the lines that are kept are those that the files give, and nothing is written. Where what is kept stands for what the
    // files had, no file differs, and few that keep their names are absent.
    ensures audit { IsCommand (texts words.now) Command.Audit
        → AuditEnds T.meaning D.meaning K.meaning (audits tree.old tree.new disk.old report.old report.new) result }
    ensures audit_agrees { IsCommand (texts words.now) Command.Audit
        → Told (AgreesWhereItStands D.meaning.images disk.old result) (T.meaning.world tree.old) (T.meaning.world tree.new) }
    ensures audit_only_read { IsCommand (texts words.now) Command.Audit → OnlyRead D.meaning disk.old disk.new }

    // How much of the output is kept, and nothing is written.
    ensures committed { IsCommand (texts words.now) Command.Committed → CommittedEnds D.meaning K.meaning disk.old report.old report.new result }
    ensures only_read { IsCommand (texts words.now) Command.Committed → OnlyRead D.meaning disk.old disk.new }

    // The lines of the control input, and nothing is written to the disk.
    ensures pipe { IsCommand (texts words.now) Command.Pipe
        → PipeEnds D.meaning C.meaning disk.old (pipe_moment (S.meaning.rest control.old) (K.meaning.written report.old) clock.old) (pipe_moment (S.meaning.rest control.new) (K.meaning.written report.new) clock.new) result }
    ensures pipe_only_read { IsCommand (texts words.now) Command.Pipe → OnlyRead D.meaning disk.old disk.new }

    // A demonstration in memory, in which the disk has no part.
    ensures demo { (rounds : ℕ) → IsCommand (texts words.now) (Command.Demo rounds)
        → DemoEnds rounds (K.meaning.written report.old) (K.meaning.written report.new) result }
    ensures demo_untouched { (rounds : ℕ) → IsCommand (texts words.now) (Command.Demo rounds) → disk.new ≡ disk.old }

    // What stands for the files, stands: whatever others do to them meanwhile, and wherever the command is stopped.
    ensures standing { Told (KeepsStanding D.meaning.images disk.old disk.new) (T.meaning.world tree.old) (T.meaning.world tree.new) }

    // 2: the words are no command. Memory to read them may be wanting (10).
    ensures usage { result ≡ 2 → IsNoCommand (texts words.now) }
    ensures no_command { IsNoCommand (texts words.now) → IsNotRun (texts words.now) result (K.meaning.written report.old) (K.meaning.written report.new) }
    ensures no_command_untouched { IsNoCommand (texts words.now) → disk.new ≡ disk.old }

    // 7, 8 and 9: the disk, the control input or the report failed.
    ensures disk_failed { result ≡ 7 → Rose (D.meaning.faults disk.old) (D.meaning.faults disk.new) }
    ensures disk_stood { result ≢ 7 → D.meaning.faults disk.new ≡ D.meaning.faults disk.old }
    ensures control_failed { result ≡ 8 → Rose (S.meaning.faults control.old) (S.meaning.faults control.new) }
    ensures control_stood { result ≢ 8 → S.meaning.faults control.new ≡ S.meaning.faults control.old }
    ensures report_failed { result ≡ 9 → Rose (K.meaning.faults report.old) (K.meaning.faults report.new) }
    ensures report_stood { result ≡ 0 → K.meaning.faults report.new ≡ K.meaning.faults report.old }

    // 15: so many control bytes were taken as may be, which are never passed.
    ensures control_long { result ≡ 15 → Told (TakesExactly max_control) (S.meaning.rest control.old) (S.meaning.rest control.new) }
    ensures control_taken { Told (TakesAtMost max_control) (S.meaning.rest control.old) (S.meaning.rest control.new) }

    // Only what a command is for is touched.
    ensures control_untouched { (IsCommand (texts words.now) Command.Follow → ⊥) → (IsCommand (texts words.now) Command.Pipe → ⊥) → control.new ≡ control.old }
    ensures tree_untouched { (IsCommand (texts words.now) Command.Once → ⊥) → (IsCommand (texts words.now) Command.Follow → ⊥) → (IsCommand (texts words.now) Command.Audit → ⊥) → tree.new ≡ tree.old }
    ensures clock_untouched { (IsCommand (texts words.now) Command.Once → ⊥) → (IsCommand (texts words.now) Command.Follow → ⊥) → (IsCommand (texts words.now) Command.Pipe → ⊥) → clock.new ≡ clock.old }
{
    words_spell_one_command();
    match command_for(alloc, words) {
        Ok(command) => run(alloc, command, tree, disk, control, report, clock),
        Err(fault) => refuse(alloc, fault, report),
    }
}

// The command that the words spell.
fn command_for(alloc: Global, words: &[String]) -> Result<Command, Fault>
    ensures command { IfOk result (IsCommand (texts words.now)) }
    ensures fault { IfErr result (IsWordsFault (texts words.now)) }
{
    match command_of(alloc, words) {
        Ok(Some(command)) => Ok(command),
        Ok(None) => Err(Fault::Usage),
        Err(AllocError) => Err(Fault::Memory),
    }
}

// Runs a command, and answers the exit status.
fn run<T: Tree, D: Disk, S: Source, K: Sink, C: Clock>(
    alloc: Global,
    command: Command,
    tree: &mut T,
    disk: &mut D,
    control: &mut S,
    report: &mut K,
    clock: &mut C,
) -> u8
    requires { (rounds : ℕ) → command ≡ Command.Demo rounds → rounds ≤ 1000 }
    ensures answers { IsStatus result }
    ensures no_usage { result ≡ 2 → ⊥ }
    ensures once { command ≡ Command.Once
        → OnceEnds (meanings T.meaning D.meaning K.meaning C.meaning) (moment tree.old disk.old report.old clock.old) (moment tree.new disk.new report.new clock.new) result }
    ensures once_crash { command ≡ Command.Once → Passes D.meaning.images (GrowsBy 1) disk.old disk.new }
    ensures follow { command ≡ Command.Follow
        → FollowEnds (meanings T.meaning D.meaning K.meaning C.meaning) (S.meaning.rest control.old) (S.meaning.rest control.new) (moment tree.old disk.old report.old clock.old) (moment tree.new disk.new report.new clock.new) result }
    ensures adopt { command ≡ Command.Adopt
        → AdoptEnds D.meaning.images disk.old disk.new (K.meaning.written report.old) (K.meaning.written report.new) result }
    ensures adopt_crash { command ≡ Command.Adopt → AdoptPasses D.meaning.images disk.old disk.new }
    ensures audit { command ≡ Command.Audit → AuditEnds T.meaning D.meaning K.meaning (audits tree.old tree.new disk.old report.old report.new) result }
    ensures audit_agrees { command ≡ Command.Audit
        → Told (AgreesWhereItStands D.meaning.images disk.old result) (T.meaning.world tree.old) (T.meaning.world tree.new) }
    ensures audit_only_read { command ≡ Command.Audit → OnlyRead D.meaning disk.old disk.new }
    ensures committed { command ≡ Command.Committed → CommittedEnds D.meaning K.meaning disk.old report.old report.new result }
    ensures only_read { command ≡ Command.Committed → OnlyRead D.meaning disk.old disk.new }
    ensures pipe { command ≡ Command.Pipe
        → PipeEnds D.meaning C.meaning disk.old (pipe_moment (S.meaning.rest control.old) (K.meaning.written report.old) clock.old) (pipe_moment (S.meaning.rest control.new) (K.meaning.written report.new) clock.new) result }
    ensures pipe_only_read { command ≡ Command.Pipe → OnlyRead D.meaning disk.old disk.new }
    ensures demo { (rounds : ℕ) → command ≡ Command.Demo rounds → DemoEnds rounds (K.meaning.written report.old) (K.meaning.written report.new) result }
    ensures demo_untouched { (rounds : ℕ) → command ≡ Command.Demo rounds → disk.new ≡ disk.old }
    ensures standing { Told (KeepsStanding D.meaning.images disk.old disk.new) (T.meaning.world tree.old) (T.meaning.world tree.new) }
    ensures disk_failed { result ≡ 7 → Rose (D.meaning.faults disk.old) (D.meaning.faults disk.new) }
    ensures disk_stood { result ≢ 7 → D.meaning.faults disk.new ≡ D.meaning.faults disk.old }
    ensures control_failed { result ≡ 8 → Rose (S.meaning.faults control.old) (S.meaning.faults control.new) }
    ensures control_stood { result ≢ 8 → S.meaning.faults control.new ≡ S.meaning.faults control.old }
    ensures report_failed { result ≡ 9 → Rose (K.meaning.faults report.old) (K.meaning.faults report.new) }
    ensures report_stood { result ≡ 0 → K.meaning.faults report.new ≡ K.meaning.faults report.old }
    ensures control_long { result ≡ 15 → Told (TakesExactly max_control) (S.meaning.rest control.old) (S.meaning.rest control.new) }
    ensures control_taken { Told (TakesAtMost max_control) (S.meaning.rest control.old) (S.meaning.rest control.new) }
    ensures control_untouched { command ≢ Command.Follow → command ≢ Command.Pipe → control.new ≡ control.old }
    ensures tree_untouched { command ≢ Command.Once → command ≢ Command.Follow → command ≢ Command.Audit → tree.new ≡ tree.old }
    ensures clock_untouched { command ≢ Command.Once → command ≢ Command.Follow → command ≢ Command.Pipe → clock.new ≡ clock.old }
{
    match command {
        Command::Once => once(alloc, tree, disk, report, clock),
        Command::Follow => follow(alloc, tree, disk, control, report, clock),
        Command::Adopt => adopt(alloc, disk, report),
        Command::Audit => audit(alloc, tree, disk, report),
        Command::Committed => committed(alloc, disk, report),
        Command::Pipe => pipe(alloc, disk, control, report, clock),
        Command::Demo(rounds) => show_demo(alloc, rounds, report),
    }
}
