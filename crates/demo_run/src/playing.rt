// The script, round by round.
ghost use Rattle.std.specs.Prelude.{◌≡◌, ◌<◌, ◌≤◌, ◌+◌, ◌%◌, map, Some, IfOk, OnOk};
ghost use Rattle.demo_run.specs.Moves.{move_of, poll, reopen, step, stop};
ghost use Rattle.demo_run.specs.Inner.Playing.{IsPlaying};
ghost use Rattle.demo_run.specs.Script.{Played, line_of, log_name, log_of, played, rotated_name, script, with_file, with_line, with_move, with_other_name, with_round, with_stop};
ghost use Rattle.mem_world.specs.WorldSteps.{event_of};

use entry_model::Text;
use lifetimes::Event;
use mem_world::{FileName, WorldStep};
use std::alloc::{AllocError, Global};

// How many logs there are.
const LOGS: u32 = 3;

// The script so far.
#[derive(Drop)]
struct Playing {
    events: Vec<Event>,
    // For each log the number of the file that has its name now.
    files: [Option<u32>; 3],
    next_file: u32,
}

/// The script of so many rounds.
pub(crate) fn script_of(alloc: Global, rounds: u16) -> Result<Vec<Event>, AllocError>
    ensures { IfOk result (λ events. map move_of events.items ≡ script rounds) }
{
    let mut playing = Playing::new(alloc)?;
    let mut round = 0u32;
    while round < u32::from(rounds) {
        round += 1;
        playing.play(alloc, round)?;
    }
    Ok(playing.events)
}

impl Playing {
    fn new(alloc: Global) -> Result<Playing, AllocError>
        ensures begins { IfOk result (IsPlaying (played 0)) }
        ensures first { IfOk result (λ playing. playing.next_file ≡ 1) }
    {
        let mut events = Vec::new(alloc);
        events.push(Event::Reopen)?;
        Ok(Playing {
            events,
            files: [None; 3],
            next_file: 1,
        })
    }

    // One round.
    fn play(&mut self, alloc: Global, round: u32) -> Result<(), AllocError>
        requires few { self.old.next_file ≤ round }
        requires in_range { round ≤ 65535 }
        ensures few { OnOk result (self.new.next_file ≤ round + 1) }
        ensures plays { OnOk result ((played : Played) → IsPlaying played self.old → IsPlaying (with_round round played) self.new) }
    {
        let file = self.log_file(alloc, round)?;
        self.write_line(alloc, round, file)?;
        if round % 10 == 0 {
            self.rotate(alloc, round)?;
        }
        if round % 7 == 0 {
            self.stop(round)?;
        }
        self.push(Event::Poll)?;
        Ok(())
    }

    // The file of the round's log, which is made where there is none.
    fn log_file(&mut self, alloc: Global, round: u32) -> Result<u32, AllocError>
        requires { self.old.next_file ≤ 65535 }
        ensures few { OnOk result (self.new.next_file ≤ self.old.next_file + 1) }
        ensures plays { IfOk result (λ file. (played : Played) → IsPlaying played self.old
            → IsPlaying (with_file round played) self.new × ((with_file round played).files (log_of round) ≡ Some file)) }
    {
        let log = round % LOGS;
        if let Some(file) = self.files[log as usize] {
            return Ok(file);
        }
        let file = self.next_file;
        let path = path_of_log(alloc, log)?;
        self.push(Event::World(WorldStep::Create {
            file: FileName(file),
            path,
        }))?;
        self.files[log as usize] = Some(file);
        self.next_file = file + 1;
        Ok(file)
    }

    fn write_line(&mut self, alloc: Global, round: u32, file: u32) -> Result<(), AllocError>
        ensures few { self.new.next_file ≡ self.old.next_file }
        ensures plays { OnOk result ((played : Played) → IsPlaying played self.old → played.files (log_of round) ≡ Some file
            → IsPlaying (with_line round played) self.new) }
    {
        let bytes = bytes_of_line(alloc, round)?;
        self.push(Event::World(WorldStep::Append {
            file: FileName(file),
            bytes,
        }))?;
        Ok(())
    }

    // The first log gets another name.
    fn rotate(&mut self, alloc: Global, round: u32) -> Result<(), AllocError>
        ensures few { self.new.next_file ≡ self.old.next_file }
        ensures plays { OnOk result ((played : Played) → IsPlaying played self.old → IsPlaying (with_other_name round played) self.new) }
    {
        if let Some(file) = self.files[0] {
            let path = path_of_rotated(alloc, round)?;
            self.push(Event::World(WorldStep::Rename {
                file: FileName(file),
                path,
            }))?;
            self.files[0] = None;
        }
        Ok(())
    }

    // A poll is stopped, and the agent is opened again.
    fn stop(&mut self, round: u32) -> Result<(), AllocError>
        ensures few { self.new.next_file ≡ self.old.next_file }
        ensures plays { OnOk result ((played : Played) → IsPlaying played self.old
            → IsPlaying (with_move reopen (with_move poll (with_move (stop (round % 13) (round % 5)) played))) self.new) }
    {
        self.push(Event::Stop {
            calls: round % 13,
            outcome: round % 5,
        })?;
        self.push(Event::Poll)?;
        self.push(Event::Reopen)?;
        Ok(())
    }

    fn push(&mut self, event: Event) -> Result<(), AllocError>
        ensures files { self.new.files ≡ self.old.files }
        ensures few { self.new.next_file ≡ self.old.next_file }
        ensures plays { OnOk result ((played : Played) → IsPlaying played self.old → IsPlaying (with_move (move_of event) played) self.new) }
    {
        self.events.push(event)?;
        Ok(())
    }
}

fn path_of_log(alloc: Global, log: u32) -> Result<Text, AllocError>
    ensures { IfOk result (λ path. path ≡ log_name log) }
{
    Text::new(format!(in alloc; "d{log}.log")?)
}

fn path_of_rotated(alloc: Global, round: u32) -> Result<Text, AllocError>
    ensures { IfOk result (λ path. path ≡ rotated_name round) }
{
    Text::new(format!(in alloc; "d0.log.{round}")?)
}

fn bytes_of_line(alloc: Global, round: u32) -> Result<Vec<u8>, AllocError>
    ensures { IfOk result (λ bytes. bytes.items ≡ line_of round) }
{
    let log = round % LOGS;
    let line = format!(in alloc; "r{round} k{log}\n")?;
    Ok(Vec::from_slice(alloc, line.as_bytes())?)
}
