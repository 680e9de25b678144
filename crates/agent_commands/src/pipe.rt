// The command `pipe`.
ghost use Rattle.std.specs.Prelude.{◌≡◌, ◌≢◌, IfOk, IfErr};
ghost use Rattle.outside.specs.Count.{Rose};
ghost use Rattle.outside.specs.World.{Told};
ghost use Rattle.pipeline.specs.Parts.{settings_of};
ghost use Rattle.poll_core.specs.OpenCause.{HasOpenCause};
ghost use Rattle.slot_store.specs.OnlyRead.{OnlyRead};
ghost use Rattle.agent_commands.specs.Control.{max_control, TakesAtMost, TakesExactly};
ghost use Rattle.agent_commands.specs.Pipe.{IsPipeline, IsPipelineFault, IsStamp, PipeEnds, pipe_moment};

use crate::fault::Fault;
use crate::opening::read_settings;
use crate::report::refuse;
use outside::{Clock, Disk, Sink, Source};
use pipeline::Pipeline;
use poll_core::{OpenFault, pipeline_of};
use std::alloc::Global;
use stream_lines::{StreamFault, print_lines};

/// Prints the lines of the control input to its end, and answers the exit status. Nothing is written to the disk. Where the settings
/// ask for the time of the lines, the clock is read once, for all of them.
pub fn pipe<D: Disk, S: Source, K: Sink, C: Clock>(
    alloc: Global,
    disk: &mut D,
    control: &mut S,
    report: &mut K,
    clock: &mut C,
) -> u8
    ensures ends { PipeEnds D.meaning C.meaning disk.old (pipe_moment (S.meaning.rest control.old) (K.meaning.written report.old) clock.old) (pipe_moment (S.meaning.rest control.new) (K.meaning.written report.new) clock.new) result }
    ensures only_read { OnlyRead D.meaning disk.old disk.new }
    ensures disk_failed { result ≡ 7 → Rose (D.meaning.faults disk.old) (D.meaning.faults disk.new) }
    ensures disk_stood { result ≢ 7 → D.meaning.faults disk.new ≡ D.meaning.faults disk.old }
    ensures control_failed { result ≡ 8 → Rose (S.meaning.faults control.old) (S.meaning.faults control.new) }
    ensures control_stood { result ≢ 8 → S.meaning.faults control.new ≡ S.meaning.faults control.old }
    ensures report_failed { result ≡ 9 → Rose (K.meaning.faults report.old) (K.meaning.faults report.new) }
    ensures report_stood { result ≡ 0 → K.meaning.faults report.new ≡ K.meaning.faults report.old }
    ensures taken { Told (TakesAtMost max_control) (S.meaning.rest control.old) (S.meaning.rest control.new) }
    ensures control_long { result ≡ 15 → Told (TakesExactly max_control) (S.meaning.rest control.old) (S.meaning.rest control.new) }
{
    let pipeline = match open_pipeline(alloc, disk) {
        Ok(pipeline) => pipeline,
        Err(fault) => return refuse(alloc, Fault::from(fault), report),
    };
    let observed = stamp(&pipeline, clock);
    match print_lines(alloc, &pipeline, observed, control, report) {
        Ok(()) => 0,
        Err(StreamFault::Report) => 9,
        Err(StreamFault::Source) => refuse(alloc, Fault::Control, report),
        Err(StreamFault::Long) => refuse(alloc, Fault::ControlLong, report),
        Err(StreamFault::Full { length }) => refuse(alloc, Fault::OutputFull { length }, report),
        Err(StreamFault::Memory) => refuse(alloc, Fault::Memory, report),
    }
}

// The time of the lines, where the settings ask for it.
fn stamp<C: Clock>(pipeline: &Pipeline, clock: &mut C) -> Option<u64>
    ensures { IsStamp C.meaning (settings_of pipeline.now).include_observed_time result clock.old clock.new }
{
    if pipeline.stamps() {
        Some(clock.now())
    } else {
        None
    }
}

// The pipeline that the settings file asks for.
fn open_pipeline<D: Disk>(alloc: Global, disk: &mut D) -> Result<Pipeline, OpenFault>
    ensures made { IfOk result (IsPipeline D.meaning.images disk.old) }
    ensures fault { IfErr result (IsPipelineFault D.meaning.images disk.old) }
    ensures only_read { OnlyRead D.meaning disk.old disk.new }
    ensures cause { HasOpenCause result (D.meaning.faults disk.old) (D.meaning.faults disk.new) }
{
    let settings = read_settings(alloc, disk)?;
    let pipeline = pipeline_of(alloc, &settings)?;
    Ok(pipeline)
}
