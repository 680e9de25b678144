// Steps in one world, a line each.
ghost use Rattle.std.specs.Prelude.{◌<◌};

use crate::control::number;
use crate::world::World;
use case_files::{shown, unescaped};
use mem_world::{MemSink, MemSource, StepFault};
use outside::{DiskFile, MemClock};
use std::alloc::{AllocError, Global};
use std::fmt::Write;

/// What the steps print, or that they can't be made, with reads of the control input of 1 byte and of 100.
pub fn answer(alloc: Global, text: &str) -> Result<String, AllocError> {
    let mut told = in_pieces(alloc, text, 1)?;
    let large = in_pieces(alloc, text, 100)?;
    if told != large {
        write!(told, "\nbut with larger reads\n{large}")?;
    }
    Ok(told)
}

fn in_pieces(alloc: Global, text: &str, piece: usize) -> Result<String, AllocError>
    requires { 0 < piece }
{
    match played(alloc, text, piece) {
        Ok((_world, told)) => Ok(told),
        Err(StepFault::Memory) => Err(AllocError),
        Err(_) => String::from_str(alloc, "a step that can't be made"),
    }
}

/// The world after the steps, and what they print, with reads of the control input of so many bytes.
pub fn played(alloc: Global, text: &str, piece: usize) -> Result<(World, String), StepFault>
    requires { 0 < piece }
{
    let mut world = World::new(alloc)?;
    let told = play(alloc, &mut world, text, piece)?;
    Ok((world, told))
}

/// What the steps print that are made in the world as it is, with reads of the control input of so many bytes.
pub fn play(alloc: Global, world: &mut World, text: &str, piece: usize) -> Result<String, StepFault>
    requires { 0 < piece }
{
    let mut told = String::new(alloc);
    for line in text.split('\n') {
        step(alloc, world, &mut told, line, piece)?;
    }
    let trimmed = told.as_str().trim_end_matches('\n');
    Ok(String::from_str(alloc, trimmed)?)
}

fn step(
    alloc: Global,
    world: &mut World,
    told: &mut String,
    line: &str,
    piece: usize,
) -> Result<(), StepFault>
    requires { 0 < piece }
{
    let (step, rest) = line.split_once(' ').unwrap_or((line, ""));
    match step {
        "control" => world.control = MemSource::new(unescaped(alloc, rest)?, piece),
        "pieces" => world.control = pieced(alloc, rest)?,
        "clock" => world.clock = clock(alloc, rest)?,
        "run" => tell_run(alloc, told, world, rest)?,
        "output" => tell_output(alloc, told, world)?,
        _ => change(alloc, world, step, rest)?,
    }
    Ok(())
}

// A control input that is given in pieces of so many bytes.
fn pieced(alloc: Global, words: &str) -> Result<MemSource, AllocError> {
    let (piece, text) = words.split_once(' ').unwrap_or((words, ""));
    let bytes = unescaped(alloc, text)?;
    Ok(MemSource::new(bytes, small(piece).max(1) as usize))
}

// A clock with these readings.
fn clock(alloc: Global, words: &str) -> Result<MemClock, AllocError> {
    let mut readings = Vec::new(alloc);
    for word in words.split(' ') {
        readings.push(number(Some(word)))?;
    }
    Ok(MemClock::new(readings))
}

// The bytes come behind so many further calls.
fn append_later(alloc: Global, world: &mut World, words: &str) -> Result<(), AllocError> {
    let (calls, text) = words.split_once(' ').unwrap_or((words, ""));
    let bytes = unescaped(alloc, text)?;
    world.append_later(alloc, small(calls), bytes)
}

// A step that prints nothing.
fn change(alloc: Global, world: &mut World, step: &str, rest: &str) -> Result<(), StepFault> {
    match step {
        "create" => world.create(alloc, rest),
        "on" => {
            world.turn_to(small(rest));
            Ok(())
        }
        "stopped" => stopped(alloc, world, rest),
        "append" => world.append(alloc, unescaped(alloc, rest)?),
        "later" => Ok(append_later(alloc, world, rest)?),
        "rename" => world.rename(alloc, rest),
        "remove" => Ok(world.remove(alloc, small(rest))?),
        "spoil" => {
            world.spoil(small(rest));
            Ok(())
        }
        "settings" => put(alloc, world, DiskFile::Settings, rest),
        "kept" => put(alloc, world, DiskFile::Output, rest),
        "checkpoint" => put(alloc, world, DiskFile::SlotA, rest),
        "crash" => world.crash(alloc, small(rest)),
        part => {
            let part = part.strip_prefix("fail_").unwrap_or(part);
            Ok(world.fail(alloc, part, small(rest))?)
        }
    }
}

// The command is stopped once it has made so many calls on the disk, and nothing is left that isn't synced.
fn stopped(alloc: Global, world: &mut World, rest: &str) -> Result<(), StepFault> {
    let (calls, words) = rest.split_once(' ').unwrap_or((rest, ""));
    world.stop(alloc, words, small(calls), 0)
}

// A number of a step, 0 where none stands or it is too large.
fn small(word: &str) -> u32 {
    u32::try_from(number(Some(word))).unwrap_or(0)
}

fn put(alloc: Global, world: &mut World, file: DiskFile, text: &str) -> Result<(), StepFault> {
    let bytes = unescaped(alloc, text)?;
    Ok(world.disk.put(alloc, file, &bytes)?)
}

// The status, and what is reported. The next command reports anew.
fn tell_run(
    alloc: Global,
    told: &mut String,
    world: &mut World,
    words: &str,
) -> Result<(), StepFault> {
    let status = world.run(alloc, words)?;
    let report = shown(alloc, world.report.bytes())?;
    world.report = MemSink::new(alloc)?;
    Ok(write!(told, "{status}\n{report}")?)
}

// The output as a whole.
fn tell_output(alloc: Global, told: &mut String, world: &World) -> Result<(), AllocError> {
    let output = shown(alloc, world.disk.bytes(DiskFile::Output))?;
    told.push_str(output.as_str())
}
