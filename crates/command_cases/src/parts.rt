// Commands over an output in Parts in memory.
use crate::world::{SETTINGS, World, split_words};
use agent_commands::{run_agent, run_segmented};
use case_files::{shown, unescaped};
use mem_world::StepFault;
use out_segments::{MemParts, PartFile, Segmented};
use std::alloc::{AllocError, Global};
use std::fmt::Write;

/// How many bytes a full Part has, where Parts are small.
const SMALL: u64 = 300;

/// The last call at which a run is stopped.
const LAST_CALL: u32 = 60;

/// What these words print over Parts, with this text in `app.log`, and the length of each Part. Without words, what `once`
/// prints over small ones.
pub fn answer(alloc: Global, words: &str, text: &str) -> Result<String, AllocError> {
    let told = if words.is_empty() {
        small(alloc, text)
    } else {
        whole(alloc, words, text)
    };
    or_fault(alloc, told)
}

/// The status of `once` over small Parts and how its report ends, each answer once, where a run with the first line in `app.log` was
/// stopped at a call, from none to the 60th, an outcome of 0 to 4 was left, and the second line was appended.
pub fn stops(alloc: Global, text: &str) -> Result<String, AllocError> {
    or_fault(alloc, endings(alloc, text))
}

fn or_fault(alloc: Global, told: Result<String, StepFault>) -> Result<String, AllocError> {
    match told {
        Ok(told) => Ok(told),
        Err(StepFault::Memory) => Err(AllocError),
        Err(_) => String::from_str(alloc, "a step that can't be made"),
    }
}

// A world with this text in `app.log`.
fn world_of(alloc: Global, text: &str) -> Result<World, StepFault> {
    let mut world = World::new(alloc)?;
    world.append(alloc, unescaped(alloc, text)?)?;
    Ok(world)
}

// Parts that hold the settings alone.
fn new_parts(alloc: Global) -> Result<MemParts, AllocError> {
    let mut parts = MemParts::new(alloc)?;
    parts.put(alloc, PartFile::Settings, SETTINGS)?;
    Ok(parts)
}

fn whole(alloc: Global, words: &str, text: &str) -> Result<String, StepFault> {
    let mut world = world_of(alloc, text)?;
    let words = split_words(alloc, words)?;
    let (status, parts) = run_segmented(
        alloc,
        &words,
        &mut world.tree,
        new_parts(alloc)?,
        &mut world.control,
        &mut world.report,
        &mut world.clock,
    );
    Ok(told(alloc, status, &world, &parts)?)
}

fn small(alloc: Global, text: &str) -> Result<String, StepFault> {
    let mut world = world_of(alloc, text)?;
    let (status, parts) = once(alloc, &mut world, new_parts(alloc)?)?;
    Ok(told(alloc, status, &world, &parts)?)
}

// `once` over small Parts.
fn once(alloc: Global, world: &mut World, parts: MemParts) -> Result<(u8, MemParts), AllocError> {
    let words = split_words(alloc, "once")?;
    let mut files = Segmented::<MemParts>::new(parts, SMALL);
    let status = run_agent(
        alloc,
        &words,
        &mut world.tree,
        &mut files,
        &mut world.control,
        &mut world.report,
        &mut world.clock,
    );
    Ok((status, files.into_parts()))
}

// The status, the report and the lengths of the Parts.
fn told(alloc: Global, status: u8, world: &World, parts: &MemParts) -> Result<String, AllocError> {
    let report = shown(alloc, world.report.bytes())?;
    let mut told = format!(in alloc; "{status}\n{report}")?;
    for number in 0..100 {
        let size = parts.bytes(PartFile::Part(number)).len();
        if size == 0 {
            break;
        }
        write!(told, "{size}\n")?;
    }
    String::from_str(alloc, told.as_str().trim_end_matches('\n'))
}

fn endings(alloc: Global, text: &str) -> Result<String, StepFault> {
    let mut told = String::new(alloc);
    for calls in 0..LAST_CALL + 1 {
        for outcome in 0..5 {
            let ending = stopped(alloc, text, calls, outcome)?;
            if !told.as_str().contains(ending.as_str()) {
                told.push_str(ending.as_str())?;
            }
        }
    }
    Ok(String::from_str(alloc, told.as_str().trim_end_matches('\n'))?)
}

// The status, and how the report ends, after a stop at this call that left this outcome.
fn stopped(alloc: Global, text: &str, calls: u32, outcome: u32) -> Result<String, StepFault> {
    let (first, second) = text.split_once('\n').unwrap_or((text, ""));
    let mut world = world_of(alloc, first)?;
    let mut parts = new_parts(alloc)?;
    parts.fuse(calls);
    let (_status, parts) = once(alloc, &mut world, parts)?;
    let parts = parts.crash(alloc, outcome)?;
    world.append(alloc, unescaped(alloc, second)?)?;
    world.new_report(alloc)?;
    let (status, _parts) = once(alloc, &mut world, parts)?;
    let report = shown(alloc, world.report.bytes())?;
    let line = report.as_str().trim_end_matches('\n');
    let (_counts, ending) = line.rsplit_once(' ').unwrap_or(("", line));
    Ok(format!(in alloc; "{status} {ending}\n")?)
}
