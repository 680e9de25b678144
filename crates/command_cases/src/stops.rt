// Commands that are stopped.
use crate::steps::{play, played};
use mem_world::StepFault;
use std::alloc::{AllocError, Global};

// How many calls on the disk a command makes at most, and how many outcomes of a crash are tried.
const MOST_CALLS: u32 = 40;

const OUTCOMES: u32 = 5;

/// What the steps behind the line `stop` print, each answer once, where the command of these words is stopped after each number of calls
/// on the disk, with each outcome of a crash.
pub fn answer(alloc: Global, words: &str, text: &str) -> Result<String, AllocError> {
    match answers(alloc, words, text) {
        Ok(answers) => listed(alloc, &answers),
        Err(StepFault::Memory) => Err(AllocError),
        Err(_) => String::from_str(alloc, "a step that can't be made"),
    }
}

fn listed(alloc: Global, answers: &[String]) -> Result<String, AllocError> {
    let mut told = String::new(alloc);
    for answer in answers {
        if !told.is_empty() {
            told.push_str("\nor\n")?;
        }
        told.push_str(answer.as_str())?;
    }
    Ok(told)
}

fn answers(alloc: Global, words: &str, text: &str) -> Result<Vec<String>, StepFault> {
    let mut found = Vec::new(alloc);
    for calls in 0..=MOST_CALLS {
        try_stop(alloc, words, text, calls, &mut found)?;
    }
    Ok(found)
}

// Notes the answers where so many calls are made.
fn try_stop(
    alloc: Global,
    words: &str,
    text: &str,
    calls: u32,
    found: &mut Vec<String>,
) -> Result<(), StepFault> {
    let (before, behind) = text.split_once("\nstop\n").unwrap_or((text, ""));
    for outcome in 0..OUTCOMES {
        let (mut world, _told) = played(alloc, before, 1)?;
        world.stop(alloc, words, calls, outcome)?;
        note(found, play(alloc, &mut world, behind, 1)?)?;
    }
    Ok(())
}

fn note(found: &mut Vec<String>, answer: String) -> Result<(), AllocError> {
    if !found.contains(&answer) {
        found.push(answer)?;
    }
    Ok(())
}
