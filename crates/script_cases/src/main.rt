//! Cases of whole lives of the agent in memory: what other processes do to log files, polls, stops and crashes, and what is
//! kept of it; polls with their summaries; walks for patterns.
//!
//! The folder data/ has the cases, in the format that `case_files` tells. The input of a case is a script, one event a line.
//! [`events`] has the lines, and the module that answers a call says what else its script may have. Where the words of a case
//! are `tried FROM TO FIRST LAST`, its script is played with each number of calls from FROM below TO for the word `calls`, and
//! with each number from FIRST below LAST for the word `outcome`, and all of these have the answer. Other words are a title.
#![tactic(auto)]

mod events;
mod folders;
mod lives;
mod walks;

use case_files::{Answers, Case, check_files};
use events::Tried;
use std::alloc::{AllocError, Global};
use std::io;

#[derive(Drop)]
struct ScriptCases;

impl Answers for ScriptCases {
    fn answer(&mut self, alloc: Global, case: &Case<'_>) -> Result<String, AllocError> {
        match case.words.strip_prefix("tried ") {
            Some(words) => answer_of_all(alloc, case.call, case.text, numbers(words)),
            None => answer(alloc, case.call, case.text, Tried::NOTHING),
        }
    }
}

// The first four numbers of these words.
fn numbers(words: &str) -> [u32; 4] {
    let mut numbers = [0u32; 4];
    for (number, word) in numbers.iter_mut().zip(words.split(' ')) {
        *number = word.parse::<u32>().unwrap_or(0);
    }
    numbers
}

// The answer that all of these have, or the first one that differs.
fn answer_of_all(
    alloc: Global,
    call: &str,
    input: &str,
    numbers: [u32; 4],
) -> Result<String, AllocError> {
    let [from, to, first, last] = numbers;
    let begins = Tried {
        calls: from,
        outcome: first,
    };
    let wanted = answer(alloc, call, input, begins)?;
    for calls in from..to {
        for outcome in first..last {
            let tried = Tried { calls, outcome };
            if let Some(differs) = difference(alloc, call, input, tried, wanted.as_str())? {
                return Ok(differs);
            }
        }
    }
    Ok(wanted)
}

// What is to be said of an answer that isn't this one.
fn difference(
    alloc: Global,
    call: &str,
    input: &str,
    tried: Tried,
    wanted: &str,
) -> Result<Option<String>, AllocError> {
    let came = answer(alloc, call, input, tried)?;
    if came.as_str() == wanted {
        return Ok(None);
    }
    let Tried { calls, outcome } = tried;
    Ok(Some(format!(in alloc; "calls {calls}, outcome {outcome}: {came}")?))
}

fn answer(alloc: Global, call: &str, input: &str, tried: Tried) -> Result<String, AllocError> {
    match call {
        "script" | "counts" | "whole" => lives::script(alloc, call, input, tried),
        "demo" => lives::demo(alloc, input),
        "polls" => folders::polls(alloc, input, tried),
        "walk" => walks::walk(alloc, input, tried),
        _ => String::from_str(alloc, "no such call"),
    }
}

fn main(rt: HostRuntime) -> io::Result<()> {
    check_files(&rt, &mut ScriptCases)
}
