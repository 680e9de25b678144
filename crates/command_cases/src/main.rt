//! The commands over an outside in memory, and the lines of the control input, as cases.
#![tactic(auto)]

mod control;
mod damage;
mod parts;
mod steps;
mod stops;
mod world;

use case_files::{Answers, Case, check_files};
use std::alloc::{AllocError, Global};
use std::io;

#[derive(Drop)]
struct Commands;

impl Answers for Commands {
    fn answer(&mut self, alloc: Global, case: &Case<'_>) -> Result<String, AllocError> {
        match case.call {
            "commands" => steps::answer(alloc, case.text),
            "damage" => damage::answer(alloc, case.words, case.text),
            "stops" => stops::answer(alloc, case.words, case.text),
            "parts" => parts::answer(alloc, case.words, case.text),
            "part_stops" => parts::stops(alloc, case.text),
            "control" => control::answer(alloc, case.words, &case.input),
            _ => String::from_str(alloc, "no such call"),
        }
    }
}

fn main(rt: HostRuntime) -> io::Result<()> {
    check_files(&rt, &mut Commands)
}
