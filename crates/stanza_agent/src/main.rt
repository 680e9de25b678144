//! A log collecting agent: it follows log files that grow and rotate, and appends what its operators make of each entry to
//! `output.jsonl`, as one OTLP JSON line.
//!
//! [`run_agent`](agent_commands::run_agent) is the whole program over any tree of log files, disk, control input, report and clock,
//! and its contract is the product's promise. `main` hands it the real ones, which stand in `real_world`. Where the first word is
//! `segments`, it is [`run_segmented`](agent_commands::run_segmented), over an output in files of 16 MiB.
#![tactic(auto)]

use agent_commands::{run_agent, run_segmented};
use real_world::{RealClock, RealDisk, RealParts, RealSink, RealSource, RealTree};
use std::alloc::Global;
use std::fs::File;
use std::io::ErrorKind;
use std::process::ExitCode;
use std::{env, io};

fn main(rt: HostRuntime) -> io::Result<ExitCode> {
    let alloc = rt.alloc();
    let _places = [place(&rt), place(&rt), place(&rt)];
    let words = words(&rt, alloc)?;
    let mut tree = RealTree::new(&rt);
    let mut control = RealSource::new(&rt);
    let mut report = RealSink::new(&rt);
    let mut clock = RealClock::new(&rt);
    let status = if is_segmented(&words) {
        let parts = RealParts::new(&rt);
        run_segmented(
            alloc,
            &words,
            &mut tree,
            parts,
            &mut control,
            &mut report,
            &mut clock,
        )
        .0
    } else {
        run_agent(
            alloc,
            &words,
            &mut tree,
            &mut RealDisk::new(&rt),
            &mut control,
            &mut report,
            &mut clock,
        )
    };
    Ok(ExitCode::from(status))
}

// Whether the words ask for an output in Parts.
fn is_segmented(words: &[String]) -> bool {
    words
        .first()
        .is_some_and(|word| word.as_str() == "segments")
}

// Where a standard stream was closed before the program began, the next file that is opened gets its number, and a summary
// would go into it. A folder takes the place, which can't be read or written as a stream.
fn place(rt: &HostRuntime) -> Option<File> {
    File::open(rt, ".").ok()
}

// The words after the program's name. Where a word isn't UTF-8, they are no command, and none are answered.
fn words(rt: &HostRuntime, alloc: Global) -> io::Result<Vec<String>> {
    let mut words = Vec::new(alloc);
    let given = match env::args(rt) {
        Ok(given) => given,
        Err(e) if e.kind() == ErrorKind::InvalidData => return Ok(words),
        Err(e) => return Err(e),
    };
    for word in given.skip(1) {
        words.push(word)?;
    }
    Ok(words)
}
