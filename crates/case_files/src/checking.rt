// The cases of files, one after the other.
use crate::case::Case;
use std::alloc::{AllocError, AllocGlobal, Global};
use std::env::Env;
use std::fs::Files;
use std::io::{Print, Write};
use std::{env, fs, io};

/// What answers cases.
pub trait Answers {
    /// The answer to a case, as it is printed.
    fn answer(&mut self, alloc: Global, case: &Case<'_>) -> Result<String, AllocError>;
}

/// Checks the files of cases that the program's arguments name. Of each it prints how many cases there are, and behind that each
/// that differs with its line, what was wanted and what came. A block that is neither a comment nor a case differs.
pub fn check_files<R: Env + Files + AllocGlobal + Print, A: Answers>(
    rt: &R,
    answers: &mut A,
) -> io::Result<()> {
    for name in env::args(rt)?.skip(1) {
        check_named(rt, name.as_str(), answers)?;
    }
    Ok(())
}

fn check_named<R: Files + AllocGlobal + Print, A: Answers>(
    rt: &R,
    name: &str,
    answers: &mut A,
) -> io::Result<()> {
    let text = fs::read_to_string(rt, name)?;
    check_file(
        rt.alloc(),
        name,
        text.as_str(),
        answers,
        &mut io::writer(rt),
    )
}

// Checks the cases of a file of this name and text.
fn check_file<A: Answers, W: Write>(
    alloc: Global,
    name: &str,
    text: &str,
    answers: &mut A,
    out: &mut W,
) -> io::Result<()> {
    let mut checked = Checked {
        line: 1,
        cases: 0,
        different: String::new(alloc),
    };
    for part in text.split("\n\n") {
        checked.add(alloc, name, part, answers)?;
    }
    checked.tell(name, out)
}

/// What is known of a file up to a line.
#[derive(Drop)]
struct Checked {
    line: u64,
    cases: u64,
    /// What is to be said of the cases that differ.
    different: String,
}

impl Checked {
    fn add<A: Answers>(
        &mut self,
        alloc: Global,
        name: &str,
        part: &str,
        answers: &mut A,
    ) -> Result<(), AllocError> {
        let block = part.trim_start_matches('\n');
        let line = self.line.saturating_add((part.len() - block.len()) as u64);
        self.line = self.line.saturating_add(lines_of(part)).saturating_add(2);
        let block = block.trim_end_matches('\n');
        if block.is_empty() || block.starts_with('#') {
            return Ok(());
        }
        self.cases = self.cases.saturating_add(1);
        let said = difference(alloc, block, answers)?;
        self.note(alloc, name, line, said.as_str())
    }

    // What is said of the case in a line; nothing where it doesn't differ.
    fn note(&mut self, alloc: Global, name: &str, line: u64, said: &str) -> Result<(), AllocError> {
        if said.is_empty() {
            return Ok(());
        }
        let told = format!(in alloc; "{name}:{line}: {said}")?;
        self.different.push_str(told.as_str())
    }

    fn tell<W: Write>(&self, name: &str, out: &mut W) -> io::Result<()> {
        write!(out, "{name}: {} cases\n{}", self.cases, self.different)
    }
}

// How many line ends a text has.
fn lines_of(text: &str) -> u64 {
    let mut lines = 0u64;
    for byte in text.as_bytes() {
        if *byte == b'\n' {
            lines = lines.saturating_add(1);
        }
    }
    lines
}

// What is to be said of a block whose case isn't answered as is wanted, and nothing of any other.
fn difference<A: Answers>(
    alloc: Global,
    block: &str,
    answers: &mut A,
) -> Result<String, AllocError> {
    match Case::read(alloc, block)? {
        Some(case) => {
            let came = answers.answer(alloc, &case)?;
            compared(alloc, &case, came.as_str())
        }
        None => String::from_str(alloc, "no case\n"),
    }
}

fn compared(alloc: Global, case: &Case<'_>, came: &str) -> Result<String, AllocError> {
    if came == case.wanted {
        return Ok(String::new(alloc));
    }
    let (call, words, wanted) = (case.call, case.words, case.wanted);
    format!(in alloc; "{call} {words}\nwanted: {wanted}\ncame: {came}\n")
}
