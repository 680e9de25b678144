// Whole lives: the first line of a script has the settings, and each other line an event.
use crate::events::{Tried, event_of, say};
use case_files::{shown, unescaped};
use checkpoint_journal::peek;
use checkpoint_store::Checkpoint;
use demo_run::play_rounds;
use lifetimes::{Ending, Event, run_script};
use mem_world::MemDisk;
use outside::DiskFile;
use std::alloc::{AllocError, Global};
use std::fmt::Write;

/// `script`: what a script leaves, as `left_by` says it, and the lines that are kept, each as its file, its number, the name of the
/// file and the body. `counts` has other counts in its first line, and `whole` the lines as they stand in the output. A line
/// `show` asks for the first line of the answer as it would be, if the script ended there.
pub(crate) fn script(
    alloc: Global,
    call: &str,
    input: &str,
    tried: Tried,
) -> Result<String, AllocError> {
    let mut lines = input.lines();
    let settings = unescaped(alloc, lines.next().unwrap_or(""))?;
    let mut life = Life {
        call,
        settings: &settings,
        events: Vec::new(alloc),
        answer: String::new(alloc),
    };
    for line in lines {
        life.go_on(alloc, line, tried)?;
    }
    life.end(alloc)
}

#[derive(Drop)]
struct Life<'l> {
    call: &'l str,
    settings: &'l [u8],
    events: Vec<Event>,
    /// What was said so far.
    answer: String,
}

impl Life<'_> {
    fn go_on(&mut self, alloc: Global, line: &str, tried: Tried) -> Result<(), AllocError> {
        if line == "show" {
            return self.show(alloc);
        }
        match event_of(alloc, line, tried)? {
            Some(event) => self.push(event),
            None => say(&mut self.answer, "no event"),
        }
    }

    fn push(&mut self, event: Event) -> Result<(), AllocError> {
        self.events.push(event)?;
        Ok(())
    }

    fn show(&mut self, alloc: Global) -> Result<(), AllocError> {
        let left = self.left(alloc)?;
        say(&mut self.answer, left.lines().next().unwrap_or(""))
    }

    fn end(mut self, alloc: Global) -> Result<String, AllocError> {
        let left = self.left(alloc)?;
        say(&mut self.answer, left.as_str())?;
        Ok(self.answer)
    }

    // What the events so far leave, or why they can't be played.
    fn left(&self, alloc: Global) -> Result<String, AllocError> {
        match run_script(alloc, self.settings, &self.events) {
            Ok(ending) => left_by(alloc, self.call, ending),
            Err(fault) => format!(in alloc; "{fault}"),
        }
    }
}

// How many polls and stops there were; the marks, and the length of the tree's history where that isn't the last mark; how many
// bytes are kept of the output. In place of marks `counts` has how many lines are kept and how many are written, and for each
// file its id, its tokens and its lines.
fn left_by(alloc: Global, call: &str, mut ending: Ending) -> Result<String, AllocError> {
    let mut left = String::new(alloc);
    write!(left, "polls={} stops={}", ending.polls, ending.stops)?;
    if call == "script" {
        push_marks(&mut left, &ending.marks, ending.tree.events())?;
    }
    push_journal(alloc, &mut left, call, &mut ending.disk)?;
    Ok(left)
}

fn push_marks(left: &mut String, marks: &[u64], steps: u64) -> Result<(), AllocError> {
    left.push_str(" marks=")?;
    let mut before = "";
    for mark in marks {
        write!(left, "{before}{mark}")?;
        before = ",";
    }
    if *marks.last().unwrap_or(&0) != steps {
        write!(left, " steps={steps}")?;
    }
    Ok(())
}

fn push_journal(
    alloc: Global,
    left: &mut String,
    call: &str,
    disk: &mut MemDisk,
) -> Result<(), AllocError> {
    match peek(alloc, disk) {
        Ok(Some((_, checkpoint))) => {
            push_kept(alloc, left, call, disk.bytes(DiskFile::Output), &checkpoint)
        }
        Ok(None) => left.push_str(" output=none"),
        Err(_) => left.push_str(" output=bad"),
    }
}

fn push_kept(
    alloc: Global,
    left: &mut String,
    call: &str,
    output: &[u8],
    checkpoint: &Checkpoint,
) -> Result<(), AllocError> {
    let length = checkpoint.output_length;
    write!(left, " output={length}")?;
    let kept = output.get(..length as usize).unwrap_or(output);
    if call != "script" {
        push_counts(left, kept, output)?;
        push_files(left, checkpoint)?;
    }
    let text = shown(alloc, kept)?;
    push_lines(left, call, text.as_str())
}

fn push_counts(left: &mut String, kept: &[u8], written: &[u8]) -> Result<(), AllocError> {
    let (lines, written) = (line_feeds(kept), line_feeds(written));
    write!(left, " lines={lines} written={written}")
}

fn line_feeds(bytes: &[u8]) -> usize {
    bytes.iter().filter(|byte| **byte == b'\n').count()
}

fn push_files(left: &mut String, checkpoint: &Checkpoint) -> Result<(), AllocError> {
    let mut before = " files=";
    for row in checkpoint.rows.as_slice() {
        write!(left, "{before}{}:{}:{}", row.id, row.records, row.lines)?;
        before = ",";
    }
    Ok(())
}

fn push_lines(left: &mut String, call: &str, text: &str) -> Result<(), AllocError> {
    for line in text.lines() {
        match brief_of(line) {
            Some(brief) if call != "whole" => push_brief(left, brief)?,
            _ => write!(left, "\n{line}")?,
        }
    }
    Ok(())
}

/// A line of the output in brief.
#[derive(Clone, Copy)]
struct Brief<'l> {
    file: &'l str,
    number: &'l str,
    name: &'l str,
    body: &'l str,
}

fn push_brief(left: &mut String, line: Brief<'_>) -> Result<(), AllocError> {
    let (file, number, name, body) = (line.file, line.number, line.name, line.body);
    write!(left, "\n{file} {number} {name} {body}")
}

// The file, the number, the name of the file and the body of a line of the output. Where the record has more behind its body, that
// comes with it.
fn brief_of(line: &str) -> Option<Brief<'_>> {
    let (_, rest) = line.split_once("\"log.file.name\",\"value\":{\"stringValue\":\"")?;
    let (name, rest) = rest.split_once('"')?;
    let (_, rest) = rest.split_once("\"body\":{\"stringValue\":\"")?;
    let (body, rest) = rest.split_once(
        "}],\"scope\":{\"attributes\":[{\"key\":\"agent.file\",\"value\":{\"intValue\":\"",
    )?;
    let (file, rest) = rest.split_once("\"}},{\"key\":\"agent.line\",\"value\":{\"intValue\":\"")?;
    let (number, _) = rest.split_once('"')?;
    Some(Brief {
        file,
        number,
        name,
        body: body.strip_suffix("\"}").unwrap_or(body),
    })
}

/// `demo`, with a number of rounds up to 1000 as the input.
pub(crate) fn demo(alloc: Global, input: &str) -> Result<String, AllocError> {
    match input.parse::<u16>() {
        Ok(rounds) if rounds <= 1000 => {
            let shown = play_rounds(alloc, rounds)?;
            format!(in alloc; "{shown:?}")
        }
        _ => String::from_str(alloc, "no number of rounds"),
    }
}
