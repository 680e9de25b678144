// The calls of cases.
use crate::asked::{cut_at, log_of, parted, settings_of};
use crate::kept::{closed, taken};
use crate::plain::records;
use crate::running::{Run, begun, flush, go_on, pipeline_of};
use crate::unanswered::Unanswered;
use crate::words::Words;
use case_files::{Answers, Case, shown};
use pipeline::Pipeline;
use std::alloc::{AllocError, Global};

/// Answers the calls.
#[derive(Drop)]
pub struct Operators;

impl Answers for Operators {
    fn answer(&mut self, alloc: Global, case: &Case<'_>) -> Result<String, AllocError> {
        match said(alloc, case) {
            Ok(answer) if answer.is_empty() => String::from_str(alloc, "nothing"),
            Ok(answer) => Ok(answer),
            Err(Unanswered::Refused(answer)) => Ok(answer),
            Err(Unanswered::Memory) => Err(AllocError),
        }
    }
}

fn said(alloc: Global, case: &Case<'_>) -> Result<String, Unanswered> {
    let words = Words::read(case.words);
    match case.call {
        "build" => built(alloc, &case.input),
        "restored" => restored(alloc, &case.input, words),
        "deep" => taken(alloc, words.size.min(10_000)),
        call => ran(alloc, call, &case.input, words),
    }
}

// Whether there is a pipeline of these settings.
fn built(alloc: Global, settings: &[u8]) -> Result<String, Unanswered> {
    let _pipeline = pipeline_of(alloc, settings)?;
    Ok(String::from_str(alloc, "built")?)
}

// What is to be told of a log that is fed from its beginning on.
fn ran(alloc: Global, call: &str, input: &[u8], words: Words) -> Result<String, Unanswered> {
    let (head, lines) = parted(input);
    let settings = settings_of(alloc, call, head)?;
    let pipeline = pipeline_of(alloc, &settings)?;
    let run = run_of(alloc, &pipeline, lines, words)?;
    told(alloc, call, &run)
}

fn run_of(
    alloc: Global,
    pipeline: &Pipeline,
    lines: &[u8],
    words: Words,
) -> Result<Run, Unanswered> {
    let mut run = begun(alloc, pipeline)?;
    feed_log(alloc, pipeline, lines, words, &mut run)?;
    Ok(run)
}

fn feed_log(
    alloc: Global,
    pipeline: &Pipeline,
    lines: &[u8],
    words: Words,
    run: &mut Run,
) -> Result<(), Unanswered> {
    let log = log_of(alloc, lines, words)?;
    let left = go_on(alloc, pipeline, words, &log, run)?;
    if words.flushed {
        flush(alloc, pipeline, words, left, run)?;
    }
    Ok(())
}

fn told(alloc: Global, call: &str, run: &Run) -> Result<String, Unanswered> {
    match call {
        "operator" | "entry" | "records" | "pieces" => Ok(records(alloc, &run.out)?),
        "kept" => Ok(shown(alloc, &run.kept)?),
        "joined" => joined(alloc, run),
        "output" => Ok(output(alloc, run)?),
        _ => Ok(String::from_str(alloc, "no call")?),
    }
}

fn joined(alloc: Global, run: &Run) -> Result<String, Unanswered> {
    let mut answer = records(alloc, &run.out)?;
    let open = closed(alloc, "body.t", &run.kept)?;
    write!(answer, "\nopen\n{open}")?;
    Ok(String::from_str(alloc, answer.trim_matches('\n'))?)
}

fn output(alloc: Global, run: &Run) -> Result<String, AllocError> {
    let lines = shown(alloc, &run.out)?;
    let (records, count) = (run.records, run.lines);
    let answer = format!(in alloc; "records {records} lines {count}\n{lines}")?;
    String::from_str(alloc, answer.trim_end_matches('\n'))
}

// What a log gives where these bytes were kept before it, with a line of two hyphens between them.
fn restored(alloc: Global, input: &[u8], words: Words) -> Result<String, Unanswered> {
    let (settings, kept) = cut_at(input, b"\n").unwrap_or((input, b""));
    let pipeline = pipeline_of(alloc, settings)?;
    let (kept, lines) = cut_at(kept, b"\n--\n").unwrap_or((kept, b""));
    let mut run = Run::new(alloc, Vec::from_slice(alloc, kept)?);
    feed_log(alloc, &pipeline, lines, words, &mut run)?;
    Ok(records(alloc, &run.out)?)
}
