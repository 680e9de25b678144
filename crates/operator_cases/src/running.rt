// Pipelines that are fed.
ghost use Rattle.std.specs.Prelude.{◌≤◌, length, IfOk};
ghost use Rattle.pipeline.specs.Parts.{HaveKinds};

use crate::refusal::refusal;
use crate::unanswered::Unanswered;
use crate::words::Words;
use pipeline::{FileState, Pipeline};
use settings_text::laws::settings_keep_limits;
use settings_text::read;
use state_codec::CodecFault;
use std::alloc::{AllocError, Global};

/// The most tokens, lines and bytes of a case.
const MOST: u64 = 10_000_000;

/// How far a file was fed.
#[derive(Drop)]
pub struct Run {
    pub records: u64,
    pub lines: u64,
    /// What the operators keep, as bytes.
    pub kept: Vec<u8>,
    pub out: Vec<u8>,
}

impl Run {
    pub fn new(alloc: Global, kept: Vec<u8>) -> Run {
        Run {
            records: 0,
            lines: 0,
            kept,
            out: Vec::new(alloc),
        }
    }
}

pub fn pipeline_of(alloc: Global, settings: &[u8]) -> Result<Pipeline, Unanswered> {
    settings_keep_limits();
    match read(alloc, settings) {
        Ok(settings) => match Pipeline::build(alloc, settings) {
            Ok(pipeline) => Ok(pipeline),
            Err(fault) => Err(Unanswered::Refused(refusal(alloc, fault)?)),
        },
        Err(fault) => Err(Unanswered::Refused(format!(in alloc; "{fault}")?)),
    }
}

/// Before the first token of a file.
pub fn begun(alloc: Global, pipeline: &Pipeline) -> Result<Run, AllocError> {
    let state = pipeline.fresh(alloc)?;
    let mut kept = Vec::new(alloc);
    pipeline.save(alloc, &state, &mut kept)?;
    Ok(Run::new(alloc, kept))
}

/// Feeds a log as many bytes at a time as the words say, and restores what is kept before each. Answers what is left of it.
pub fn go_on<'l>(
    alloc: Global,
    pipeline: &Pipeline,
    words: Words,
    log: &'l [u8],
    run: &mut Run,
) -> Result<&'l [u8], Unanswered> {
    let mut from = 0usize;
    let mut to = 0usize;
    for _ in 0..=log.len() {
        to = to.saturating_add(words.size).min(log.len());
        let Some(piece) = log.get(from..to) else {
            break;
        };
        let used = feed(alloc, pipeline, words, piece, run)?;
        from = from.saturating_add(used);
        if to == log.len() {
            break;
        }
    }
    Ok(log.get(from..).unwrap_or_default())
}

// Restores what is kept, feeds the bytes, and saves. How many bytes were used.
fn feed(
    alloc: Global,
    pipeline: &Pipeline,
    words: Words,
    bytes: &[u8],
    run: &mut Run,
) -> Result<usize, Unanswered> {
    let mut state = restored(alloc, pipeline, bytes, run)?;
    let (path, observed) = (words.path(), words.observed);
    let used = pipeline.feed(alloc, &mut state, 7, path, observed, bytes, &mut run.out)?;
    keep(alloc, pipeline, &state, run)?;
    Ok(used)
}

/// Restores what is kept, takes the last bytes of the log, and saves what is left, which has no open group.
pub fn flush(
    alloc: Global,
    pipeline: &Pipeline,
    words: Words,
    bytes: &[u8],
    run: &mut Run,
) -> Result<(), Unanswered> {
    let mut state = restored(alloc, pipeline, bytes, run)?;
    let (path, observed) = (words.path(), words.observed);
    pipeline.finish(alloc, &mut state, 7, path, observed, bytes, &mut run.out)?;
    if !pipeline.is_fresh(&state) {
        return Err(Unanswered::Refused(String::from_str(alloc, "not fresh")?));
    }
    keep(alloc, pipeline, &state, run)
}

// The state that is kept, before these bytes.
fn restored(
    alloc: Global,
    pipeline: &Pipeline,
    bytes: &[u8],
    run: &Run,
) -> Result<FileState, Unanswered>
    ensures kinds { IfOk result (λ state. HaveKinds pipeline.now state.states.items) }
    ensures few { IfOk result (λ state. (state.records ≤ 10000000) × (state.lines ≤ 10000000)) }
    ensures short { IfOk result (λ state. length bytes.now ≤ 10000000) }
{
    let state = match pipeline.restore(alloc, run.records, run.lines, &run.kept) {
        Ok(state) => state,
        Err(CodecFault::Memory) => return Err(Unanswered::Memory),
        Err(CodecFault::Malformed { at }) => {
            return Err(Unanswered::Refused(format!(in alloc; "malformed at {at}")?));
        }
    };
    if state.records > MOST || state.lines > MOST || bytes.len() as u64 > MOST {
        return Err(Unanswered::Refused(String::from_str(alloc, "too long")?));
    }
    Ok(state)
}

// Keeps the state.
fn keep(
    alloc: Global,
    pipeline: &Pipeline,
    state: &FileState,
    run: &mut Run,
) -> Result<(), Unanswered>
    requires { HaveKinds pipeline.now state.now.states.items }
{
    run.kept.clear();
    pipeline.save(alloc, state, &mut run.kept)?;
    run.records = state.records;
    run.lines = state.lines;
    Ok(())
}
