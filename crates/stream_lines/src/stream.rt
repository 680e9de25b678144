// From a stream of bytes to printed lines.
ghost use Rattle.std.specs.Prelude.{◌≡◌, ℕ, ◌+◌, ◌≤◌, ◌^◌, List, [], ◌++◌, length, drop, Option, OnOk, IfOk};
ghost use Rattle.file_pass.specs.Full.{lines_text};
ghost use Rattle.outside.specs.World.{Told};
ghost use Rattle.stream_lines.specs.Causes.{HasReportCause, HasSourceCause};
ghost use Rattle.stream_lines.specs.Inner.HasTaken.{HasTaken, IsSane};
ghost use Rattle.stream_lines.specs.Prints.{Prints, Tells};
ghost use Rattle.stream_lines.specs.StreamLines.{open_lines, whole_lines};
ghost use Rattle.stream_lines.specs.Streams.{Streams};

use crate::fault::StreamFault;
use crate::printing::print;
use crate::reading::read_piece;
use line_splitter::laws::{cuts_go_on, cuts_up_to_a_bound};
use otlp_json::laws::lines_append;
use outside::{Sink, Source};
use pipeline::laws::{go_on, tokens_are_cut_by_a_rule};
use pipeline::{FileState, Pipeline};
use std::alloc::{AllocError, Global};

/// The most bytes that are taken of a source.
const MOST_TAKEN: u64 = 1 << 40;

/// The most bytes of one read.
const PIECE: usize = 65_536;

/// The id of the file whose lines they are.
const ID: u32 = 1;

/// The path of that file.
const PATH: &str = "stdin";

/// Takes the source to its end, and prints the lines of its bytes. Each piece's lines are printed before the next piece is read.
/// `observed` is the time of all of them in nanoseconds since 1970, where they have one.
///
/// Source: a read failed. Report: a write failed, after a part of the lines. Long: 2^40 bytes were taken, and the end wasn't seen.
/// Full: with the next line those that are printed would have more than 2^40 bytes. What is kept of the input is what no token has
/// used yet and one piece; want of memory (Memory) leaves a part of the lines printed.
pub fn print_lines<S: Source, K: Sink>(
    alloc: Global,
    pipeline: &Pipeline,
    observed: Option<u64>,
    source: &mut S,
    report: &mut K,
) -> Result<(), StreamFault>
    ensures streams { Streams pipeline.now observed (S.meaning.rest source.old) (S.meaning.rest source.new) (K.meaning.written report.old) (K.meaning.written report.new) result }
    ensures source_cause { HasSourceCause result (S.meaning.faults source.old) (S.meaning.faults source.new) }
    ensures report_cause { HasReportCause result (K.meaning.faults report.old) (K.meaning.faults report.new) }
{
    let mut stream = Stream::new(alloc, pipeline)?;
    let mut buffer = vec![in alloc; 0; PIECE]?;
    let mut left = MOST_TAKEN;
    while left > 0 {
        let count = read_piece(source, left, &mut buffer)?;
        if count == 0 {
            return stream.finish(alloc, pipeline, observed, report);
        }
        left -= count as u64;
        stream.feed(alloc, pipeline, observed, &buffer[..count], report)?;
    }
    Err(StreamFault::Long)
}

/// How far a stream was taken.
#[derive(Drop)]
pub(crate) struct Stream {
    /// What its tokens left.
    pub state: FileState,
    /// The bytes that no token has used yet.
    pub waiting: Vec<u8>,
    /// The lines of the last piece.
    pub lines: Vec<u8>,
    /// How many bytes of lines were printed.
    pub printed: u64,
}

impl Stream {
    // A stream of which nothing was taken.
    fn new(alloc: Global, pipeline: &Pipeline) -> Result<Stream, AllocError>
        ensures taken { IfOk result (λ stream. (observed : Option ℕ) → HasTaken pipeline.now observed [] stream) }
        ensures sane { IfOk result (λ stream. IsSane pipeline.now stream 0) }
        ensures no_lines { (observed : Option ℕ) → open_lines pipeline.now observed [] ≡ [] }
    {
        go_on(pipeline);
        tokens_are_cut_by_a_rule(pipeline);
        cuts_go_on();
        cuts_up_to_a_bound();
        let state = pipeline.fresh(alloc)?;
        Ok(Stream {
            state,
            waiting: Vec::new(alloc),
            lines: Vec::new(alloc),
            printed: 0,
        })
    }

    // Takes the next bytes, and prints the lines that they make sure.
    fn feed<K: Sink>(
        &mut self,
        alloc: Global,
        pipeline: &Pipeline,
        observed: Option<u64>,
        piece: &[u8],
        report: &mut K,
    ) -> Result<(), StreamFault>
        requires sane { (many : ℕ) × IsSane pipeline.now self.old many × (many + length piece.now ≤ 2 ^ 62) }
        ensures taken { OnOk result ((given : List ℕ) → HasTaken pipeline.now observed given self.old → HasTaken pipeline.now observed (given ++ piece.now) self.new) }
        ensures sane { OnOk result ((many : ℕ) → IsSane pipeline.now self.old many → IsSane pipeline.now self.new (many + length piece.now)) }
        ensures tells { (given : List ℕ) (begun : Option (List ℕ)) → HasTaken pipeline.now observed given self.old
            → Told (Prints (lines_text (open_lines pipeline.now observed given))) begun (K.meaning.written report.old)
            → Tells (open_lines pipeline.now observed (given ++ piece.now)) result begun (K.meaning.written report.new) }
        ensures cause { HasReportCause result (K.meaning.faults report.old) (K.meaning.faults report.new) }
    {
        go_on(pipeline);
        tokens_are_cut_by_a_rule(pipeline);
        cuts_go_on();
        cuts_up_to_a_bound();
        lines_append();
        self.waiting.extend_from_slice(piece)?;
        self.lines.clear();
        let (state, lines) = (&mut self.state, &mut self.lines);
        let used = pipeline.feed(alloc, state, ID, PATH, observed, &self.waiting, lines)?;
        print(alloc, &self.lines, &mut self.printed, report)?;
        drop_front(&mut self.waiting, used);
        Ok(())
    }

    // Takes what waits as the last bytes, and prints the lines that are left.
    fn finish<K: Sink>(
        mut self,
        alloc: Global,
        pipeline: &Pipeline,
        observed: Option<u64>,
        report: &mut K,
    ) -> Result<(), StreamFault>
        requires sane { (many : ℕ) × IsSane pipeline.now self many × (many ≤ 2 ^ 62) }
        ensures tells { (given : List ℕ) (begun : Option (List ℕ)) → HasTaken pipeline.now observed given self
            → Told (Prints (lines_text (open_lines pipeline.now observed given))) begun (K.meaning.written report.old)
            → Tells (whole_lines pipeline.now observed given) result begun (K.meaning.written report.new) }
        ensures cause { HasReportCause result (K.meaning.faults report.old) (K.meaning.faults report.new) }
    {
        go_on(pipeline);
        tokens_are_cut_by_a_rule(pipeline);
        cuts_go_on();
        cuts_up_to_a_bound();
        lines_append();
        self.lines.clear();
        let (state, lines) = (&mut self.state, &mut self.lines);
        pipeline.finish(alloc, state, ID, PATH, observed, &self.waiting, lines)?;
        print(alloc, &self.lines, &mut self.printed, report)
    }
}

// Takes so many bytes off the front.
fn drop_front(bytes: &mut Vec<u8>, count: usize)
    requires { count ≤ length bytes.old.items }
    ensures { bytes.new.items ≡ drop count bytes.old.items }
{
    bytes.rotate_left(count);
    bytes.truncate(bytes.len() - count);
}
