// From bytes to lines.
ghost use Rattle.std.specs.Prelude.{◌≡◌, ℕ, ◌+◌, ◌-◌, ◌^◌, ◌≤◌, [], ◌∷◌, ◌++◌, List, length, drop, string_bytes, Option, OnOk, IfOk, IfSome, IfNone};
ghost use Rattle.entry_model.specs.Datum.{Members};
ghost use Rattle.graph_core.specs.Traces.{inputs, Served};
ghost use Rattle.otlp_json.specs.OutputLine.{output_line};
ghost use Rattle.otlp_json.specs.OutputLines.{output_lines};
ghost use Rattle.otlp_json.specs.Template.{IsTemplate, numbered, text_record};
ghost use Rattle.pipeline.specs.Entries.{records_behind, record_with};
ghost use Rattle.pipeline.specs.Fed.{Fed, GoesOn};
ghost use Rattle.pipeline.specs.GraphOutput.{StandsFor};
ghost use Rattle.pipeline.specs.NextToken.{IsNext};
ghost use Rattle.pipeline.specs.Origin.{Origin, origin_of};
ghost use Rattle.pipeline.specs.Parts.{settings_of, network, HaveKinds};
ghost use Rattle.pipeline.specs.Searched.{IsSearched, StaysSearched};
ghost use Rattle.pipeline.specs.Sources.{IsShared, IsSource};
ghost use Rattle.line_splitter.specs.Cuts.{cuts, texts, used_by};
ghost use Rattle.pipeline.specs.Tokens.{first_cut_of, rule_of, tokens_of, used_of};
ghost use Rattle.pipeline.specs.declared.source.Source.TheVariants.{Lines};

use crate::buffers::Buffers;
use crate::source::{LogFile, Shared, Source};
use crate::text::{body_of, text_in};
use crate::{FileState, Pipeline};
use graph_core::laws as graph;
use idle_flush::rest;
use line_splitter::{Token, entry_text};
use op_kinds::Record;
use otlp_json::laws::{line_is_one_line, lines_append};
use otlp_json::{Scope, Template};
use std::alloc::{AllocError, Global};

/// Bytes of a file, from the first one that no token used.
#[derive(Clone, Copy)]
pub struct Piece<'p> {
    pub bytes: &'p [u8],
    /// How many of them needn't be searched again for the end of their first token: 0 where none were searched, else what
    /// [`Taken::searched`] says of the bytes that these begin with.
    pub searched: usize,
}

/// What was taken of a piece.
#[derive(Clone, Copy)]
pub struct Taken {
    /// How many of its bytes the tokens used.
    pub used: usize,
    /// How many of those behind them needn't be searched again.
    pub searched: usize,
}

/// Which tokens of some bytes are taken.
#[derive(Clone, Copy)]
pub(crate) enum Cutting {
    /// Those that more bytes can't change.
    Whole,
    /// Those of bytes behind which none come any more.
    Rest,
}

/// A piece, and which of its tokens are taken.
#[derive(Clone, Copy)]
pub(crate) struct Stretch<'p> {
    pub(crate) piece: Piece<'p>,
    pub(crate) cutting: Cutting,
}

impl Pipeline {
    /// Takes the tokens of the bytes, appends the lines of what comes out, and answers how many bytes the tokens used.
    /// `id` and `path` are the file's, and `observed` is the time of the lines in nanoseconds since 1970, where they have one.
    /// The state has one state for each operator, of its kind, and keeps them so. After want of memory nothing is said of the
    /// state and of what was appended.
    pub fn feed(
        &self,
        alloc: Global,
        state: &mut FileState,
        id: u32,
        path: &str,
        observed: Option<u64>,
        bytes: &[u8],
        out: &mut Vec<u8>,
    ) -> Result<usize, AllocError>
        requires states { HaveKinds self.now state.old.states.items }
        requires lines { state.old.lines ≤ 2 ^ 40 }
        requires records { state.old.records + length bytes.now ≤ 2 ^ 62 }
        ensures used { IfOk result (λ count. count ≡ used_of (settings_of self.now) bytes.now) }

        // From any state.
        ensures fed { OnOk result (Fed (settings_of self.now) (network self.now) (origin_of id path.now observed)
            (tokens_of (settings_of self.now) bytes.now) state.old state.new out.old.items out.new.items) }
        ensures records { OnOk result (state.new.records ≤ state.old.records + used_of (settings_of self.now) bytes.now) }
        ensures lines { OnOk result (state.new.lines + length out.old.items ≤ state.old.lines + length out.new.items) }
        ensures states { OnOk result (HaveKinds self.now state.new.states.items) }
        ensures many { length state.new.states.items ≡ length state.old.states.items }

        // From a state that stands for the tokens before.
        ensures goes_on { OnOk result ((earlier : List (List ℕ))
            → StandsFor (settings_of self.now) (network self.now) path.now earlier state.old
            → GoesOn (settings_of self.now) (network self.now) (origin_of id path.now observed) earlier
            (tokens_of (settings_of self.now) bytes.now) state.new out.old.items out.new.items) }
    {
        let file = LogFile { id, path, observed };
        let piece = Piece { bytes, searched: 0 };
        let taken = self.feed_behind(alloc, state, &file, &piece, out)?;
        Ok(taken.used)
    }

    /// As [`Pipeline::feed`], for bytes that come in pieces, each from the first byte that the tokens before didn't use. No
    /// line is searched again.
    pub fn feed_behind(
        &self,
        alloc: Global,
        state: &mut FileState,
        file: &LogFile<'_>,
        piece: &Piece<'_>,
        out: &mut Vec<u8>,
    ) -> Result<Taken, AllocError>
        requires states { HaveKinds self.now state.old.states.items }
        requires lines { state.old.lines ≤ 2 ^ 40 }
        requires records { state.old.records + length piece.now.bytes.now ≤ 2 ^ 62 }
        requires searched { IsSearched (settings_of self.now) piece.now.bytes.now piece.now.searched }
        ensures used { IfOk result (λ taken. taken.used ≡ used_of (settings_of self.now) piece.now.bytes.now) }
        ensures searched { IfOk result (λ taken. StaysSearched (settings_of self.now) (drop taken.used piece.now.bytes.now) taken.searched) }

        // From any state.
        ensures fed { OnOk result (Fed (settings_of self.now) (network self.now) (origin_of file.now.id file.now.path.now file.now.observed)
            (tokens_of (settings_of self.now) piece.now.bytes.now) state.old state.new out.old.items out.new.items) }
        ensures records { OnOk result (state.new.records ≤ state.old.records + used_of (settings_of self.now) piece.now.bytes.now) }
        ensures lines { OnOk result (state.new.lines + length out.old.items ≤ state.old.lines + length out.new.items) }
        ensures states { OnOk result (HaveKinds self.now state.new.states.items) }
        ensures many { length state.new.states.items ≡ length state.old.states.items }

        // From a state that stands for the tokens before.
        ensures goes_on { OnOk result ((earlier : List (List ℕ))
            → StandsFor (settings_of self.now) (network self.now) file.now.path.now earlier state.old
            → GoesOn (settings_of self.now) (network self.now) (origin_of file.now.id file.now.path.now file.now.observed) earlier
            (tokens_of (settings_of self.now) piece.now.bytes.now) state.new out.old.items out.new.items) }
    {
        graph::begin(&self.graph);
        graph::go_on(&self.graph);
        let source = self.source(alloc, file)?;
        let whole = Stretch {
            piece: *piece,
            cutting: Cutting::Whole,
        };
        self.feed_by(alloc, state, &source, &whole, out)
    }

    // Takes these tokens of the piece.
    pub(crate) fn feed_by(
        &self,
        alloc: Global,
        state: &mut FileState,
        source: &Source,
        stretch: &Stretch<'_>,
        out: &mut Vec<u8>,
    ) -> Result<Taken, AllocError>
        requires source { (origin : Origin) × IsSource self.now origin source.now }
        requires states { HaveKinds self.now state.old.states.items }
        requires lines { state.old.lines ≤ 2 ^ 40 + length out.old.items }
        requires records { state.old.records + length stretch.now.piece.bytes.now ≤ 2 ^ 62 }
        requires searched { IsSearched (settings_of self.now) stretch.now.piece.bytes.now stretch.now.piece.searched }
        ensures searched { IfOk result (λ taken. StaysSearched (settings_of self.now) (drop taken.used stretch.now.piece.bytes.now) taken.searched) }
        ensures used { IfOk result (λ taken. taken.used ≡ used_by (cuts (rule_of (settings_of self.now) stretch.now.cutting) stretch.now.piece.bytes.now)) }
        ensures within { IfOk result (λ taken. taken.used ≤ length stretch.now.piece.bytes.now) }
        ensures fed { OnOk result ((origin : Origin) → IsSource self.now origin source.now
            → Fed (settings_of self.now) (network self.now) origin
            (texts (cuts (rule_of (settings_of self.now) stretch.now.cutting) stretch.now.piece.bytes.now)) state.old state.new out.old.items out.new.items) }
        ensures records { IfOk result (λ taken. state.new.records ≤ state.old.records + taken.used) }
        ensures lines { OnOk result (state.new.lines + length out.old.items ≤ state.old.lines + length out.new.items) }
        ensures states { OnOk result (HaveKinds self.now state.new.states.items) }
        ensures many { length state.new.states.items ≡ length state.old.states.items }
    {
        graph::begin(&self.graph);
        graph::go_on(&self.graph);
        lines_append();
        let (bytes, cutting) = (stretch.piece.bytes, stretch.cutting);
        let mut buffers = Buffers::new(alloc);
        let mut at = 0;
        let mut searched = stretch.piece.searched;
        while let Some(token) = self.next_token(alloc, cutting, &bytes[at..], &mut searched)? {
            let text = &bytes[at..][token.from..token.to];
            self.feed_token(state, source, &mut buffers, text, out)?;
            at += token.after;
        }
        Ok(Taken { used: at, searched })
    }

    /// The first token of the bytes; `None` where more bytes are needed to decide it.
    pub fn first_token(&self, alloc: Global, bytes: &[u8]) -> Result<Option<Token>, AllocError>
        ensures { IfOk result (IsNext (first_cut_of (settings_of self.now)) bytes.now) }
    {
        self.next_token(alloc, Cutting::Whole, bytes, &mut 0)
    }

    // The first of these tokens of the bytes. `searched` is as for the splitter.
    #[inline(always)]
    #[tactic(auto, using(crate::proofs::Cutting::nothing_searched))]
    fn next_token(
        &self,
        alloc: Global,
        cutting: Cutting,
        bytes: &[u8],
        searched: &mut usize,
    ) -> Result<Option<Token>, AllocError>
        requires { IsSearched (settings_of self.now) bytes.now searched.old }
        ensures token { IfOk result (IsNext (rule_of (settings_of self.now) cutting) bytes.now) }
        ensures goes_on { IfOk result (λ token. IfNone token (StaysSearched (settings_of self.now) bytes.now searched.new)) }
        ensures begins_anew { IfOk result (λ token. IfSome token (λ t. searched.new ≡ 0)) }
    {
        let max = self.settings.max_log_size as usize;
        match cutting {
            Cutting::Whole => self.splitter.next(alloc, max, bytes, searched),
            Cutting::Rest => {
                *searched = 0;
                Ok(rest(max, bytes))
            }
        }
    }

    fn feed_token(
        &self,
        state: &mut FileState,
        source: &Source,
        buffers: &mut Buffers,
        token: &[u8],
        out: &mut Vec<u8>,
    ) -> Result<(), AllocError>
        requires states { HaveKinds self.now state.old.states.items }
        requires lines { state.old.lines ≤ 2 ^ 40 + length out.old.items }
        requires records { state.old.records + 1 ≤ 2 ^ 62 }
        requires empty { buffers.old.emitted.items ≡ [] }
        ensures fed { OnOk result ((origin : Origin) → IsSource self.now origin source.now
            → Fed (settings_of self.now) (network self.now) origin (token.now ∷ []) state.old state.new out.old.items out.new.items) }
        ensures lines { OnOk result ((origin : Origin) → IsSource self.now origin source.now
            → state.new.lines + length out.old.items ≤ state.old.lines + length out.new.items) }
        ensures records { OnOk result (state.new.records ≡ state.old.records + 1) }
        ensures states { OnOk result (HaveKinds self.now state.new.states.items) }
        ensures many { length state.new.states.items ≡ length state.old.states.items }
        ensures empty { OnOk result (buffers.new.emitted.items ≡ []) }
    {
        match source {
            Source::Lines(template) => self.feed_text(buffers.alloc, state, template, token, out),
            Source::Entries(shared) => self.feed_entry(state, shared, buffers, token, out),
        }
    }

    // Without operators.
    fn feed_text(
        &self,
        alloc: Global,
        state: &mut FileState,
        template: &Template,
        token: &[u8],
        out: &mut Vec<u8>,
    ) -> Result<(), AllocError>
        requires states { HaveKinds self.now state.old.states.items }
        requires lines { state.old.lines ≤ 2 ^ 40 + length out.old.items }
        requires records { state.old.records + 1 ≤ 2 ^ 62 }
        ensures fed { OnOk result ((origin : Origin) → IsSource self.now origin (Lines template.now)
            → Fed (settings_of self.now) (network self.now) origin (token.now ∷ []) state.old state.new out.old.items out.new.items) }
        ensures lines { OnOk result ((origin : Origin) → IsSource self.now origin (Lines template.now)
            → state.new.lines + length out.old.items ≤ state.old.lines + length out.new.items) }
        ensures records { OnOk result (state.new.records ≡ state.old.records + 1) }
        ensures states { state.new.states.items ≡ state.old.states.items }
    {
        lines_append();
        line_is_one_line();
        state.records += 1;
        let leading = self.settings.preserve_leading_whitespaces;
        let trailing = self.settings.preserve_trailing_whitespaces;
        if let Some(text) = text_in(token, leading, trailing) {
            append_text(state, template, text, out)?;
            return Ok(());
        }
        let Some(text) = entry_text(alloc, token, leading, trailing)? else {
            return Ok(());
        };
        append_text(state, template, text.as_str(), out)?;
        Ok(())
    }

    // Through the operators. A call of its own, so that the loop over texts without operators is short.
    #[inline(never)]
    fn feed_entry(
        &self,
        state: &mut FileState,
        shared: &Shared,
        buffers: &mut Buffers,
        token: &[u8],
        out: &mut Vec<u8>,
    ) -> Result<(), AllocError>
        requires states { HaveKinds self.now state.old.states.items }
        requires lines { state.old.lines ≤ 2 ^ 40 + length out.old.items }
        requires records { state.old.records + 1 ≤ 2 ^ 62 }
        requires empty { buffers.old.emitted.items ≡ [] }
        ensures fed { OnOk result ((origin : Origin) → IsShared (settings_of self.now) origin shared.now
            → Fed (settings_of self.now) (network self.now) origin (token.now ∷ []) state.old state.new out.old.items out.new.items) }
        ensures lines { OnOk result (state.new.lines + length out.old.items ≤ state.old.lines + length out.new.items) }
        ensures records { OnOk result (state.new.records ≡ state.old.records + 1) }
        ensures states { OnOk result (HaveKinds self.now state.new.states.items) }
        ensures many { length state.new.states.items ≡ length state.old.states.items }
        ensures empty { OnOk result (buffers.new.emitted.items ≡ []) }
    {
        graph::begin(&self.graph);
        lines_append();
        state.records += 1;
        let alloc = buffers.alloc;
        let leading = self.settings.preserve_leading_whitespaces;
        let trailing = self.settings.preserve_trailing_whitespaces;
        let Some(body) = body_of(alloc, token, leading, trailing)? else {
            return Ok(());
        };
        let entry = self.entry(alloc, shared, state.records, body)?;
        let item = buffers.next(alloc, entry)?;
        let (emitted, made) = (&mut buffers.emitted, &mut buffers.made);
        self.graph
            .push_by(alloc, &mut state.states, item, emitted, made)?;
        append_lines(&shared.scope, shared.observed, &mut state.lines, made, out)?;
        Ok(())
    }
}

// Appends the line of a text, whose record has the last number, and counts it.
fn append_text(
    state: &mut FileState,
    template: &Template,
    text: &str,
    out: &mut Vec<u8>,
) -> Result<(), AllocError>
    requires { state.old.lines ≤ 2 ^ 40 + length out.old.items }
    ensures line { OnOk result ((id : ℕ) (time : Option ℕ) (resource attributes : Members) (name : Option (List ℕ)) → IsTemplate id time resource attributes name template.now
        → out.new.items ≡ out.old.items ++ output_line id (state.old.lines + 1) time (text_record resource (numbered name state.old.records attributes) text.now)) }
    ensures lines { OnOk result (state.new.lines ≡ state.old.lines + 1) }
    ensures records { state.new.records ≡ state.old.records }
    ensures states { state.new.states.items ≡ state.old.states.items }
{
    state.lines += 1;
    template.line(state.lines, state.records, text, out)
}

// Appends the lines of the records, and counts them.
pub(crate) fn append_lines(
    scope: &Scope,
    observed: Option<u64>,
    lines: &mut u64,
    made: &[Record],
    out: &mut Vec<u8>,
) -> Result<(), AllocError>
    requires { lines.old ≤ 2 ^ 40 + length out.old.items }
    ensures lines { OnOk result (lines.new ≡ lines.old + length made.now) }
    ensures written { OnOk result (out.new.items ≡ out.old.items ++ output_lines scope.now (lines.old + 1) observed made.now) }
    ensures within { OnOk result (lines.new + length out.old.items ≤ lines.old + length out.new.items) }
{
    lines_append();
    line_is_one_line();
    for record in made {
        *lines += 1;
        scope.line(*lines, observed, record.entry(), out)?;
    }
    Ok(())
}
