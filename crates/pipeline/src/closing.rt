// The end of a file's run through the operators.
ghost use Rattle.std.specs.List.{list_all};
ghost use Rattle.std.specs.Prelude.{◌≡◌, ◌+◌, ◌^◌, ◌≤◌, length, OnOk};
ghost use Rattle.op_kinds.specs.Kept.{is_fresh as kept_fresh};
ghost use Rattle.pipeline.specs.Closed.{Closed, Finished};
ghost use Rattle.pipeline.specs.Origin.{origin_of};
ghost use Rattle.pipeline.specs.Parts.{network, HaveKinds};

use crate::feed::{Cutting, Piece, Stretch, append_lines};
use crate::source::LogFile;
use crate::{FileState, Pipeline};
use graph_core::laws as graph;
use op_kinds::is_fresh;
use otlp_json::Scope;
use otlp_json::laws::{line_is_one_line, lines_append};
use std::alloc::{AllocError, Global};

impl Pipeline {
    /// Closes the operators, appends the lines of what they held back, and leaves no group open. `id` is the file's, and `observed`
    /// the time of the lines in nanoseconds since 1970, where they have one. After want of memory nothing is said of the state and of what was appended.
    pub fn close(
        &self,
        alloc: Global,
        state: &mut FileState,
        id: u32,
        observed: Option<u64>,
        out: &mut Vec<u8>,
    ) -> Result<(), AllocError>
        requires states { HaveKinds self.now state.old.states.items }
        requires lines { state.old.lines ≤ 2 ^ 40 + length out.old.items }
        ensures closed { OnOk result (Closed (network self.now) id observed state.old state.new out.old.items out.new.items) }
        ensures lines { OnOk result (state.new.lines + length out.old.items ≤ state.old.lines + length out.new.items) }
        ensures states { OnOk result (HaveKinds self.now state.new.states.items) }
    {
        let scope = Scope::new(alloc, id)?;
        let mut made = Vec::new(alloc);
        self.graph.close(alloc, &mut state.states, &mut made)?;
        append_lines(&scope, observed, &mut state.lines, &made, out)
    }

    /// Takes the tokens of the last bytes of a file, and those of what these left, and then closes the operators. `id`, `path`
    /// and `observed` are as for [`Pipeline::feed`]. After want of memory nothing is said of the state and of what was appended.
    pub fn finish(
        &self,
        alloc: Global,
        state: &mut FileState,
        id: u32,
        path: &str,
        observed: Option<u64>,
        bytes: &[u8],
        out: &mut Vec<u8>,
    ) -> Result<(), AllocError>
        requires states { HaveKinds self.now state.old.states.items }
        requires lines { state.old.lines ≤ 2 ^ 40 }
        requires records { state.old.records + length bytes.now ≤ 2 ^ 62 }
        ensures finished { OnOk result (Finished self.now (origin_of id path.now observed) bytes.now (state.old, out.old.items) (state.new, out.new.items)) }
        ensures records { OnOk result (state.new.records ≤ state.old.records + length bytes.now) }
        ensures lines { OnOk result (state.new.lines + length out.old.items ≤ state.old.lines + length out.new.items) }
        ensures states { OnOk result (HaveKinds self.now state.new.states.items) }
    {
        graph::begin(&self.graph);
        graph::go_on(&self.graph);
        lines_append();
        let source = self.source(alloc, &LogFile { id, path, observed })?;
        let whole = Stretch {
            piece: Piece { bytes, searched: 0 },
            cutting: Cutting::Whole,
        };
        let taken = self.feed_by(alloc, state, &source, &whole, out)?;
        let left = &bytes[taken.used..];
        let rest = Stretch {
            piece: Piece {
                bytes: left,
                searched: 0,
            },
            cutting: Cutting::Rest,
        };
        self.feed_by(alloc, state, &source, &rest, out)?;
        self.close(alloc, state, id, observed, out)
    }

    /// Whether no group is open in the state.
    pub fn is_fresh(&self, state: &FileState) -> bool
        ensures { result ≡ list_all kept_fresh state.now.states.items }
    {
        state.states.iter().all(|state| is_fresh(state))
    }
}
