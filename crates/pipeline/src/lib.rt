//! From the bytes of a log file to the lines of the output: tokens, entries, operators, lines.
//!
//! **The contract for the layer above.** [`Pipeline::build`] makes the operators that the settings ask for, each of which
//! sends to those that its outputs name, or tells the first reason for which it can't. `graph_output` of
//! `specs/GraphOutput` is what comes out for the tokens of a file: their records, through the graph's traces.
//! [`Pipeline::feed`] takes the tokens of some bytes: from a state that stands for the tokens before, it appends the lines
//! of what comes out past what those gave, and leaves the state that stands for all of them. So a file can be fed in
//! pieces, each from the first byte that wasn't used. [`Pipeline::finish`] takes the last bytes whole and closes the operators, so that
//! what they held back comes out (`specs/Closed`). [`Pipeline::save`] spells what the operators keep, and
//! [`Pipeline::restore`] reads it back: a pipeline is rules for rows (`rules_of` of `specs/AsRules`), and what a feed does to
//! the state of a row is what these say of it ([`laws`]).
#![tactic(auto)]

ghost use Rattle.std.specs.Prelude.{◌≡◌, ◌≤◌};
ghost use Rattle.pipeline.specs.Splitters.{multiline_of};

mod buffers;
mod build;
mod closing;
mod entry;
mod fault;
mod feed;
mod foreign;
mod globs;
pub mod laws;
mod restore;
mod source;
mod splitter;
mod state;
mod text;
mod wiring;

pub use fault::BuildFault;
pub use feed::{Piece, Taken};
use glob_match::Glob;
use graph_core::Graph;
use op_kinds::AnyOp;
use settings_text::Settings;
pub use source::LogFile;
use splitter::Splitter;
pub use state::FileState;

/// The operators of some settings, ready for any file.
pub struct Pipeline {
    settings: Settings,
    include: Vec<Glob>,
    exclude: Vec<Glob>,
    splitter: Splitter,
    graph: Graph<AnyOp>,
    ghost some_bytes: { 1 ≤ settings.max_log_size },
    ghost cut_so: { multiline_of splitter ≡ settings.multiline },
}

// By hand, so that the functions of the layers above that drop one go by this call, and not by what each field may hold.
impl Drop for Pipeline {
    fn drop(self) {
        let Pipeline {
            settings: _settings,
            include: _include,
            exclude: _exclude,
            splitter: _splitter,
            graph: _graph,
        } = self;
    }
}
