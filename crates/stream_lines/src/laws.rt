//! What the definitions imply.
ghost use Rattle.std.specs.Prelude.{◌≡◌, ℕ, List, ◌++◌, Option};
ghost use Rattle.standing.specs.Marks.{Mark};
ghost use Rattle.stream_lines.specs.StreamLines.{open_lines, whole_lines};

use line_splitter::laws::{cuts_go_on, cuts_up_to_a_bound};
use pipeline::Pipeline;
use pipeline::laws::{go_on, tokens_are_cut_by_a_rule};

/// The open lines of some bytes begin those of these and more, and the whole lines of a stream that ends behind them.
pub fn open_lines_stay(pipeline: &Pipeline)
    ensures further { (observed : Option ℕ) (given piece : List ℕ) → (more : List Mark) × (open_lines pipeline.now observed (given ++ piece) ≡ open_lines pipeline.now observed given ++ more) }
    ensures whole { (observed : Option ℕ) (given : List ℕ) → (more : List Mark) × (whole_lines pipeline.now observed given ≡ open_lines pipeline.now observed given ++ more) }
{
    go_on(pipeline);
    tokens_are_cut_by_a_rule(pipeline);
    cuts_go_on();
    cuts_up_to_a_bound();
}
