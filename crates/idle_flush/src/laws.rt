//! What the definitions imply.
ghost use Rattle.std.specs.Prelude.{◌≡◌, ℕ, ◌≤◌, List, length};
ghost use Rattle.line_splitter.specs.Cuts.{used_by};
ghost use Rattle.idle_flush.specs.Rests.{rest_cuts};

/// The tokens of a rest use all of its bytes.
pub fn rests_use_all()
    ensures { (max : ℕ) (b : List ℕ) → 1 ≤ max → used_by (rest_cuts max b) ≡ length b }
{}
