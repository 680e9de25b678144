//! What the definitions imply.
ghost use Rattle.std.specs.Prelude.{ℕ, ◌≤◌};
ghost use Rattle.demo_run.specs.Steps.{IsOfRounds};
ghost use Rattle.outside.specs.World.{History};
ghost use Rattle.standing.specs.Apart.{Apart};

/// The files of a script can be told apart by their first 16 bytes, or by more: the first line of each stands whole in its first
/// append, and no two files have the same one. So what an ending promises of such files it promises of every script.
pub fn files_are_apart()
    ensures { (rounds size : ℕ) (history : History) → rounds ≤ 1000 → 16 ≤ size → IsOfRounds rounds history → Apart size history }
{}
