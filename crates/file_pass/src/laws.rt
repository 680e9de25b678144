//! What the definitions imply. The functions do nothing; their clauses are the laws.
ghost use Rattle.std.specs.Prelude.{◌≡◌, ◌≢◌, ◌⊎◌, ◌↔◌, ℕ, Bool, false, true, Contains, List, Some, replicate, slice_get};
ghost use Rattle.std.specs.Cmp.Lexicographic.{slice_cmp};
ghost use Rattle.std.specs.List.Sorted.{IsStrictlySortedBy};
ghost use Rattle.std.specs.Ordering.{nat_cmp};
ghost use Rattle.file_pass.specs.AllTaken.{AllTaken};
ghost use Rattle.file_pass.specs.Step.{Step};
ghost use Rattle.file_pass.specs.Turns.{looks_of, misses_of};
ghost use Rattle.file_pass.specs.Unchanged.{FlagsChanges, HasFlagForEach, HasNoFlag, IsNewOrChanged};
ghost use Rattle.file_pass.specs.declared.taking.Taking.{Taking};
ghost use Rattle.outside.specs.World.{World};
ghost use Rattle.standing.specs.Poll.{Poll};
ghost use Rattle.standing.specs.Look.{Look};
ghost use Rattle.standing.specs.Looks.{Ascend};
ghost use Rattle.standing.specs.Moments.{NamesThroughout};
ghost use Rattle.standing.specs.Pass.{WasLookedAt};
ghost use Rattle.standing.specs.Rules.{Rules};

/// Each path of a pass has its turn, in their order: the paths of the looks are among them, and ascend where they do. A path
/// that named one file all the time was looked at, unless it couldn't be opened.
pub fn each_path_has_its_turn()
    ensures ascend { (poll : Poll) (paths : List (List ℕ)) (step : Step) (old new : World)
        (taken : AllTaken poll paths step old new)
        → IsStrictlySortedBy (slice_cmp nat_cmp) paths → Ascend (looks_of taken.turns) }
    ensures among { (poll : Poll) (paths : List (List ℕ)) (step : Step) (old new : World)
        (taken : AllTaken poll paths step old new)
        → (here : Look) → Contains (looks_of taken.turns) here → Contains paths here.path }
    ensures none_left_out { (poll : Poll) (paths : List (List ℕ)) (step : Step) (old new : World)
        (taken : AllTaken poll paths step old new)
        (path : List ℕ) (file : ℕ) → Contains paths path → NamesThroughout old.history new.history path file
        → WasLookedAt (looks_of taken.turns) path ⊎ Contains (misses_of taken.turns) path }
{}

/// After a pass that began without flags a row is flagged if and only if it differs from the row that stood there before,
/// and so if and only if it is new, or its front is longer, or its offset is greater, or what its operators keep or what is
/// remembered of the last look at its file is something else.
pub fn flags_tell_what_changed()
    ensures begin { (taking : Taking) (count : ℕ) → taking.changed.items ≡ replicate count false → HasNoFlag taking }
    ensures difference { (before after : Taking) → FlagsChanges before after → HasNoFlag before → HasFlagForEach after → (place : ℕ)
        → (slice_get after.changed.items place ≡ Some true) ↔ (slice_get after.tracker place ≢ slice_get before.tracker place) }
    ensures growth { (before after : Taking) → FlagsChanges before after → HasNoFlag before → HasFlagForEach after → (place : ℕ)
        → (slice_get after.changed.items place ≡ Some true) ↔ IsNewOrChanged (slice_get before.tracker place) (slice_get after.tracker place) }
{}
