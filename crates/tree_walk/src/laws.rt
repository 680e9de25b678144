// What the definitions imply.
ghost use Rattle.std.specs.Prelude.{◌≡◌, ◌↔◌, [], ℕ, List, Contains};
ghost use Rattle.glob_match.specs.Pattern.{Pattern};
ghost use Rattle.outside.specs.World.{World};
ghost use Rattle.outside.specs.declared.tree.Kind.{Kind};
ghost use Rattle.standing.specs.Moments.{KeepsNames};
ghost use Rattle.standing.specs.Included.{IsIncluded};
ghost use Rattle.tree_walk.specs.Listings.{failures};
ghost use Rattle.tree_walk.specs.Patterns.{patterns};
ghost use Rattle.tree_walk.specs.Times.{IsOfKind};
ghost use Rattle.tree_walk.specs.Walked.{Ascends, FindsIn};

/// Where no name changes while a walk lasts, no list fails and nothing lies too deep, the paths that it finds are exactly
/// those of the files that are included.
pub fn still_worlds_are_found_whole()
    ensures { (include exclude : List Pattern) (paths : List (List ℕ)) (unnamed : ℕ) (old new : World)
        → ((path : List ℕ) → Contains paths path → IsIncluded include exclude path) → FindsIn (patterns include exclude) paths [] (failures 0 unnamed) old new
        → KeepsNames old.history new.history
        → (path : List ℕ) → Contains paths path ↔ (IsIncluded include exclude path × IsOfKind Kind.File old.history path) }
{}

/// Paths in byte order, each once, are one list.
pub fn ascending_paths_are_one_list()
    ensures { (paths other : List (List ℕ)) → Ascends paths → Ascends other → ((path : List ℕ) → Contains paths path ↔ Contains other path)
        → paths ≡ other }
{}
