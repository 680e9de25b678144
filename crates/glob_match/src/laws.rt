// What the definitions imply.
ghost use Rattle.std.specs.Prelude.{◌≡◌, ◌≢◌, ◌↔◌, ◌∷◌, ◌++◌, [], true, ℕ, List};
ghost use Rattle.std.specs.List.{list_all};
ghost use Rattle.std.specs.Str.{chars, IsUtf8};
ghost use Rattle.glob_match.specs.GlobMatch.{MatchesPath, ListsFolder, root};
ghost use Rattle.glob_match.specs.GlobText.{IsGlobText, is_ordinary};
ghost use Rattle.glob_match.specs.Leading.{LeadsToMatches};
ghost use Rattle.glob_match.specs.Pattern.{Pattern};

use crate::glob::Glob;

/// A text spells one pattern at most.
pub fn text_spells_one_pattern()
    ensures { (text : List ℕ) (pattern other : Pattern) → IsGlobText text pattern → IsGlobText text other → pattern ≡ other }
{}

/// Each folder on a path that a glob matches may hold a match: the working folder or the root, and what stands before a
/// slash of the path.
pub fn folders_on_a_match_are_listed()
    ensures root { (pattern : Pattern) → ListsFolder pattern (root pattern) }
    ensures leading { (text : List ℕ) (pattern : Pattern) (folder rest : List ℕ) → IsGlobText text pattern → folder ≢ []
        → MatchesPath pattern (folder ++ 47 ∷ rest) → ListsFolder pattern folder }
{}

/// A glob without special characters matches the path that is its text, and no other.
pub fn plain_glob_matches_itself()
    ensures { (text path : List ℕ) (pattern : Pattern) → IsUtf8 text → IsUtf8 path → list_all is_ordinary (chars text) ≡ true
        → IsGlobText (chars text) pattern → MatchesPath pattern path ↔ (path ≡ text) }
{}

impl Glob {
    /// Each match of a glob lies below its start, and each folder on the way to it may hold matches.
    pub fn leads_to_matches(&self)
        ensures { LeadsToMatches self.now }
    {
        let _components = &self.components;
    }
}
