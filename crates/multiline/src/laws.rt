//! What the definition implies.
ghost use Rattle.std.specs.Prelude.{◌≡◌, ℕ, ◌≤◌, List, ◌++◌, take, Some, MatchOption};
ghost use Rattle.line_splitter.specs.Cuts.{Cut, cut, IsCutRule};
ghost use Rattle.multiline.specs.Cutting.{Cutting};
ghost use Rattle.multiline.specs.Endings.{EndsAt, IsTooLong, IsCutThere};
ghost use Rattle.multiline.specs.MultilineTokens.{cut_before, first_cut};
ghost use Rattle.multiline.specs.Searched.{IsSearched};
ghost use Rattle.multiline.specs.Tokens.{HasNoToken, BeginsWith, KeepsTokens};

/// Tokens of several lines are cut by a rule, so the laws of `line_splitter` on the cuts of any rule, and on those up to a
/// bound, hold of them.
pub fn tokens_are_cut_by_a_rule(max: usize)
    requires { 1 ≤ max }
    ensures { (cutting : Cutting) → IsCutRule (first_cut cutting max) }
{}

/// Without a first token there is none at all; else the others are those of the bytes past it.
pub fn begins_with_first(max: usize)
    requires { 1 ≤ max }
    ensures { (cutting : Cutting) (b : List ℕ) → MatchOption (first_cut cutting max b) (HasNoToken cutting max b) (BeginsWith cutting max b) }
{}

/// The tokens of some bytes stay the first tokens when more bytes come behind, and then come those of the bytes that were
/// left unused, with the bytes behind them.
pub fn keeps_tokens(max: usize)
    requires { 1 ≤ max }
    ensures { (cutting : Cutting) (b more : List ℕ) → KeepsTokens cutting max b more }
{}

/// The first token ends before the first LF whose line is marked, where each line before it is decided and not marked; or
/// no line that is judged is marked or open and it has `max` bytes. So tokens are cut between lines or after `max` bytes.
pub fn tokens_end_where_lines_are_marked(max: usize)
    ensures at_mark { (cutting : Cutting) (b : List ℕ) (place : ℕ) → EndsAt cutting max b place → first_cut cutting max b ≡ Some (cut_before b place) }
    ensures too_long { (cutting : Cutting) (b : List ℕ) → IsTooLong cutting max b → first_cut cutting max b ≡ Some (cut (take max b) max) }
    ensures only_there { (cutting : Cutting) (b : List ℕ) (c : Cut) → first_cut cutting max b ≡ Some c → IsCutThere cutting max b c }
{}

/// Of bytes of which none were searched nothing has to be known, and what is known of some bytes stays so when more come
/// behind.
pub fn searched_lines_stay_searched(max: usize)
    requires { 1 ≤ max }
    ensures none { (cutting : Cutting) (b : List ℕ) → IsSearched cutting max b 0 }
    ensures stays { (cutting : Cutting) (b more : List ℕ) (n : ℕ) → IsSearched cutting max b n → IsSearched cutting max (b ++ more) n }
{}
