//! What the definitions imply, for lines and for any other rule by which bytes are cut into tokens.
ghost use Rattle.std.specs.Prelude.{◌≡◌, ℕ, ◌+◌, ◌≤◌, List, ◌++◌, drop, length, Option};
ghost use Rattle.line_splitter.specs.Cuts.{Cut, cuts, used_by, IsCutRule, CutsUpTo};
ghost use Rattle.line_splitter.specs.LineTokens.{first_cut};

/// Lines are cut by a rule.
pub fn lines_are_cut_by_a_rule(max: usize)
    requires { 1 ≤ max }
    ensures { IsCutRule (first_cut max) }
{}

/// Of some bytes whose first cuts were taken, the bytes behind them have the other cuts.
pub fn cuts_go_on()
    ensures { (first : List ℕ → Option Cut) → IsCutRule first → (b : List ℕ) (taken behind : List Cut)
        → cuts first b ≡ taken ++ behind → cuts first (drop (used_by taken) b) ≡ behind }
{}

/// The cuts up to a bound are determined, and more bytes behind leave the bound and its cuts. The cuts up to a bound of
/// the bytes past a bound follow those up to it; and of two bounds of the same bytes, the cuts up to the greater one are those
/// up to the other, and then those of the bytes past it.
pub fn cuts_up_to_a_bound()
    ensures within { (first : List ℕ → Option Cut) → IsCutRule first → (b : List ℕ) (n : ℕ) (taken : List Cut)
        → CutsUpTo first b n taken → n ≤ length b }
    ensures determined { (first : List ℕ → Option Cut) → IsCutRule first → (b : List ℕ) (n : ℕ) (taken other : List Cut)
        → CutsUpTo first b n taken → CutsUpTo first b n other → taken ≡ other }
    ensures lasting { (first : List ℕ → Option Cut) → IsCutRule first → (b more : List ℕ) (n : ℕ) (taken : List Cut)
        → CutsUpTo first b n taken → CutsUpTo first (b ++ more) n taken }
    ensures joined { (first : List ℕ → Option Cut) → IsCutRule first → (b : List ℕ) (n m : ℕ) (taken next : List Cut)
        → CutsUpTo first b n taken → CutsUpTo first (drop n b) m next → CutsUpTo first b (n + m) (taken ++ next) }
    ensures parted { (first : List ℕ → Option Cut) → IsCutRule first → (b : List ℕ) (n m : ℕ) (taken all : List Cut)
        → CutsUpTo first b n taken → CutsUpTo first b (n + m) all
        → (next : List Cut) × (all ≡ taken ++ next) × CutsUpTo first (drop n b) m next }
    ensures all { (first : List ℕ → Option Cut) → IsCutRule first → (b : List ℕ) → CutsUpTo first b (used_by (cuts first b)) (cuts first b) }
{}
