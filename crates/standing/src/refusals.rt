//! What the definitions refuse: no rows and lines that stand are like this.
ghost use Rattle.std.specs.Prelude.{◌≡◌, ◌≢◌, ℕ, ◌+◌, ◌<◌, All, Contains, List, ◌∷◌, ◌++◌, drop};
ghost use Rattle.outside.specs.Seen.{looked};
ghost use Rattle.outside.specs.World.{History, bytes};
ghost use Rattle.standing.specs.Eras.{Eras, last_era};
ghost use Rattle.standing.specs.Marks.{Mark};
ghost use Rattle.standing.specs.Owner.{IsOwner};
ghost use Rattle.standing.specs.Part.{first_point, last_point};
ghost use Rattle.standing.specs.Rows.{Row};
ghost use Rattle.standing.specs.Stands.{IsIdOf, IsLine, LinesStand, RowStands};
ghost use Rattle.standing.specs.Tokens.{used};

/// Each line is what its row's file gives at the place that its number tells, and that number counts the lines of the
/// row before it. So no line stands twice, and none has the id of no row.
pub fn each_line_is_of_its_file()
    ensures is { (eras : Eras) (history : History) (rows : List Row) (next_id : ℕ) (front back : List Mark)
        (mark : Mark) → LinesStand eras history rows next_id (front ++ mark ∷ back)
        → IsLine eras history rows front mark }
    ensures no_line_twice { (eras : Eras) (history : History) (rows : List Row) (next_id : ℕ)
        (front middle back : List Mark) (mark : Mark)
        → LinesStand eras history rows next_id (front ++ mark ∷ (middle ++ mark ∷ back)) → ⊥ }
    ensures no_line_of_another_file { (eras : Eras) (history : History) (rows : List Row) (next_id : ℕ)
        (front back : List Mark) (mark : Mark) → (IsIdOf rows mark.id → ⊥)
        → LinesStand eras history rows next_id (front ++ mark ∷ back) → ⊥ }
{}

/// The first line of a row has the number 1, and before a line with a greater number stands one with the number before.
pub fn lines_are_numbered_in_a_row()
    ensures no_line_missing { (eras : Eras) (history : History) (rows : List Row) (next_id : ℕ)
        (front back : List Mark) (mark : Mark) (n : ℕ) → mark.number ≡ n + 2
        → All (λ (other : Mark). other.id ≡ mark.id → other.number ≢ n + 1) front
        → LinesStand eras history rows next_id (front ++ mark ∷ back) → ⊥ }
    ensures no_start_at_two { (eras : Eras) (history : History) (rows : List Row) (next_id : ℕ)
        (front back : List Mark) (mark : Mark) → All (λ (other : Mark). other.id ≢ mark.id) front → mark.number ≡ 2
        → LinesStand eras history rows next_id (front ++ mark ∷ back) → ⊥ }
{}

/// A row's offset isn't past the last token of its file, and its owner was looked at.
pub fn rows_keep_to_what_was_seen()
    ensures no_offset_past_the_tokens { (eras : Eras) (history : History) (row : Row) (lines : List Mark)
        (stands : RowStands eras history row lines)
        → let point = last_point (first_point row) row.ends in
        point.offset + used (last_era eras) (drop point.offset (bytes history stands.file)) < row.offset → ⊥ }
    ensures no_file_unseen { (eras : Eras) (history : History) (row : Row) (file : ℕ)
        → (Contains (looked history) file → ⊥) → IsOwner eras history row file → ⊥ }
{}
