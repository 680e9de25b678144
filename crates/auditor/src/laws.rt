//! What the definitions imply.
ghost use Rattle.std.specs.Prelude.{◌≡◌, ◌+◌, ◌<◌, ◌≤◌, ◌^◌, ℕ, [], ◌∷◌, ◌++◌, List, flat_map, length, take};
ghost use Rattle.auditor.specs.Asked.{cuts_before};
ghost use Rattle.auditor.specs.KeepsOrder.{KeepsOrder};
ghost use Rattle.auditor.specs.Rests.{HasRest};
ghost use Rattle.auditor.specs.RowHolds.{AreErasFrom, RowHolds};
ghost use Rattle.auditor.specs.Verdicts.{IsVerdict};
ghost use Rattle.auditor.specs.declared.Verdict.{Verdict};
ghost use Rattle.pipeline.specs.declared.Pipeline.{Pipeline};
ghost use Rattle.checkpoint_store.specs.Rules.{KeepsRules};
ghost use Rattle.checkpoint_store.specs.declared.beside.Beside.{Beside};
ghost use Rattle.kept_lines.specs.Lines.{whole_lines};
ghost use Rattle.kept_lines.specs.OwnLines.{AreOf};
ghost use Rattle.line_splitter.specs.Cuts.{cut};
ghost use Rattle.outside.specs.World.{History, bytes};
ghost use Rattle.standing.specs.Eras.{Eras, AreEras};
ghost use Rattle.standing.specs.Rows.{Row, Checkpoint, IsRowAt};
ghost use Rattle.standing.specs.Rules.{Rules};
ghost use Rattle.standing.specs.Stands.{CheckpointStands};

/// No token up to a row's offset is decided by bytes far behind it: what holds of a row by some first bytes of its file holds by
/// all, and, where these go on behind the offset by as many bytes as a token has at most and two, the other way round.
pub fn first_bytes_are_enough()
    ensures all { (eras : Eras) (pipes : List Pipeline) (content more : List ℕ) (row : Row) (kept : List ℕ)
        → AreErasFrom eras row.born pipes → length pipes ≡ length row.ends + 1
        → RowHolds eras content row kept → RowHolds eras (content ++ more) row kept }
    ensures first { (eras : Eras) (pipes : List Pipeline) (content more : List ℕ) (row : Row) (kept : List ℕ)
        → AreErasFrom eras row.born pipes → length pipes ≡ length row.ends + 1
        → HasRest pipes row.offset content → row.offset ≤ length content
        → RowHolds eras (content ++ more) row kept → RowHolds eras content row kept }
{}

/// Each row of a checkpoint that stands, with what it keeps of the output, holds by the bytes of its owner. So of such a row no
/// audit of these bytes differs.
pub fn what_stands_holds()
    ensures { (eras : Eras) (pipes : List Pipeline) (history : History) (checkpoint : Checkpoint) (file : List ℕ) (place : ℕ) (row : Row)
        (stands : CheckpointStands eras history checkpoint file) (at : IsRowAt checkpoint.rows place row)
        → AreEras eras → AreErasFrom eras row.born pipes → 0 < length pipes
        → checkpoint.observed < 2 ^ 64 → length checkpoint.rows < 2 ^ 64 → length (take checkpoint.output_length file) < 2 ^ 64
        → RowHolds eras (bytes history (stands.stands.lines_stand.each_row place row at).file) row (take checkpoint.output_length file) }
{}

/// For a row only its own lines count: an audit of these alone, one behind the other, has the same verdict as one of all that is
/// kept.
pub fn own_lines_are_enough()
    ensures alone { (id : ℕ) (kept : List ℕ) (own : List (List ℕ)) → AreOf id (whole_lines kept) own
        → AreOf id (whole_lines (flat_map (λ line. line) own)) own }
    ensures verdict { (eras : Eras) (rules : List Rules) (content : List ℕ) (row : Row) (kept other : List ℕ) (own : List (List ℕ)) (verdict : Verdict)
        → AreOf row.id (whole_lines kept) own → AreOf row.id (whole_lines other) own
        → IsVerdict eras rules content row kept verdict → IsVerdict eras rules content row other verdict }
{}

/// There is one verdict on a row.
pub fn verdicts_are_one()
    ensures { (eras : Eras) (rules : List Rules) (content : List ℕ) (row : Row) (kept : List ℕ) (verdict other : Verdict)
        → IsVerdict eras rules content row kept verdict → IsVerdict eras rules content row kept other → verdict ≡ other }
{}

/// Each row that is read of a checkpoint keeps the order that an audit asks of it.
pub fn rows_that_are_read_keep_order()
    ensures { (beside : Beside) (row : Row) → KeepsRules beside row → KeepsOrder row }
{}

/// The tokens up to a place are those that end there or before: of tokens that use 6, 1 and 6 bytes none up to 5, the first up to
/// 6, two from 7 on, and all up to 13.
pub fn tokens_end_before_their_place()
    ensures none { (a b c : List ℕ) → cuts_before 5 (cut a 6 ∷ cut b 1 ∷ cut c 6 ∷ []) ≡ [] }
    ensures one { (a b c : List ℕ) → cuts_before 6 (cut a 6 ∷ cut b 1 ∷ cut c 6 ∷ []) ≡ cut a 6 ∷ [] }
    ensures two { (a b c : List ℕ) → cuts_before 12 (cut a 6 ∷ cut b 1 ∷ cut c 6 ∷ []) ≡ cut a 6 ∷ cut b 1 ∷ [] }
    ensures all { (a b c : List ℕ) → cuts_before 13 (cut a 6 ∷ cut b 1 ∷ cut c 6 ∷ []) ≡ cut a 6 ∷ cut b 1 ∷ cut c 6 ∷ [] }
{}
