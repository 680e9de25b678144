//! What the definitions imply.
ghost use Rattle.std.specs.Prelude.{◌≡◌, ◌≤◌, ℕ, List, length, take};
ghost use Rattle.auditor.specs.RowHolds.{RowHolds};
ghost use Rattle.auditor.specs.declared.Verdict.TheVariants.{Same, Differs};
ghost use Rattle.checkpoint_store.specs.Limits.{newest};
ghost use Rattle.checkpoint_store.specs.Rules.{IsCheckpoint};
ghost use Rattle.folder_audit.specs.Judged.{Judged, pipes_of};
ghost use Rattle.folder_audit.specs.KeptFiles.{IsFitRow, IsLast};
ghost use Rattle.folder_audit.specs.Limits.{largest_kept};
ghost use Rattle.pipeline.specs.MadeOf.{AreErasOf};
ghost use Rattle.folder_audit.specs.Made.{ArePipesOf};
ghost use Rattle.outside.specs.World.{World, bytes};
ghost use Rattle.pipeline.specs.declared.Pipeline.{Pipeline};
ghost use Rattle.standing.specs.Apart.{Apart};
ghost use Rattle.standing.specs.Eras.{Eras, AreEras};
ghost use Rattle.standing.specs.Rows.{Checkpoint, IsRowAt, Row};
ghost use Rattle.standing.specs.Stands.{CheckpointStands};

use glob_match::laws::text_spells_one_pattern;

/// A row that was found to hold holds by all bytes that its file has at the end.
pub fn rows_hold_by_whole_files()
    ensures { (eras : Eras) (texts : List (List ℕ)) (pipes : List Pipeline) (last : Pipeline) (place : ℕ) (row : Row) (output : List ℕ) (old new : World)
        → AreErasOf texts eras → ArePipesOf texts pipes → IsFitRow (length pipes) place row
        → (judged : Judged (pipes_of pipes row) last row output Same old new) → RowHolds eras (bytes new.history judged.file) row output }
{
    text_spells_one_pattern();
}

/// Where a checkpoint stands for what its files had before, and files can be told apart by their first bytes, no row is found to
/// differ.
pub fn no_row_that_stands_differs()
    ensures { (eras : Eras) (checkpoint : Checkpoint) (file : List ℕ) (pipes : List Pipeline) (last : Pipeline) (place : ℕ) (row : Row) (line : ℕ) (old new : World)
        → AreErasOf checkpoint.eras eras → CheckpointStands eras old.history checkpoint file → IsCheckpoint newest checkpoint
        → checkpoint.output_length ≤ largest_kept → Apart eras.first.front_size new.history → ArePipesOf checkpoint.eras pipes → IsLast pipes last
        → IsRowAt checkpoint.rows place row → IsFitRow (length pipes) place row
        → Judged (pipes_of pipes row) last row (take checkpoint.output_length file) (Differs line) old new → ⊥ }
{
    text_spells_one_pattern();
}
