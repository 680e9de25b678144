//! What holds of the definitions themselves. No spelling begins another of its kind, and what was encoded is read back. A
//! change that fits a checkpoint makes a checkpoint of it, in which exactly the rows of the change are changed.
ghost use Rattle.std.specs.Prelude.{◌≡◌, ◌≤◌, ◌++◌, ℕ, List, Result};
ghost use Rattle.state_codec.specs.declared.CodecFault.{CodecFault};
ghost use Rattle.file_tracker.specs.declared.row.Row.{Row};
ghost use Rattle.checkpoint_store.specs.Limits.{newest, output_limit};
ghost use Rattle.checkpoint_store.specs.declared.Checkpoint.{Checkpoint};
ghost use Rattle.checkpoint_store.specs.declared.Change.{Change};
ghost use Rattle.checkpoint_store.specs.declared.beside.Beside.{Beside};
ghost use Rattle.checkpoint_store.specs.Rules.{IsVersion, KeepsRules, IsCheckpoint};
ghost use Rattle.checkpoint_store.specs.Spelling.{row_spelling, checkpoint_spelling, change_spelling};
ghost use Rattle.checkpoint_store.specs.Fits.{Fits};
ghost use Rattle.checkpoint_store.specs.Changed.{changed, HasChanged};
ghost use Rattle.checkpoint_store.specs.Decodes.{Spells, Decodes, Answers};
ghost use Rattle.checkpoint_store.specs.Applied.{Applies};
ghost use Rattle.checkpoint_store.specs.Worked.{empty_checkpoint, empty_1, empty_2, empty_3};

/// No spelling of a row begins another of its version.
pub fn rows_are_told()
    ensures { (beside : Beside) (one other : Row) (x y : List ℕ) → beside.output_length ≤ output_limit
        → KeepsRules beside one → KeepsRules beside other
        → row_spelling beside.version one ++ x ≡ row_spelling beside.version other ++ y → (one ≡ other) × (x ≡ y) }
{}

/// No spelling of a checkpoint begins another, also of another version.
pub fn checkpoints_are_told()
    ensures { (v w : ℕ) (one other : Checkpoint) (x y : List ℕ) → IsVersion v → IsVersion w → IsCheckpoint v one → IsCheckpoint w other
        → checkpoint_spelling v one ++ x ≡ checkpoint_spelling w other ++ y → (v ≡ w) × (one ≡ other) × (x ≡ y) }
{}

/// No spelling of a change begins another that fits the same checkpoint.
pub fn changes_are_told()
    ensures { (version : ℕ) (before : Checkpoint) (one other : Change) (x y : List ℕ) → Fits version before one → Fits version before other
        → change_spelling version one ++ x ≡ change_spelling version other ++ y → (one ≡ other) × (x ≡ y) }
{}

/// A change that fits a checkpoint makes a checkpoint of it, of the same version.
pub fn changes_keep_the_rules()
    ensures { (version : ℕ) (before : Checkpoint) (change : Change) → IsCheckpoint version before → Fits version before change
        → IsCheckpoint version (changed before change) }
{}

/// Exactly the rows of the change are changed.
pub fn changes_are_exact()
    ensures { (version : ℕ) (before : Checkpoint) (change : Change) → IsCheckpoint version before → Fits version before change
        → HasChanged before change (changed before change) }
{}

/// Nothing else has exactly these rows changed.
pub fn changed_is_determined()
    ensures { (version : ℕ) (before : Checkpoint) (change : Change) (after : Checkpoint) → IsCheckpoint version before
        → Fits version before change → HasChanged before change after → after ≡ changed before change }
{}

/// A checkpoint that was encoded is decoded again, by whichever version.
pub fn encoded_checkpoints_decode()
    ensures { (version : ℕ) (c : Checkpoint) (answer : Result Checkpoint CodecFault) → IsVersion version → IsCheckpoint version c
        → Decodes (checkpoint_spelling version c) answer → Answers c answer }
{}

/// A checkpoint of any version is one of the newest, so that what was read of an older one can be written again.
pub fn older_checkpoints_are_newest()
    ensures { (version : ℕ) (c : Checkpoint) → IsCheckpoint version c → IsCheckpoint newest c }
{}

/// What was read of a checkpoint of any version and was encoded by the newest is decoded to the same.
pub fn rewritten_checkpoints_decode()
    ensures { (bytes : List ℕ) (c : Checkpoint) (answer : Result Checkpoint CodecFault) → Spells bytes c
        → Decodes (checkpoint_spelling newest c) answer → Answers c answer }
{}

/// A change that was encoded is applied.
pub fn encoded_changes_apply()
    ensures { (version : ℕ) (before : Checkpoint) (change : Change) (answer : Result Checkpoint CodecFault) → Fits version before change
        → Applies version before (change_spelling version change) answer → Answers (changed before change) answer }
{}

/// The smallest checkpoint has 23 bytes by version 1, 31 by version 2 and 35 by version 3.
pub fn empty_checkpoints_are_spelled()
    ensures first { checkpoint_spelling 1 empty_checkpoint ≡ empty_1 }
    ensures second { checkpoint_spelling 2 empty_checkpoint ≡ empty_2 }
    ensures third { checkpoint_spelling 3 empty_checkpoint ≡ empty_3 }
{}
