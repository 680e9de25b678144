//! What the definitions imply, for those who use a journal.
ghost use Rattle.std.specs.Prelude.{◌≡◌, ◌≤◌, ◌+◌, ◌^◌, ◌⊎◌, ℕ, length, sum_by, Option, None, Some};
ghost use Rattle.outside.specs.Image.{Image, AtFile, IsCut};
ghost use Rattle.outside.specs.declared.disk.DiskFile.{DiskFile};
ghost use Rattle.slot_store.specs.ChosenSlot.{chosen_slot};
ghost use Rattle.slot_store.specs.Frame.{last_number};
ghost use Rattle.checkpoint_store.specs.Changed.{changed};
ghost use Rattle.checkpoint_store.specs.Fits.{Fits};
ghost use Rattle.checkpoint_store.specs.Limits.{newest};
ghost use Rattle.checkpoint_store.specs.Rules.{IsVersion, IsCheckpoint};
ghost use Rattle.checkpoint_store.specs.Spelling.{row_spelling, change_spelling, checkpoint_spelling};
ghost use Rattle.checkpoint_store.specs.declared.Change.{Change};
ghost use Rattle.checkpoint_store.specs.declared.Checkpoint.{Checkpoint};
ghost use Rattle.checkpoint_journal.specs.JournalOf.{HasJournal, EndsWith, HasCheckpoint, IsBadAt};
ghost use Rattle.checkpoint_journal.specs.Written.{Appends, StandsIn, Rewrites};
ghost use Rattle.checkpoint_journal.specs.declared.journal.Journal.{Journal};

/// An image has one journal at most, with one checkpoint. Its base is of a version that is known, and the checkpoint keeps
/// the rules of that version, so those of the newest, by which it can be rewritten.
pub fn an_image_has_one_journal()
    ensures journal { (image : Image DiskFile) (journal other : Journal) (checkpoint other_checkpoint : Checkpoint)
        → HasJournal journal checkpoint image → HasJournal other other_checkpoint image → other ≡ journal }
    ensures checkpoint { (image : Image DiskFile) (journal other : Journal) (checkpoint other_checkpoint : Checkpoint)
        → HasJournal journal checkpoint image → HasJournal other other_checkpoint image → other_checkpoint ≡ checkpoint }
    ensures version { (image : Image DiskFile) (journal : Journal) (checkpoint : Checkpoint)
        → HasJournal journal checkpoint image → IsVersion journal.version }
    ensures lawful { (image : Image DiskFile) (journal : Journal) (checkpoint : Checkpoint)
        → HasJournal journal checkpoint image → IsCheckpoint journal.version checkpoint }
    ensures newest { (image : Image DiskFile) (journal : Journal) (checkpoint : Checkpoint)
        → HasJournal journal checkpoint image → IsCheckpoint newest checkpoint }
{}

/// An image that has no reading from some byte on has that one place, an open slot, and no journal.
pub fn a_bad_image_has_one_place()
    ensures place { (image : Image DiskFile) (at other : ℕ) → IsBadAt at image → IsBadAt other image → other ≡ at }
    ensures no_journal { (image : Image DiskFile) (at : ℕ) (journal : Journal) (checkpoint : Checkpoint)
        → IsBadAt at image → HasJournal journal checkpoint image → ⊥ }
    ensures slot { (image : Image DiskFile) (at : ℕ) → IsBadAt at image → chosen_slot image ≡ None → ⊥ }
{}

/// A journal ends inside its file. A file that is cut there keeps the journal and ends with it, and what stands in the
/// files that are no slots doesn't count.
pub fn what_a_journal_stands_on()
    ensures within { (image : Image DiskFile) (journal : Journal) (checkpoint : Checkpoint)
        → HasJournal journal checkpoint image → journal.end ≤ length (image journal.slot.file) }
    ensures in_range { (image : Image DiskFile) (journal : Journal) (checkpoint : Checkpoint)
        → HasJournal journal checkpoint image → journal.end ≤ last_number }
    ensures cut { (old new : Image DiskFile) (journal : Journal) (checkpoint : Checkpoint)
        → HasJournal journal checkpoint old → AtFile journal.slot.file (IsCut journal.end) old new
        → EndsWith journal checkpoint new }
    ensures slots { (old new : Image DiskFile) (journal : Journal) (checkpoint : Checkpoint)
        → new DiskFile.SlotA ≡ old DiskFile.SlotA → new DiskFile.SlotB ≡ old DiskFile.SlotB
        → HasJournal journal checkpoint old → HasJournal journal checkpoint new }
{}

/// An image that an append may leave has the checkpoint of the image that it comes from, or that one changed. One that a
/// rewrite may leave has the old checkpoint or the new.
pub fn the_checkpoint_is_old_or_new()
    ensures append { (journal : Journal) (change : Change) (checkpoint : Checkpoint) (old new : Image DiskFile)
        → Appends journal change old new → HasJournal journal checkpoint old → Fits newest checkpoint change
        → HasCheckpoint (Some checkpoint) new ⊎ HasCheckpoint (Some (changed checkpoint change)) new }
    ensures rewrite { (before : Option Journal) (checkpoint : Checkpoint) (found : Option Checkpoint) (old new : Image DiskFile)
        → Rewrites before checkpoint old new → StandsIn before old → HasCheckpoint found old
        → HasCheckpoint found new ⊎ HasCheckpoint (Some checkpoint) new }
{}

/// No spelling of a checkpoint takes more than 2^52 bytes, and none of a change that fits one more than 2^53.
pub fn spellings_are_short()
    ensures checkpoint { (version : ℕ) (checkpoint : Checkpoint) → IsCheckpoint version checkpoint → length (checkpoint_spelling version checkpoint) ≤ 2 ^ 52 }
    ensures change { (version : ℕ) (before : Checkpoint) (change : Change) → Fits version before change → length (change_spelling version change) ≤ 2 ^ 53 }
{}

/// What an append gives to writes is little beside the rows that changed.
pub fn changes_cost_little()
    ensures { (version : ℕ) (change : Change) → length (change_spelling version change) + 18 ≤ 64 + sum_by (λ row. 16 + length (row_spelling version row)) change.rows }
{}
