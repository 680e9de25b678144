//! What the definitions imply, for those who say what a log holds.
ghost use Rattle.std.specs.Prelude.{◌≡◌, ◌≤◌, ℕ, List, length, Some};
ghost use Rattle.outside.specs.Image.{Image, AtFile, IsCut};
ghost use Rattle.outside.specs.declared.disk.DiskFile.{DiskFile};
ghost use Rattle.slot_store.specs.ChosenSlot.{chosen_slot};
ghost use Rattle.slot_store.specs.Frame.{last_number};
ghost use Rattle.slot_store.specs.declared.slot.Slot.{Slot};
ghost use Rattle.record_log.specs.LogOf.{HasLog, EndsWith, SomeLog, log_size};
ghost use Rattle.record_log.specs.declared.log.Log.{Log};

/// An image has one log at most, with one base and one list of records.
pub fn an_image_has_one_log()
    ensures log { (image : Image DiskFile) (log other : Log) (base other_base : List ℕ) (records others : List (List ℕ))
        → HasLog log base records image → HasLog other other_base others image → other ≡ log }
    ensures base { (image : Image DiskFile) (log other : Log) (base other_base : List ℕ) (records others : List (List ℕ))
        → HasLog log base records image → HasLog other other_base others image → other_base ≡ base }
    ensures records { (image : Image DiskFile) (log other : Log) (base other_base : List ℕ) (records others : List (List ℕ))
        → HasLog log base records image → HasLog other other_base others image → others ≡ records }
{}

/// An image that chooses a slot has a log of it.
pub fn a_chosen_slot_has_a_log()
    ensures { (image : Image DiskFile) (slot : Slot) → chosen_slot image ≡ Some slot → SomeLog slot image }
{}

/// A log ends behind its base and its records, inside its file.
pub fn a_log_is_as_long_as_what_it_holds()
    ensures base { (image : Image DiskFile) (log : Log) (base : List ℕ) (records : List (List ℕ))
        → HasLog log base records image → length base ≡ log.slot.length }
    ensures size { (image : Image DiskFile) (log : Log) (base : List ℕ) (records : List (List ℕ))
        → HasLog log base records image → log.end ≡ log_size base records }
    ensures within { (image : Image DiskFile) (log : Log) (base : List ℕ) (records : List (List ℕ))
        → HasLog log base records image → log.end ≤ length (image log.slot.file) }
    ensures in_range { (image : Image DiskFile) (log : Log) (base : List ℕ) (records : List (List ℕ))
        → HasLog log base records image → log.end ≤ last_number }
{}

/// A file that is cut to the end of its log keeps the log and ends with it, and what stands in the files that are no
/// slots doesn't count.
pub fn what_a_log_stands_on()
    ensures cut { (old new : Image DiskFile) (log : Log) (base : List ℕ) (records : List (List ℕ))
        → HasLog log base records old → AtFile log.slot.file (IsCut log.end) old new → HasLog log base records new }
    ensures ends { (old new : Image DiskFile) (log : Log) (base : List ℕ) (records : List (List ℕ))
        → HasLog log base records old → AtFile log.slot.file (IsCut log.end) old new → EndsWith log new }
    ensures slots { (old new : Image DiskFile) (log : Log) (base : List ℕ) (records : List (List ℕ))
        → new DiskFile.SlotA ≡ old DiskFile.SlotA → new DiskFile.SlotB ≡ old DiskFile.SlotB
        → HasLog log base records old → HasLog log base records new }
{}
