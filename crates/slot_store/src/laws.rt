//! What the definitions imply, for those who write the other files.
ghost use Rattle.std.specs.Prelude.{◌≡◌, ◌⊎◌, [], None, Some};
ghost use Rattle.outside.specs.Image.{Image};
ghost use Rattle.outside.specs.declared.disk.DiskFile.{DiskFile};
ghost use Rattle.slot_store.specs.ChosenSlot.{chosen_slot, chosen_payload};
ghost use Rattle.slot_store.specs.declared.slot.Slot.{Slot};

/// Two images with the same slot files choose the same slot, with the same payload.
pub fn slots_alone_choose()
    ensures slot { (old new : Image DiskFile) → new DiskFile.SlotA ≡ old DiskFile.SlotA
        → new DiskFile.SlotB ≡ old DiskFile.SlotB → chosen_slot new ≡ chosen_slot old }
    ensures payload { (old new : Image DiskFile) → new DiskFile.SlotA ≡ old DiskFile.SlotA
        → new DiskFile.SlotB ≡ old DiskFile.SlotB → chosen_payload new ≡ chosen_payload old }
{}

/// Without a byte in either file no slot is open.
pub fn empty_files_choose_none()
    ensures { (image : Image DiskFile) → image DiskFile.SlotA ≡ [] → image DiskFile.SlotB ≡ []
        → chosen_slot image ≡ None }
{}

/// A chosen slot is one of the two files.
pub fn chosen_slot_is_in_its_file()
    ensures { (image : Image DiskFile) (slot : Slot) → chosen_slot image ≡ Some slot
        → (slot.file ≡ DiskFile.SlotA) ⊎ (slot.file ≡ DiskFile.SlotB) }
{}
