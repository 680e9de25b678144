// The journal of a disk.
ghost use Rattle.std.specs.Prelude.{◌≡◌, ◌≢◌, ℕ, ◌≤◌, ◌^◌, length, map, Err, IsTrue, IfOk, IfSome};
ghost use Rattle.slot_store.specs.ChosenSlot.{IsSlotFile};
ghost use Rattle.slot_store.specs.Frame.{last_number};
ghost use Rattle.slot_store.specs.OnlyRead.{OnlyRead};
ghost use Rattle.record_log.specs.LogOf.{log_size};
ghost use Rattle.checkpoint_store.specs.Rules.{IsVersion, IsCheckpoint};
ghost use Rattle.checkpoint_journal.specs.JournalCause.{HasJournalCause};
ghost use Rattle.checkpoint_journal.specs.JournalOf.{FoundIn, IsBadAt, IsUnderstood};
ghost use Rattle.checkpoint_journal.specs.Says.{Fails};

use crate::fault::JournalFault;
use crate::journal::Journal;
use crate::reading::{checkpoint_of, version_of};
use checkpoint_store::Checkpoint;
use outside::Disk;
use record_log::{Contents, read};
use std::alloc::Global;

/// The journal that counts and its checkpoint. None where no slot is open. Nothing is written.
pub fn peek<D: Disk>(
    alloc: Global,
    disk: &mut D,
) -> Result<Option<(Journal, Checkpoint)>, JournalFault>
    ensures found { IfOk result (λ found. IsTrue (D.meaning.images.tells disk.old) → FoundIn found (D.meaning.images.seen disk.old)) }
    ensures bad { (at : ℕ) → result ≡ Err (JournalFault.Bad at) → IsTrue (D.meaning.images.tells disk.old)
        → IsBadAt at (D.meaning.images.seen disk.old) }
    ensures file { IfOk result (λ found. IfSome found (λ found. IsSlotFile found.0.slot.file)) }
    ensures version { IfOk result (λ found. IfSome found (λ found. IsVersion found.0.version)) }
    ensures lawful { IfOk result (λ found. IfSome found (λ found. IsCheckpoint found.0.version found.1)) }
    ensures short { IfOk result (λ found. IfSome found (λ found. found.0.slot.length ≤ 2 ^ 52)) }
    ensures only_read { OnlyRead D.meaning disk.old disk.new }
    ensures cause { HasJournalCause result (D.meaning.faults disk.old) (D.meaning.faults disk.new) }
{
    match read(alloc, disk)? {
        Some(contents) => Ok(Some(understood(alloc, contents)?)),
        None => Ok(None),
    }
}

// The journal of these bytes and its checkpoint.
fn understood(alloc: Global, contents: Contents) -> Result<(Journal, Checkpoint), JournalFault>
    requires { contents.log.slot.length ≡ length contents.base.items }
    ensures version { IfOk result (λ found. IsVersion found.0.version) }
    ensures lawful { IfOk result (λ found. IsCheckpoint found.0.version found.1) }
    ensures short { IfOk result (λ found. found.0.slot.length ≤ 2 ^ 52) }
    ensures understood { IfOk result (λ found. IsUnderstood contents found.0 found.1) }
    ensures bad { (at : ℕ) → result ≡ Err (JournalFault.Bad at)
        → log_size contents.base.items (map (λ payload. payload.items) contents.records.items) ≤ last_number
        → Fails contents.base.items (map (λ payload. payload.items) contents.records.items) at }
    ensures no_disk { result ≢ Err JournalFault.Disk }
{
    let checkpoint = checkpoint_of(alloc, &contents.base, &contents.records)?;
    let journal = Journal::over(contents.log, version_of(&contents.base));
    Ok((journal, checkpoint))
}
