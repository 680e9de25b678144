// What stands behind the journal and behind the output that is kept is cut off.
ghost use Rattle.std.specs.Prelude.{◌≡◌, length, IsTrue, IfOk, OnOk};
ghost use Rattle.checkpoint_journal.specs.Memory.{EndsWithMemory};
ghost use Rattle.outside.specs.Count.{HasCause};
ghost use Rattle.outside.specs.Crash.{Passes};
ghost use Rattle.outside.specs.Image.{AtFile, IsCut, MayCut};
ghost use Rattle.poll_core.specs.Calls.{CutsAndSyncs};
ghost use Rattle.poll_core.specs.Remembers.{GoesOnFrom};
ghost use Rattle.poll_core.specs.Reopens.{Reopens, TrimsSlots};
ghost use Rattle.poll_core.specs.SessionParts.{checkpoint_of_session, journal_of_session, kept_of};
ghost use Rattle.poll_core.specs.Settled.{IsSettled};
ghost use Rattle.poll_core.specs.StandsOn.{StandsOn};
ghost use Rattle.slot_store.specs.OnlyRead.{OnlyRead};

use crate::Session;
use outside::{CallFault, Disk, DiskFile, Failed};
use slot_store::cut_synced;
use std::alloc::Global;

impl Session {
    /// Leaves the disk as the session is to find it.
    pub(crate) fn cut_behind<D: Disk>(&self, alloc: Global, disk: &mut D) -> Result<(), CallFault>
        requires settled { IsSettled D.meaning.images disk.old }
        requires goes_on { IsTrue (D.meaning.images.tells disk.old) → GoesOnFrom self.now (D.meaning.images.seen disk.old) }
        ensures stands { OnOk result (StandsOn D.meaning.images self.now disk.new) }
        ensures crash { Passes D.meaning.images Reopens disk.old disk.new }
        ensures seen { IsTrue (D.meaning.images.tells disk.old)
            → Reopens (D.meaning.images.seen disk.old) (D.meaning.images.seen disk.new) }
        ensures cause { HasCause result (D.meaning.faults disk.old) (D.meaning.faults disk.new) }
        ensures calls { CutsAndSyncs 4 D.meaning disk.old disk.new }
    {
        self.cut_slot(alloc, disk)?;
        cut_longer(alloc, disk, DiskFile::Output, self.kept)?;
        Ok(())
    }

    // Cuts the chosen file to the end of the journal.
    fn cut_slot<D: Disk>(&self, alloc: Global, disk: &mut D) -> Result<(), CallFault>
        requires settled { IsSettled D.meaning.images disk.old }
        requires goes_on { IsTrue (D.meaning.images.tells disk.old) → GoesOnFrom self.now (D.meaning.images.seen disk.old) }
        ensures settled { OnOk result (IsSettled D.meaning.images disk.new) }
        ensures ends { OnOk result (IsTrue (D.meaning.images.tells disk.old)
            → EndsWithMemory (journal_of_session self.now) (checkpoint_of_session self.now) (D.meaning.images.seen disk.new)) }
        ensures crash { Passes D.meaning.images (TrimsSlots (kept_of self.now)) disk.old disk.new }
        ensures seen { IsTrue (D.meaning.images.tells disk.old)
            → TrimsSlots (kept_of self.now) (D.meaning.images.seen disk.old) (D.meaning.images.seen disk.new) }
        ensures cause { HasCause result (D.meaning.faults disk.old) (D.meaning.faults disk.new) }
        ensures calls { CutsAndSyncs 2 D.meaning disk.old disk.new }
    {
        match self.journal {
            Some(journal) => cut_longer(alloc, disk, journal.slot.file, journal.end),
            None => Ok(()),
        }
    }
}

// Cuts a file to a length in bytes and syncs it, where it is longer.
fn cut_longer<D: Disk>(
    alloc: Global,
    disk: &mut D,
    file: DiskFile,
    length: u64,
) -> Result<(), CallFault>
    requires { IsSettled D.meaning.images disk.old }
    ensures settled { OnOk result (IsSettled D.meaning.images disk.new) }
    ensures cut { OnOk result (IsTrue (D.meaning.images.tells disk.old)
        → AtFile file (IsCut length) (D.meaning.images.seen disk.old) (D.meaning.images.seen disk.new)) }
    ensures begun { IsTrue (D.meaning.images.tells disk.old)
        → AtFile file (MayCut length) (D.meaning.images.seen disk.old) (D.meaning.images.seen disk.new) }
    ensures crash { Passes D.meaning.images (AtFile file (MayCut length)) disk.old disk.new }
    ensures cause { HasCause result (D.meaning.faults disk.old) (D.meaning.faults disk.new) }
    ensures calls { CutsAndSyncs 2 D.meaning disk.old disk.new }
{
    let size = size_of(disk, file)?;
    if size > length {
        cut_synced(alloc, disk, file, length)?;
    }
    Ok(())
}

// The file's length, with the fault of a call that takes memory.
fn size_of<D: Disk>(disk: &mut D, file: DiskFile) -> Result<u64, CallFault>
    ensures size { IfOk result (λ size. IsTrue (D.meaning.images.tells disk.old)
        → size ≡ length (D.meaning.images.seen disk.old file)) }
    ensures only_read { OnlyRead D.meaning disk.old disk.new }
    ensures cause { HasCause result (D.meaning.faults disk.old) (D.meaning.faults disk.new) }
{
    match disk.length(file) {
        Ok(size) => Ok(size),
        Err(Failed) => Err(CallFault::Failed),
    }
}
