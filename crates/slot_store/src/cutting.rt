// A cut, and its sync.
ghost use Rattle.std.specs.Prelude.{◌≡◌, IsTrue, OnOk};
ghost use Rattle.outside.specs.Count.{HasCause};
ghost use Rattle.outside.specs.Crash.{Passes};
ghost use Rattle.outside.specs.Image.{AtFile, MayCut, IsCut, IsWithin};
ghost use Rattle.slot_store.specs.Counted.{HasDone};
ghost use Rattle.slot_store.specs.OnlyRead.{KeepsTerms};
ghost use Rattle.slot_store.specs.Synced.{LeavesChanged};

use outside::{CallFault, Disk, DiskFile};
use std::alloc::Global;

/// Cuts the file to a length in bytes, and syncs. After Ok any crash leaves it cut.
pub fn cut_synced<D: Disk>(
    alloc: Global,
    disk: &mut D,
    file: DiskFile,
    length: u64,
) -> Result<(), CallFault>
    requires { IsTrue (D.meaning.images.tells disk.old) → IsWithin length (D.meaning.images.seen disk.old file) }
    ensures cut { OnOk result (LeavesChanged D.meaning.images (AtFile file (IsCut length)) disk.old disk.new) }
    ensures seen { OnOk result (IsTrue (D.meaning.images.tells disk.old)
        → AtFile file (IsCut length) (D.meaning.images.seen disk.old) (D.meaning.images.seen disk.new)) }
    ensures begun { IsTrue (D.meaning.images.tells disk.old)
        → AtFile file (MayCut length) (D.meaning.images.seen disk.old) (D.meaning.images.seen disk.new) }
    ensures crash { Passes D.meaning.images (AtFile file (MayCut length)) disk.old disk.new }
    ensures cause { HasCause result (D.meaning.faults disk.old) (D.meaning.faults disk.new) }
    ensures done { HasDone result 2 (D.meaning.done disk.old) (D.meaning.done disk.new) }
    ensures counted { D.meaning.written disk.new ≡ D.meaning.written disk.old }
    ensures terms { KeepsTerms D.meaning disk.old disk.new }
{
    disk.cut(alloc, file, length)?;
    disk.sync(alloc, file)?;
    Ok(())
}
