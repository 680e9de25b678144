// A write, and its sync.
ghost use Rattle.std.specs.Prelude.{◌≡◌, ◌+◌, ◌≤◌, length, IsTrue, OnOk};
ghost use Rattle.outside.specs.Count.{HasCause};
ghost use Rattle.outside.specs.Crash.{Passes};
ghost use Rattle.outside.specs.DiskCalls.{last_end, written_after};
ghost use Rattle.outside.specs.Image.{AtFile, Torn, Holds};
ghost use Rattle.slot_store.specs.Counted.{HasDone};
ghost use Rattle.slot_store.specs.OnlyRead.{KeepsTerms};
ghost use Rattle.slot_store.specs.Synced.{LeavesChanged};

use outside::{CallFault, Disk, DiskFile};
use std::alloc::Global;

/// Writes over what is there and past the end, and syncs. After Ok any crash leaves these bytes.
pub fn write_synced<D: Disk>(
    alloc: Global,
    disk: &mut D,
    file: DiskFile,
    offset: u64,
    bytes: &[u8],
) -> Result<(), CallFault>
    requires begins { IsTrue (D.meaning.images.tells disk.old) → offset ≤ length (D.meaning.images.seen disk.old file) }
    requires ends { offset + length bytes.now ≤ last_end file }
    ensures written { OnOk result (LeavesChanged D.meaning.images (AtFile file (Holds offset bytes.now)) disk.old disk.new) }
    ensures seen { OnOk result (IsTrue (D.meaning.images.tells disk.old)
        → AtFile file (Holds offset bytes.now) (D.meaning.images.seen disk.old) (D.meaning.images.seen disk.new)) }
    ensures begun { IsTrue (D.meaning.images.tells disk.old)
        → AtFile file (Torn offset (length bytes.now)) (D.meaning.images.seen disk.old) (D.meaning.images.seen disk.new) }
    ensures crash { Passes D.meaning.images (AtFile file (Torn offset (length bytes.now))) disk.old disk.new }
    ensures cause { HasCause result (D.meaning.faults disk.old) (D.meaning.faults disk.new) }
    ensures done { HasDone result 2 (D.meaning.done disk.old) (D.meaning.done disk.new) }
    ensures counted { D.meaning.written disk.new ≡ written_after file (length bytes.now) (D.meaning.written disk.old) }
    ensures terms { KeepsTerms D.meaning disk.old disk.new }
{
    disk.write_at(alloc, file, offset, bytes)?;
    disk.sync(alloc, file)?;
    Ok(())
}
