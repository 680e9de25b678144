// Stops, and what a crash makes of a disk.
ghost use Rattle.std.specs.Prelude.{◌≡◌, OnOk};
ghost use Rattle.lifetimes.specs.Inner.Past.{Failures, IsDiskAt, LeavesAt, Past, dropped};
ghost use Rattle.mem_world.specs.DiskFiles.{tear_of};
ghost use Rattle.out_segments.specs.CrashOutcome.{left_by};
ghost use Rattle.mem_world.specs.DiskFiles.{calls_of};
ghost use Rattle.mem_world.specs.MemDisk.{history_of, seen_of};
ghost use Rattle.outside.specs.declared.disk.DiskFile.{DiskFile};
ghost use Rattle.standing.specs.Rules.{Rules};

use mem_world::MemDisk;
use std::alloc::{AllocError, Global};
use std::mem;

// So many calls on the disk pass, and this image is what a crash then leaves.
#[derive(Clone, Copy)]
pub(crate) struct Stopping {
    pub(crate) calls: u32,
    pub(crate) outcome: u32,
}

// The disk becomes what a crash leaves of it.
pub(crate) fn crash(alloc: Global, disk: &mut MemDisk, outcome: u32) -> Result<(), AllocError>
    ensures left { OnOk result ((rules : Rules) (past : Past) (failures : Failures) → LeavesAt rules past disk.old → IsDiskAt rules past (dropped failures) disk.new) }
    ensures outcome { OnOk result ((file : DiskFile) → seen_of disk.new file ≡ left_by (tear_of outcome file) (calls_of file (history_of disk.old))) }
{
    let empty = MemDisk::new(alloc)?;
    let stopped = mem::replace(disk, empty);
    *disk = stopped.crash(alloc, outcome)?;
    Ok(())
}
