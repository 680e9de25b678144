// The calls of a disk in memory.
ghost use Rattle.std.specs.Prelude.{◌≡◌, ◌≤◌, ◌+◌, ◌↔◌, length, true, refl, Some, IsErr, IfOk, OnOk};
ghost use Rattle.outside.specs.Count.{HasCause, HasOneCause};
ghost use Rattle.outside.specs.Content.{Gives};
ghost use Rattle.outside.specs.Image.{AtFile, Torn, Holds, MayCut, IsCut, IsWithin, Same};
ghost use Rattle.outside.specs.Crash.{Passes, IsDurable};
ghost use Rattle.outside.specs.DiskCalls.{last_end, done_after, written_after};

use super::{MemDisk, own_file};
use out_segments::Parts;
use outside::{CallFault, Disk, DiskFile, Failed};
use std::alloc::Global;

impl Disk for MemDisk {
    ghost use Rattle.mem_world.specs.MemDisk.{history_of, fuse_of, failures_of, faults_of, seen_of, most_faults, done_of, most_done, written_of, disk_images, disk_meaning, next_fate, Counts, Calls, Writes};
    ghost use Rattle.mem_calls.specs.CallPlans.{failed, pending, left_of};
    ghost use Rattle.out_segments.specs.MemCount.{done_count};
    ghost use Rattle.out_segments.specs.MemLaws.{within_part};
    ghost use Rattle.out_segments.specs.declared.memory.log.Change.TheVariants.{Cut, Sync};
    ghost use Rattle.mem_world.specs.DiskLaws.{leaves_shown, left_now, left_only_now};

    ghost meaning = { disk_meaning };

    ghost told = { λ _ _ _. refl };

    ghost shown = { λ disk _. leaves_shown (history_of disk) };

    ghost counts_now = { λ disk from image early left. left_now (history_of disk) from image early left };

    ghost only_now = { λ disk image left. left_only_now (history_of disk) image left };

    ghost in_range = { λ disk. disk.parts.plans.failures.in_range };

    ghost within_bound = { λ disk. within_part (most_faults disk) (faults_of disk) (pending (failures_of disk)) disk.parts.plans.within };

    ghost within_limit = { λ disk. within_part (most_done disk) (done_count (history_of disk)) (left_of (fuse_of disk)) disk.parts.limited };

    fn length(&mut self, file: DiskFile) -> Result<u64, Failed>
        ensures length { IfOk result (λ size. size ≡ length (seen_of self.old file)) }
        ensures seen { seen_of self.new ≡ seen_of self.old }
        ensures crash { Passes disk_images Same self.old self.new }
        ensures cause { HasOneCause result (faults_of self.old) (faults_of self.new) }
        ensures bound { most_faults self.new ≡ most_faults self.old }
        ensures done { done_of self.new ≡ done_of self.old }
        ensures limit { most_done self.new ≡ most_done self.old }
        ensures counted { written_of self.new ≡ written_of self.old }

        // It fails where its fate wants.
        ensures fails { IsErr result ↔ (failed (next_fate self.old) ≡ true) }
        ensures counts { Counts self.old self.new }
        ensures history { history_of self.new ≡ history_of self.old }
    {
        self.parts.length(own_file(file))
    }

    fn read(&mut self, file: DiskFile, offset: u64, buf: &mut [u8]) -> Result<usize, Failed>
        ensures within { IfOk result (λ count. count ≤ length buf.new) }
        ensures bytes { IfOk result (λ count. Gives (seen_of self.old file) offset buf.new count) }
        ensures seen { seen_of self.new ≡ seen_of self.old }
        ensures crash { Passes disk_images Same self.old self.new }
        ensures cause { HasOneCause result (faults_of self.old) (faults_of self.new) }
        ensures bound { most_faults self.new ≡ most_faults self.old }
        ensures done { done_of self.new ≡ done_of self.old }
        ensures limit { most_done self.new ≡ most_done self.old }
        ensures counted { written_of self.new ≡ written_of self.old }

        // It fails where its fate wants.
        ensures fails { IsErr result ↔ (failed (next_fate self.old) ≡ true) }
        ensures counts { Counts self.old self.new }
        ensures history { history_of self.new ≡ history_of self.old }
    {
        self.parts.read(own_file(file), offset, buf)
    }

    fn write_at(
        &mut self,
        alloc: Global,
        file: DiskFile,
        offset: u64,
        bytes: &[u8],
    ) -> Result<(), CallFault>
        requires begins { offset ≤ length (seen_of self.old file) }
        requires ends { offset + length bytes.now ≤ last_end file }
        ensures written { OnOk result (AtFile file (Holds offset bytes.now) (seen_of self.old) (seen_of self.new)) }
        ensures begun { AtFile file (Torn offset (length bytes.now)) (seen_of self.old) (seen_of self.new) }
        ensures crash { Passes disk_images (AtFile file (Torn offset (length bytes.now))) self.old self.new }
        ensures cause { HasCause result (faults_of self.old) (faults_of self.new) }
        ensures bound { most_faults self.new ≡ most_faults self.old }
        ensures done { done_of self.new ≡ done_after result (done_of self.old) }
        ensures limit { most_done self.new ≡ most_done self.old }
        ensures counted { Some (written_of self.new) ≡ written_after file (length bytes.now) (Some (written_of self.old)) }

        // It does what its fate wants, or nothing where memory runs out.
        ensures calls { Writes file offset bytes.now result self.old self.new }
    {
        self.parts.write_at(alloc, own_file(file), offset, bytes)
    }

    fn cut(&mut self, alloc: Global, file: DiskFile, length: u64) -> Result<(), CallFault>
        requires { IsWithin length (seen_of self.old file) }
        ensures cut { OnOk result (AtFile file (IsCut length) (seen_of self.old) (seen_of self.new)) }
        ensures begun { AtFile file (MayCut length) (seen_of self.old) (seen_of self.new) }
        ensures crash { Passes disk_images (AtFile file (MayCut length)) self.old self.new }
        ensures cause { HasCause result (faults_of self.old) (faults_of self.new) }
        ensures bound { most_faults self.new ≡ most_faults self.old }
        ensures done { done_of self.new ≡ done_after result (done_of self.old) }
        ensures limit { most_done self.new ≡ most_done self.old }
        ensures counted { written_of self.new ≡ written_of self.old }

        // It does what its fate wants, or nothing where memory runs out.
        ensures calls { Calls file (Cut length) result self.old self.new }
    {
        self.parts.cut(alloc, own_file(file), length)
    }

    fn sync(&mut self, alloc: Global, file: DiskFile) -> Result<(), CallFault>
        ensures durable { OnOk result (IsDurable disk_images file self.new) }
        ensures seen { seen_of self.new ≡ seen_of self.old }
        ensures crash { Passes disk_images Same self.old self.new }
        ensures cause { HasCause result (faults_of self.old) (faults_of self.new) }
        ensures bound { most_faults self.new ≡ most_faults self.old }
        ensures done { done_of self.new ≡ done_after result (done_of self.old) }
        ensures limit { most_done self.new ≡ most_done self.old }
        ensures counted { written_of self.new ≡ written_of self.old }

        // It does what its fate wants, or nothing where memory runs out.
        ensures calls { Calls file Sync result self.old self.new }
    {
        self.parts.sync(alloc, own_file(file))
    }
}
