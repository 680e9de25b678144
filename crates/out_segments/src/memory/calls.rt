// The calls of Parts in memory.
ghost use Rattle.std.specs.Prelude.{◌≡◌, ◌≤◌, ◌<◌, ◌+◌, ◌^◌, ◌↔◌, length, true, refl, Some, IsErr, IfOk, OnOk};
ghost use Rattle.outside.specs.Count.{HasCause, HasOneCause};
ghost use Rattle.outside.specs.Content.{Gives};
ghost use Rattle.outside.specs.Image.{AtFile, Torn, Holds, MayCut, IsCut, IsWithin, Same};
ghost use Rattle.outside.specs.Crash.{Passes, IsDurable};
ghost use Rattle.outside.specs.DiskCalls.{done_after};
ghost use Rattle.out_segments.specs.PartCalls.{slots_given};

use super::MemParts;
use super::log::Change;
use crate::parts::{PartFile, Parts};
use outside::{CallFault, Failed};
use std::alloc::Global;

impl Parts for MemParts {
    ghost use Rattle.out_segments.specs.MemParts.{history_of, fuse_of, failures_of, faults_of, seen_of, most_faults, done_of, most_done, written_of, parts_images, parts_meaning, next_fate, Counts, Calls, Writes};
    ghost use Rattle.out_segments.specs.MemImages.{itself};
    ghost use Rattle.out_segments.specs.MemLaws.{leaves_shown, left_now, left_only_now, within_part};
    ghost use Rattle.mem_calls.specs.CallPlans.{failed, pending, left_of};
    ghost use Rattle.out_segments.specs.MemCount.{done_count};
    ghost use Rattle.out_segments.specs.declared.memory.log.Change.TheVariants.{Cut, Sync};

    ghost meaning = { parts_meaning };

    ghost told = { λ _ _ _. refl };

    ghost shown = { λ parts _. leaves_shown itself (history_of parts) };

    ghost counts_now = { λ parts from image early left. left_now itself (history_of parts) from image early left };

    ghost only_now = { λ parts image left. left_only_now itself (history_of parts) image left };

    ghost in_range = { λ parts. parts.plans.failures.in_range };

    ghost within_bound = { λ parts. within_part (most_faults parts) (faults_of parts) (pending (failures_of parts)) parts.plans.within };

    ghost within_limit = { λ parts. within_part (most_done parts) (done_count (history_of parts)) (left_of (fuse_of parts)) parts.limited };

    fn length(&mut self, file: PartFile) -> Result<u64, Failed>
        ensures length { IfOk result (λ size. size ≡ length (seen_of self.old file)) }
        ensures seen { seen_of self.new ≡ seen_of self.old }
        ensures crash { Passes parts_images Same self.old self.new }
        ensures cause { HasOneCause result (faults_of self.old) (faults_of self.new) }
        ensures bound { most_faults self.new ≡ most_faults self.old }
        ensures done { done_of self.new ≡ done_of self.old }
        ensures limit { most_done self.new ≡ most_done self.old }
        ensures counted { written_of self.new ≡ written_of self.old }

        // It fails where its fate wants.
        ensures fails { IsErr result ↔ (failed (next_fate self.old) ≡ true) }
        ensures counts { Counts self.old self.new }
        ensures history { history_of self.new ≡ history_of self.old }
    {
        self.look()?;
        Ok(self.bytes(file).len() as u64)
    }

    fn read(&mut self, file: PartFile, offset: u64, buf: &mut [u8]) -> Result<usize, Failed>
        ensures within { IfOk result (λ count. count ≤ length buf.new) }
        ensures bytes { IfOk result (λ count. Gives (seen_of self.old file) offset buf.new count) }
        ensures seen { seen_of self.new ≡ seen_of self.old }
        ensures crash { Passes parts_images Same self.old self.new }
        ensures cause { HasOneCause result (faults_of self.old) (faults_of self.new) }
        ensures bound { most_faults self.new ≡ most_faults self.old }
        ensures done { done_of self.new ≡ done_of self.old }
        ensures limit { most_done self.new ≡ most_done self.old }
        ensures counted { written_of self.new ≡ written_of self.old }

        // It fails where its fate wants.
        ensures fails { IsErr result ↔ (failed (next_fate self.old) ≡ true) }
        ensures counts { Counts self.old self.new }
        ensures history { history_of self.new ≡ history_of self.old }
    {
        self.look()?;
        let bytes = self.bytes(file);
        if offset >= bytes.len() as u64 {
            return Ok(0);
        }
        let rest = &bytes[offset as usize..];
        let count = rest.len().min(buf.len());
        buf[..count].copy_from_slice(&rest[..count]);
        Ok(count)
    }

    fn write_at(
        &mut self,
        alloc: Global,
        file: PartFile,
        offset: u64,
        bytes: &[u8],
    ) -> Result<(), CallFault>
        requires begins { offset ≤ length (seen_of self.old file) }
        requires ends { offset + length bytes.now < 2 ^ 64 }
        ensures written { OnOk result (AtFile file (Holds offset bytes.now) (seen_of self.old) (seen_of self.new)) }
        ensures begun { AtFile file (Torn offset (length bytes.now)) (seen_of self.old) (seen_of self.new) }
        ensures crash { Passes parts_images (AtFile file (Torn offset (length bytes.now))) self.old self.new }
        ensures cause { HasCause result (faults_of self.old) (faults_of self.new) }
        ensures bound { most_faults self.new ≡ most_faults self.old }
        ensures done { done_of self.new ≡ done_after result (done_of self.old) }
        ensures limit { most_done self.new ≡ most_done self.old }
        ensures counted { Some (written_of self.new) ≡ slots_given file (length bytes.now) (Some (written_of self.old)) }

        // It does what its fate wants, or nothing where memory runs out.
        ensures calls { Writes file offset bytes.now result self.old self.new }
    {
        let Ok(bytes) = bytes.to_vec(alloc) else {
            self.written = self.written_given(file, bytes.len());
            return Err(CallFault::Memory);
        };
        let offset = offset as usize;
        self.call(alloc, file, Change::Write { offset, bytes })
    }

    fn cut(&mut self, alloc: Global, file: PartFile, length: u64) -> Result<(), CallFault>
        requires { IsWithin length (seen_of self.old file) }
        ensures cut { OnOk result (AtFile file (IsCut length) (seen_of self.old) (seen_of self.new)) }
        ensures begun { AtFile file (MayCut length) (seen_of self.old) (seen_of self.new) }
        ensures crash { Passes parts_images (AtFile file (MayCut length)) self.old self.new }
        ensures cause { HasCause result (faults_of self.old) (faults_of self.new) }
        ensures bound { most_faults self.new ≡ most_faults self.old }
        ensures done { done_of self.new ≡ done_after result (done_of self.old) }
        ensures limit { most_done self.new ≡ most_done self.old }
        ensures counted { written_of self.new ≡ written_of self.old }

        // It does what its fate wants, or nothing where memory runs out.
        ensures calls { Calls file (Cut length) result self.old self.new }
    {
        let length = length as usize;
        self.call(alloc, file, Change::Cut { length })
    }

    fn sync(&mut self, alloc: Global, file: PartFile) -> Result<(), CallFault>
        ensures durable { OnOk result (IsDurable parts_images file self.new) }
        ensures seen { seen_of self.new ≡ seen_of self.old }
        ensures crash { Passes parts_images Same self.old self.new }
        ensures cause { HasCause result (faults_of self.old) (faults_of self.new) }
        ensures bound { most_faults self.new ≡ most_faults self.old }
        ensures done { done_of self.new ≡ done_after result (done_of self.old) }
        ensures limit { most_done self.new ≡ most_done self.old }
        ensures counted { written_of self.new ≡ written_of self.old }

        // It does what its fate wants, or nothing where memory runs out.
        ensures calls { Calls file Sync result self.old self.new }
    {
        self.call(alloc, file, Change::Sync)
    }
}
