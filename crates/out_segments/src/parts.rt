// The files that a segmented output is kept in.
ghost use Rattle.std.specs.Prelude.{◌≡◌, ◌≤◌, ◌<◌, ◌+◌, ◌^◌, ℕ, length, IsTrue, OnOk, IfOk, IfSome};
ghost use Rattle.outside.specs.Count.{HasCause, HasOneCause, last_count};
ghost use Rattle.outside.specs.Content.{Gives};
ghost use Rattle.outside.specs.Image.{Image, AtFile, Torn, Holds, MayCut, IsCut, IsWithin, Same};
ghost use Rattle.outside.specs.Crash.{Passes, IsDurable};

use outside::{CallFault, Failed};
use std::alloc::Global;

/// One of the agent's own files, where the output is in many.
#[derive(Clone, Copy, Debug, PartialEq, Eq)]
pub enum PartFile {
    /// The settings, which the agent only reads.
    Settings,
    /// The first of the two files that a checkpoint is written to in turn.
    SlotA,
    /// The second of them.
    SlotB,
    /// A part of the output, counted from 0.
    Part(u32),
}

/// The agent's own files, with the output in many Parts. A file that isn't there has length 0.
///
/// Until a sync of it succeeds, a write may be there in part: its range, and what stands past the old end, may hold
/// any bytes after a crash. A cut leaves the old or the new length. A call that answers a fault counts as begun.
pub trait Parts {
    ghost use Rattle.out_segments.specs.declared.parts.PartFile.{PartFile};
    ghost use Rattle.out_segments.specs.PartsMeaning.{PartsMeaning};

    ghost meaning: { PartsMeaning Self };

    ghost use Rattle.outside.specs.DiskCalls.{done_after};
    ghost use Rattle.out_segments.specs.PartCalls.{slots_given};

    /// The file's length in bytes.
    fn length(&mut self, file: PartFile) -> Result<u64, Failed>
        ensures length { IfOk result (λ size. IsTrue ((meaning).images.tells self.old) → size ≡ length ((meaning).images.seen self.old file)) }
        ensures seen { (meaning).images.seen self.new ≡ (meaning).images.seen self.old }
        ensures tells { (meaning).images.tells self.new ≡ (meaning).images.tells self.old }
        ensures crash { Passes (meaning).images Same self.old self.new }
        ensures cause { HasOneCause result ((meaning).faults self.old) ((meaning).faults self.new) }
        ensures bound { (meaning).bound self.new ≡ (meaning).bound self.old }
        ensures done { (meaning).done self.new ≡ (meaning).done self.old }
        ensures limit { (meaning).limit self.new ≡ (meaning).limit self.old }
        ensures counted { (meaning).written self.new ≡ (meaning).written self.old };

    /// Fills the front of `buf` with the file's bytes from `offset`, and answers how many it gave: none only at
    /// the file's end, or for an empty `buf`.
    fn read(&mut self, file: PartFile, offset: u64, buf: &mut [u8]) -> Result<usize, Failed>
        ensures within { IfOk result (λ count. count ≤ length buf.new) }
        ensures bytes { IfOk result (λ count. IsTrue ((meaning).images.tells self.old) → Gives ((meaning).images.seen self.old file) offset buf.new count) }
        ensures seen { (meaning).images.seen self.new ≡ (meaning).images.seen self.old }
        ensures tells { (meaning).images.tells self.new ≡ (meaning).images.tells self.old }
        ensures crash { Passes (meaning).images Same self.old self.new }
        ensures cause { HasOneCause result ((meaning).faults self.old) ((meaning).faults self.new) }
        ensures bound { (meaning).bound self.new ≡ (meaning).bound self.old }
        ensures done { (meaning).done self.new ≡ (meaning).done self.old }
        ensures limit { (meaning).limit self.new ≡ (meaning).limit self.old }
        ensures counted { (meaning).written self.new ≡ (meaning).written self.old };

    /// Writes over what is there, and past the end.
    fn write_at(
        &mut self,
        alloc: Global,
        file: PartFile,
        offset: u64,
        bytes: &[u8],
    ) -> Result<(), CallFault>
        requires begins { IsTrue ((meaning).images.tells self.old) → offset ≤ length ((meaning).images.seen self.old file) }
        requires ends { offset + length bytes.now < 2 ^ 64 }
        ensures written { OnOk result (IsTrue ((meaning).images.tells self.old)
            → AtFile file (Holds offset bytes.now) ((meaning).images.seen self.old) ((meaning).images.seen self.new)) }
        ensures begun { IsTrue ((meaning).images.tells self.old)
            → AtFile file (Torn offset (length bytes.now)) ((meaning).images.seen self.old) ((meaning).images.seen self.new) }
        ensures tells { (meaning).images.tells self.new ≡ (meaning).images.tells self.old }
        ensures crash { Passes (meaning).images (AtFile file (Torn offset (length bytes.now))) self.old self.new }
        ensures cause { HasCause result ((meaning).faults self.old) ((meaning).faults self.new) }
        ensures bound { (meaning).bound self.new ≡ (meaning).bound self.old }
        ensures done { (meaning).done self.new ≡ done_after result ((meaning).done self.old) }
        ensures limit { (meaning).limit self.new ≡ (meaning).limit self.old }
        ensures counted { (meaning).written self.new ≡ slots_given file (length bytes.now) ((meaning).written self.old) };

    /// Cuts the file to a length in bytes.
    fn cut(&mut self, alloc: Global, file: PartFile, length: u64) -> Result<(), CallFault>
        requires { IsTrue ((meaning).images.tells self.old) → IsWithin length ((meaning).images.seen self.old file) }
        ensures cut { OnOk result (IsTrue ((meaning).images.tells self.old)
            → AtFile file (IsCut length) ((meaning).images.seen self.old) ((meaning).images.seen self.new)) }
        ensures begun { IsTrue ((meaning).images.tells self.old) → AtFile file (MayCut length) ((meaning).images.seen self.old) ((meaning).images.seen self.new) }
        ensures tells { (meaning).images.tells self.new ≡ (meaning).images.tells self.old }
        ensures crash { Passes (meaning).images (AtFile file (MayCut length)) self.old self.new }
        ensures cause { HasCause result ((meaning).faults self.old) ((meaning).faults self.new) }
        ensures bound { (meaning).bound self.new ≡ (meaning).bound self.old }
        ensures done { (meaning).done self.new ≡ done_after result ((meaning).done self.old) }
        ensures limit { (meaning).limit self.new ≡ (meaning).limit self.old }
        ensures counted { (meaning).written self.new ≡ (meaning).written self.old };

    /// Makes what reads give of the file what any crash leaves of it.
    fn sync(&mut self, alloc: Global, file: PartFile) -> Result<(), CallFault>
        ensures durable { OnOk result (IsDurable (meaning).images file self.new) }
        ensures seen { (meaning).images.seen self.new ≡ (meaning).images.seen self.old }
        ensures tells { (meaning).images.tells self.new ≡ (meaning).images.tells self.old }
        ensures crash { Passes (meaning).images Same self.old self.new }
        ensures cause { HasCause result ((meaning).faults self.old) ((meaning).faults self.new) }
        ensures bound { (meaning).bound self.new ≡ (meaning).bound self.old }
        ensures done { (meaning).done self.new ≡ done_after result ((meaning).done self.old) }
        ensures limit { (meaning).limit self.new ≡ (meaning).limit self.old }
        ensures counted { (meaning).written self.new ≡ (meaning).written self.old };

    /// Only Parts that tell their images tell what a crash may leave.
    ghost told: { (parts : Self) (image : Image PartFile) → (meaning).images.may_leave parts image → IsTrue ((meaning).images.tells parts) };

    /// What reads give is one of the images that a crash may leave.
    ghost shown: { (parts : Self) → IsTrue ((meaning).images.tells parts) → (meaning).images.may_leave parts ((meaning).images.seen parts) };

    /// The present is one of the moments since an earlier one.
    ghost counts_now: { (parts : Self) (from : ℕ) (image : Image PartFile) → from ≤ (meaning).images.moment parts → (meaning).images.may_leave parts image → (meaning).images.left_since parts from image };

    /// Since this moment there is no other.
    ghost only_now: { (parts : Self) (image : Image PartFile) → (meaning).images.left_since parts ((meaning).images.moment parts) image → (meaning).images.may_leave parts image };

    ghost in_range: { (parts : Self) → (meaning).faults parts ≤ last_count };

    ghost within_bound: { (parts : Self) → IfSome ((meaning).bound parts) (λ most. (meaning).faults parts ≤ most) };

    ghost within_limit: { (parts : Self) → IfSome ((meaning).limit parts) (λ most. IfSome ((meaning).done parts) (λ count. count ≤ most)) };
}
