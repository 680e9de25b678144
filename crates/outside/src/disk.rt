// The agent's own four files.
ghost use Rattle.std.specs.Prelude.{◌≡◌, ◌≤◌, ◌+◌, ℕ, length, IsTrue, OnOk, IfOk, IfSome};
ghost use Rattle.outside.specs.Count.{HasCause, HasOneCause, last_count};
ghost use Rattle.outside.specs.Content.{Gives};
ghost use Rattle.outside.specs.Image.{Image, AtFile, Torn, Holds, MayCut, IsCut, IsWithin, Same};
ghost use Rattle.outside.specs.Crash.{Passes, IsDurable};

use crate::{CallFault, Failed};
use std::alloc::Global;

/// One of the agent's own files.
#[derive(Clone, Copy, Debug, PartialEq, Eq)]
pub enum DiskFile {
    /// The settings, which the agent only reads.
    Settings,
    /// The output lines.
    Output,
    /// The first of the two files that a checkpoint is written to in turn.
    SlotA,
    /// The second of them.
    SlotB,
}

/// The agent's own four files. One that isn't there has length 0.
///
/// Until a sync of it succeeds, a write may be there in part: its range, and what stands past the old end, may hold
/// any bytes after a crash. A cut leaves the old or the new length. A call that answers a fault counts as begun.
pub trait Disk {
    ghost use Rattle.outside.specs.declared.disk.DiskFile.{DiskFile};
    ghost use Rattle.outside.specs.DiskMeaning.{DiskMeaning};

    ghost meaning: { DiskMeaning Self };

    ghost use Rattle.outside.specs.DiskCalls.{last_end, done_after, written_after};

    /// The file's length in bytes.
    fn length(&mut self, file: DiskFile) -> Result<u64, Failed>
        ensures length { IfOk result (λ size. IsTrue ((meaning).images.tells self.old) → size ≡ length ((meaning).images.seen self.old file)) }
        ensures seen { (meaning).images.seen self.new ≡ (meaning).images.seen self.old }
        ensures tells { (meaning).images.tells self.new ≡ (meaning).images.tells self.old }
        ensures crash { Passes (meaning).images Same self.old self.new }
        ensures cause { HasOneCause result ((meaning).faults self.old) ((meaning).faults self.new) }
        ensures bound { (meaning).bound self.new ≡ (meaning).bound self.old }
        ensures done { (meaning).done self.new ≡ (meaning).done self.old }
        ensures limit { (meaning).limit self.new ≡ (meaning).limit self.old }
        ensures counted { (meaning).written self.new ≡ (meaning).written self.old };

    /// Fills the front of `buf` with the file's bytes from `offset`, and answers how many it gave: none only at
    /// the file's end, or for an empty `buf`.
    fn read(&mut self, file: DiskFile, offset: u64, buf: &mut [u8]) -> Result<usize, Failed>
        ensures within { IfOk result (λ count. count ≤ length buf.new) }
        ensures bytes { IfOk result (λ count. IsTrue ((meaning).images.tells self.old) → Gives ((meaning).images.seen self.old file) offset buf.new count) }
        ensures seen { (meaning).images.seen self.new ≡ (meaning).images.seen self.old }
        ensures tells { (meaning).images.tells self.new ≡ (meaning).images.tells self.old }
        ensures crash { Passes (meaning).images Same self.old self.new }
        ensures cause { HasOneCause result ((meaning).faults self.old) ((meaning).faults self.new) }
        ensures bound { (meaning).bound self.new ≡ (meaning).bound self.old }
        ensures done { (meaning).done self.new ≡ (meaning).done self.old }
        ensures limit { (meaning).limit self.new ≡ (meaning).limit self.old }
        ensures counted { (meaning).written self.new ≡ (meaning).written self.old };

    /// Writes over what is there, and past the end.
    fn write_at(
        &mut self,
        alloc: Global,
        file: DiskFile,
        offset: u64,
        bytes: &[u8],
    ) -> Result<(), CallFault>
        requires begins { IsTrue ((meaning).images.tells self.old) → offset ≤ length ((meaning).images.seen self.old file) }
        requires ends { offset + length bytes.now ≤ last_end file }
        ensures written { OnOk result (IsTrue ((meaning).images.tells self.old)
            → AtFile file (Holds offset bytes.now) ((meaning).images.seen self.old) ((meaning).images.seen self.new)) }
        ensures begun { IsTrue ((meaning).images.tells self.old)
            → AtFile file (Torn offset (length bytes.now)) ((meaning).images.seen self.old) ((meaning).images.seen self.new) }
        ensures tells { (meaning).images.tells self.new ≡ (meaning).images.tells self.old }
        ensures crash { Passes (meaning).images (AtFile file (Torn offset (length bytes.now))) self.old self.new }
        ensures cause { HasCause result ((meaning).faults self.old) ((meaning).faults self.new) }
        ensures bound { (meaning).bound self.new ≡ (meaning).bound self.old }
        ensures done { (meaning).done self.new ≡ done_after result ((meaning).done self.old) }
        ensures limit { (meaning).limit self.new ≡ (meaning).limit self.old }
        ensures counted { (meaning).written self.new ≡ written_after file (length bytes.now) ((meaning).written self.old) };

    /// Cuts the file to a length in bytes.
    fn cut(&mut self, alloc: Global, file: DiskFile, length: u64) -> Result<(), CallFault>
        requires { IsTrue ((meaning).images.tells self.old) → IsWithin length ((meaning).images.seen self.old file) }
        ensures cut { OnOk result (IsTrue ((meaning).images.tells self.old)
            → AtFile file (IsCut length) ((meaning).images.seen self.old) ((meaning).images.seen self.new)) }
        ensures begun { IsTrue ((meaning).images.tells self.old) → AtFile file (MayCut length) ((meaning).images.seen self.old) ((meaning).images.seen self.new) }
        ensures tells { (meaning).images.tells self.new ≡ (meaning).images.tells self.old }
        ensures crash { Passes (meaning).images (AtFile file (MayCut length)) self.old self.new }
        ensures cause { HasCause result ((meaning).faults self.old) ((meaning).faults self.new) }
        ensures bound { (meaning).bound self.new ≡ (meaning).bound self.old }
        ensures done { (meaning).done self.new ≡ done_after result ((meaning).done self.old) }
        ensures limit { (meaning).limit self.new ≡ (meaning).limit self.old }
        ensures counted { (meaning).written self.new ≡ (meaning).written self.old };

    /// Makes what reads give of the file what any crash leaves of it.
    fn sync(&mut self, alloc: Global, file: DiskFile) -> Result<(), CallFault>
        ensures durable { OnOk result (IsDurable (meaning).images file self.new) }
        ensures seen { (meaning).images.seen self.new ≡ (meaning).images.seen self.old }
        ensures tells { (meaning).images.tells self.new ≡ (meaning).images.tells self.old }
        ensures crash { Passes (meaning).images Same self.old self.new }
        ensures cause { HasCause result ((meaning).faults self.old) ((meaning).faults self.new) }
        ensures bound { (meaning).bound self.new ≡ (meaning).bound self.old }
        ensures done { (meaning).done self.new ≡ done_after result ((meaning).done self.old) }
        ensures limit { (meaning).limit self.new ≡ (meaning).limit self.old }
        ensures counted { (meaning).written self.new ≡ (meaning).written self.old };

    /// Only a disk that tells its images tells what a crash may leave.
    ghost told: { (disk : Self) (image : Image DiskFile) → (meaning).images.may_leave disk image → IsTrue ((meaning).images.tells disk) };

    /// What reads give is one of the images that a crash may leave.
    ghost shown: { (disk : Self) → IsTrue ((meaning).images.tells disk) → (meaning).images.may_leave disk ((meaning).images.seen disk) };

    /// The present is one of the moments since an earlier one.
    ghost counts_now: { (disk : Self) (from : ℕ) (image : Image DiskFile) → from ≤ (meaning).images.moment disk → (meaning).images.may_leave disk image → (meaning).images.left_since disk from image };

    /// Since this moment there is no other.
    ghost only_now: { (disk : Self) (image : Image DiskFile) → (meaning).images.left_since disk ((meaning).images.moment disk) image → (meaning).images.may_leave disk image };

    ghost in_range: { (disk : Self) → (meaning).faults disk ≤ last_count };

    ghost within_bound: { (disk : Self) → IfSome ((meaning).bound disk) (λ most. (meaning).faults disk ≤ most) };

    ghost within_limit: { (disk : Self) → IfSome ((meaning).limit disk) (λ most. IfSome ((meaning).done disk) (λ count. count ≤ most)) };
}
