// A disk in memory.
ghost use Rattle.std.specs.Prelude.{◌≡◌, ℕ, ◌+◌, ◌∷◌, ◌++◌, [], IsOk, IfOk, OnOk, OnErr, None, Some, option_map, if◌then◌else◌};
ghost use Rattle.mem_calls.specs.CallPlans.{new_fuse, is_reached};
ghost use Rattle.outside.specs.declared.disk.DiskFile.{DiskFile};
ghost use Rattle.outside.specs.Image.{AtFile};
ghost use Rattle.outside.specs.Crash.{Passes, IsDurable};
ghost use Rattle.out_segments.specs.CrashOutcome.{left_by, without_unsynced, with_unsynced};
ghost use Rattle.out_segments.specs.MemCount.{done_count};
ghost use Rattle.out_segments.specs.MemLog.{Log};
ghost use Rattle.mem_world.specs.DiskFiles.{own_file, calls_of, tear_of};

mod calls;

use out_segments::{MemParts, PartFile};
use outside::DiskFile;
use std::alloc::{AllocError, Global};

/// The agent's four files in memory. It tells its images, and may be stopped inside any call.
#[derive(Drop)]
pub struct MemDisk {
    // Of its files four are used.
    parts: MemParts,
}

// The file of the Parts that stands for one of the four.
fn own_file(file: DiskFile) -> PartFile
    ensures { result ≡ own_file file }
{
    match file {
        DiskFile::Settings => PartFile::Settings,
        DiskFile::Output => PartFile::Part(0),
        DiskFile::SlotA => PartFile::SlotA,
        DiskFile::SlotB => PartFile::SlotB,
    }
}

impl MemDisk {
    ghost use Rattle.mem_world.specs.MemDisk.{history_of, fuse_of, failures_of, faults_of, seen_of, MayLeave, most_faults, done_of, most_done, written_of, disk_images, IsFresh, KeepsPlans};

    /// Four empty files.
    pub fn new(alloc: Global) -> Result<Self, AllocError>
        ensures ok { IsOk result }
        ensures empty { IfOk result (λ disk. (file : DiskFile) → seen_of disk file ≡ []) }
        ensures durable { IfOk result (λ disk. (file : DiskFile) → IsDurable disk_images file disk) }
        ensures fresh { IfOk result IsFresh }
    {
        let parts = MemParts::new(alloc)?;
        Ok(MemDisk { parts })
    }

    /// Sets a file, synced.
    pub fn put(&mut self, alloc: Global, file: DiskFile, bytes: &[u8]) -> Result<(), AllocError>
        ensures seen { OnOk result (AtFile file (λ _ new. new ≡ bytes.now) (seen_of self.old) (seen_of self.new)) }
        ensures durable { OnOk result (IsDurable disk_images file self.new) }
        ensures crash { OnOk result (Passes disk_images (AtFile file (λ _ new. new ≡ bytes.now)) self.old self.new) }
        ensures done { done_of self.new ≡ done_of self.old }
        ensures plans { KeepsPlans self.old self.new }
        ensures written { written_of self.new ≡ written_of self.old }
        ensures err { OnErr result (history_of self.new ≡ history_of self.old) }
    {
        self.parts.put(alloc, own_file(file), bytes)
    }

    /// What reads give of a file.
    pub fn bytes(&self, file: DiskFile) -> &[u8]
        ensures { result.now ≡ seen_of self.now file }
    {
        self.parts.bytes(own_file(file))
    }

    /// Lets so many further calls pass. Each later one fails without effect, but the first of them counts as begun,
    /// where it is a write or a cut. A call that was set to fail is one of so many, and one for which memory ran out
    /// isn't.
    pub fn fuse(&mut self, calls: u32)
        ensures limit { most_done self.new ≡ option_map (λ done. done + calls) (done_of self.old) }
        ensures bound { most_faults self.new ≡ None }
        ensures fuse { fuse_of self.new ≡ Some (new_fuse (done_count (history_of self.old)) calls) }
        ensures history { history_of self.new ≡ history_of self.old }
        ensures faults { faults_of self.new ≡ faults_of self.old }
        ensures failures { failures_of self.new ≡ failures_of self.old }
        ensures written { written_of self.new ≡ written_of self.old }
    {
        self.parts.fuse(calls);
    }

    /// Makes the call with this number from now, where 1 is the next, fail without effect. No call has the number 0, and
    /// one for which memory runs out isn't counted.
    pub fn fail(&mut self, alloc: Global, call: u32) -> Result<(), AllocError>
        ensures ok { OnOk result (failures_of self.new ≡ failures_of self.old ++ call ∷ []) }
        ensures bound { OnOk result (most_faults self.new ≡ option_map (λ most. most + 1) (most_faults self.old)) }
        ensures err { OnErr result (KeepsPlans self.old self.new) }
        ensures history { history_of self.new ≡ history_of self.old }
        ensures faults { faults_of self.new ≡ faults_of self.old }
        ensures fuse { fuse_of self.new ≡ fuse_of self.old }
        ensures written { written_of self.new ≡ written_of self.old }
    {
        self.parts.fail(alloc, call)
    }

    /// Drops the failures that weren't reached, and the fuse where it wasn't. One that was reached stays.
    pub fn clear_plans(&mut self)
        ensures bound { most_faults self.new ≡ (if is_reached (fuse_of self.old) then None else Some (faults_of self.old)) }
        ensures limit { most_done self.new ≡ (if is_reached (fuse_of self.old) then most_done self.old else None) }
        ensures failures { failures_of self.new ≡ [] }
        ensures fuse { fuse_of self.new ≡ (if is_reached (fuse_of self.old) then fuse_of self.old else None) }
        ensures history { history_of self.new ≡ history_of self.old }
        ensures faults { faults_of self.new ≡ faults_of self.old }
        ensures written { written_of self.new ≡ written_of self.old }
    {
        self.parts.clear_plans();
    }

    /// The disk after a crash, with no faults and nothing planned. Nothing is left to sync.
    ///
    /// `outcome` modulo 5 picks what is left of each write and cut that no sync followed. With v for `outcome / 5`:
    ///
    /// - 0: nothing.
    /// - 1: all.
    /// - 2: the front of each write: its first half, or its first v bytes where v isn't 0. No cut.
    /// - 3: garbage in the range of each write, which begins with a5, or with 5a where the write has a5 there. Each cut.
    /// - 4, where v is 0: of each write so many fifths as the file's place among the four, and garbage behind them. No
    ///   cut.
    /// - 4, where v isn't 0: two bits of v - 1 pick 0, 1, 2 or 3 for each file, the lowest two for the settings.
    ///
    /// Any other byte of garbage is the write's, grown by 1 and v modulo 254, and by one more where that gives the byte
    /// with which garbage would begin. A call that failed and counts as begun is left in the same ways. A write that
    /// begins behind what is left of its file is lost.
    pub fn crash(self, alloc: Global, outcome: u32) -> Result<MemDisk, AllocError>
        ensures image { IfOk result (λ disk. MayLeave self (seen_of disk)) }
        ensures durable { IfOk result (λ disk. (file : DiskFile) → IsDurable disk_images file disk) }
        ensures fresh { IfOk result IsFresh }
        ensures torn { IfOk result (λ disk. (file : DiskFile) → seen_of disk file ≡ left_by (tear_of outcome file) (calls_of file (history_of self))) }
    {
        let parts = self.parts.crash(alloc, outcome)?;
        Ok(MemDisk { parts })
    }

    /// Outcome 0 leaves nothing of the writes and cuts that no sync followed, and outcome 1 all of them.
    pub fn outcomes_leave_nothing_or_all()
        ensures nothing { (file : DiskFile) (log : Log) → left_by (tear_of 0 file) log ≡ without_unsynced log }
        ensures all { (file : DiskFile) (log : Log) → left_by (tear_of 1 file) log ≡ with_unsynced log }
    {
        MemParts::outcomes_leave_nothing_or_all();
    }
}
