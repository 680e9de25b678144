// Parts in memory.
ghost use Rattle.std.specs.Prelude.{◌≡◌, ◌≢◌, ℕ, ◌+◌, ◌≤◌, ◌∷◌, ◌++◌, [], true, false, IfSome, IsOk, IfOk, OnOk, OnErr, None, Some, option_map, if◌then◌else◌};
ghost use Rattle.outside.specs.Count.{Rose};
ghost use Rattle.std.proofs.Props.{props};
ghost use Rattle.mem_calls.specs.CallPlans.{limit_of, left_of, failed, new_fuse, is_reached};
ghost use Rattle.outside.specs.Image.{AtFile};
ghost use Rattle.outside.specs.Crash.{Passes, IsDurable};
ghost use Rattle.out_segments.specs.declared.parts.PartFile.{PartFile};
ghost use Rattle.out_segments.specs.MemLog.{Log, Leaves, calls_of};
ghost use Rattle.out_segments.specs.MemStore.{log_of};
ghost use Rattle.out_segments.specs.MemCount.{done_count};
ghost use Rattle.out_segments.specs.PartCalls.{slots_given};

mod calls;
mod contents;
mod log;
mod store;
mod tear;

use crate::parts::PartFile;
use log::Change;
use mem_calls::Plans;
use outside::{CallFault, Failed};
use std::alloc::{AllocError, Global};
use store::Store;
use tear::Tear;

/// The agent's files in memory, with the output in Parts. They tell their images, and may be stopped inside any call.
///
/// They take memory by the greatest number of a Part that a call was made on.
pub struct MemParts {
    store: Store,
    plans: Plans,
    // The bytes that writes to the slots were given.
    written: u64,
    ghost in_range: { written ≤ 18446744073709551615 },
    ghost limited: { IfSome (limit_of plans.fuse) (λ most. done_count (log_of store) + left_of plans.fuse ≤ most) } by { Prim.hlevel props },
}

// By hand, so that what drops one goes by this call, and not by what each field may hold.
impl Drop for MemParts {
    fn drop(self) {
        let MemParts {
            store: _store,
            plans: _plans,
            written: _,
        } = self;
    }
}

impl MemParts {
    ghost use Rattle.out_segments.specs.MemParts.{history_of, fuse_of, failures_of, faults_of, seen_of, MayLeave, most_faults, done_of, most_done, written_of, written_then, parts_images, next_fate, IsFresh, KeepsPlans, Counts, Calls, Puts};
    ghost use Rattle.out_segments.specs.Carried.{Carried, KeepsOthers};
    ghost use Rattle.out_segments.specs.CrashOutcome.{left_by, tear_of, without_unsynced, with_unsynced};

    /// Empty files.
    pub fn new(alloc: Global) -> Result<Self, AllocError>
        ensures ok { IsOk result }
        ensures empty { IfOk result (λ parts. (file : PartFile) → seen_of parts file ≡ []) }
        ensures durable { IfOk result (λ parts. (file : PartFile) → IsDurable parts_images file parts) }
        ensures fresh { IfOk result IsFresh }
    {
        Ok(MemParts {
            store: Store::new(alloc),
            plans: Plans::new(alloc),
            written: 0,
        })
    }

    /// Sets a file, synced.
    pub fn put(&mut self, alloc: Global, file: PartFile, bytes: &[u8]) -> Result<(), AllocError>
        ensures seen { OnOk result (AtFile file (λ _ new. new ≡ bytes.now) (seen_of self.old) (seen_of self.new)) }
        ensures durable { OnOk result (IsDurable parts_images file self.new) }
        ensures crash { OnOk result (Passes parts_images (AtFile file (λ _ new. new ≡ bytes.now)) self.old self.new) }
        ensures done { done_of self.new ≡ done_of self.old }
        ensures plans { KeepsPlans self.old self.new }
        ensures written { written_of self.new ≡ written_of self.old }
        ensures err { OnErr result (history_of self.new ≡ history_of self.old) }
        ensures puts { OnOk result (Puts file bytes.now self.old self.new) }
    {
        let bytes = bytes.to_vec(alloc)?;
        self.store.record(alloc, file, Change::Put { bytes }, true)
    }

    /// What reads give of a file.
    pub fn bytes(&self, file: PartFile) -> &[u8]
        ensures { result.now ≡ seen_of self.now file }
    {
        self.store.bytes(file)
    }

    /// Lets so many further calls pass. Each later one fails without effect, but the first of them counts as begun,
    /// where it is a write or a cut. A call that was set to fail is one of so many, and one for which memory ran out
    /// isn't.
    pub fn fuse(&mut self, calls: u32)
        ensures limit { most_done self.new ≡ option_map (λ done. done + calls) (done_of self.old) }
        ensures bound { most_faults self.new ≡ None }
        ensures fuse { fuse_of self.new ≡ Some (new_fuse (done_count (history_of self.old)) calls) }
        ensures history { history_of self.new ≡ history_of self.old }
        ensures faults { faults_of self.new ≡ faults_of self.old }
        ensures failures { failures_of self.new ≡ failures_of self.old }
        ensures written { written_of self.new ≡ written_of self.old }
    {
        self.plans.set_fuse(self.store.done(), calls);
    }

    /// Makes the call with this number from now, where 1 is the next, fail without effect. No call has the number 0, and
    /// one for which memory runs out isn't counted.
    pub fn fail(&mut self, _alloc: Global, call: u32) -> Result<(), AllocError>
        ensures ok { OnOk result (failures_of self.new ≡ failures_of self.old ++ call ∷ []) }
        ensures bound { OnOk result (most_faults self.new ≡ option_map (λ most. most + 1) (most_faults self.old)) }
        ensures err { OnErr result (KeepsPlans self.old self.new) }
        ensures history { history_of self.new ≡ history_of self.old }
        ensures faults { faults_of self.new ≡ faults_of self.old }
        ensures fuse { fuse_of self.new ≡ fuse_of self.old }
        ensures written { written_of self.new ≡ written_of self.old }
    {
        self.plans.fail(call)
    }

    /// Drops the failures that weren't reached, and the fuse where it wasn't. One that was reached stays.
    pub fn clear_plans(&mut self)
        ensures bound { most_faults self.new ≡ (if is_reached (fuse_of self.old) then None else Some (faults_of self.old)) }
        ensures limit { most_done self.new ≡ (if is_reached (fuse_of self.old) then most_done self.old else None) }
        ensures failures { failures_of self.new ≡ [] }
        ensures fuse { fuse_of self.new ≡ (if is_reached (fuse_of self.old) then fuse_of self.old else None) }
        ensures history { history_of self.new ≡ history_of self.old }
        ensures faults { faults_of self.new ≡ faults_of self.old }
        ensures written { written_of self.new ≡ written_of self.old }
    {
        self.plans.clear();
    }

    /// The Parts after a crash, with no faults and nothing planned. Nothing is left to sync.
    ///
    /// `outcome` modulo 5 picks what is left of each write and cut that no sync followed. With v for `outcome / 5`:
    ///
    /// - 0: nothing.
    /// - 1: all.
    /// - 2: the front of each write: its first half, or its first v bytes where v isn't 0. No cut.
    /// - 3: garbage in the range of each write, which begins with a5, or with 5a where the write has a5 there. Each cut.
    /// - 4, where v is 0: of each write so many fifths as the file's place among the settings, the output and the two
    ///   slots, and garbage behind them. No cut.
    /// - 4, where v isn't 0: two bits of v - 1 pick 0, 1, 2 or 3 for each of these, the lowest two for the settings.
    ///
    /// Any other byte of garbage is the write's, grown by 1 and v modulo 254, and by one more where that gives the byte
    /// with which garbage would begin. A call that failed and counts as begun is left in the same ways. A write that
    /// begins behind what is left of its file is lost.
    pub fn crash(self, alloc: Global, outcome: u32) -> Result<MemParts, AllocError>
        ensures image { IfOk result (λ parts. MayLeave self (seen_of parts)) }
        ensures durable { IfOk result (λ parts. (file : PartFile) → IsDurable parts_images file parts) }
        ensures fresh { IfOk result IsFresh }
        ensures torn { IfOk result (λ parts. (file : PartFile) → seen_of parts file ≡ left_by (tear_of outcome file) (calls_of file (history_of self))) }
    {
        let mut after = MemParts::new(alloc)?;
        self.carry(alloc, PartFile::Settings, outcome, &mut after)?;
        self.carry(alloc, PartFile::SlotA, outcome, &mut after)?;
        self.carry(alloc, PartFile::SlotB, outcome, &mut after)?;
        for number in 0..self.store.parts_held() {
            self.carry(alloc, PartFile::Part(number as u32), outcome, &mut after)?;
        }
        Ok(after)
    }

    /// Outcome 0 leaves nothing of the writes and cuts that no sync followed, and outcome 1 all of them.
    pub fn outcomes_leave_nothing_or_all()
        ensures nothing { (file : PartFile) (log : Log) → left_by (tear_of 0 file) log ≡ without_unsynced log }
        ensures all { (file : PartFile) (log : Log) → left_by (tear_of 1 file) log ≡ with_unsynced log }
    {}

    // Puts what the outcome leaves of a file into other Parts.
    fn carry(
        &self,
        alloc: Global,
        file: PartFile,
        outcome: u32,
        after: &mut MemParts,
    ) -> Result<(), AllocError>
        ensures carried { OnOk result (Carried outcome (history_of self.now) after.new file) }
        ensures others { OnOk result (KeepsOthers file after.old after.new) }
        ensures fresh { OnOk result (IsFresh after.old → IsFresh after.new) }
    {
        let left = self.store.left(alloc, file, Tear::of(outcome, file))?;
        after.put(alloc, file, &left)
    }

    // The bytes that writes to the slots were given, with those of this write.
    fn written_given(&self, file: PartFile, size: usize) -> u64
        ensures { Some result ≡ slots_given file size (Some (written_of self.now)) }
    {
        match file {
            PartFile::Settings | PartFile::Part(_) => self.written,
            PartFile::SlotA | PartFile::SlotB => self.written.saturating_add(size as u64),
        }
    }

    // The same with those of this call.
    fn written_with(&self, file: PartFile, change: &Change) -> u64
        ensures { Some result ≡ written_then change.now file (Some (written_of self.now)) }
    {
        match change {
            Change::Write { offset: _, bytes } => self.written_given(file, bytes.len()),
            Change::Put { .. } | Change::Cut { .. } | Change::Sync => self.written,
        }
    }

    // A write, a cut or a sync. Where memory runs out nothing is done, and the call isn't counted.
    fn call(&mut self, alloc: Global, file: PartFile, change: Change) -> Result<(), CallFault>
        ensures calls { Calls file change result self.old self.new }
        ensures written { Some (written_of self.new) ≡ written_then change file (Some (written_of self.old)) }
    {
        self.written = self.written_with(file, &change);
        let fate = self.plans.fate();
        self.store.record_by(alloc, fate, file, change)?;
        self.plans.count();
        if fate.fails() {
            return Err(CallFault::Failed);
        }
        Ok(())
    }

    // A call that changes nothing.
    fn look(&mut self) -> Result<(), Failed>
        ensures ok { OnOk result (failed (next_fate self.old) ≡ false) }
        ensures err { OnErr result ((failed (next_fate self.old) ≡ true) × Rose (faults_of self.old) (faults_of self.new)) }
        ensures counts { Counts self.old self.new }
        ensures history { history_of self.new ≡ history_of self.old }
        ensures written { written_of self.new ≡ written_of self.old }
    {
        let fate = self.plans.fate();
        self.plans.count();
        if fate.fails() {
            return Err(Failed);
        }
        Ok(())
    }
}
