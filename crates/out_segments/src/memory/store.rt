// Files in memory, with the log of all that happened to them.
ghost use Rattle.std.specs.Prelude.{◌≡◌, ◌≤◌, ℕ, ◌∷◌, [], ◌++◌, length, reverse, IfOk, OnOk, OnErr};
ghost use Rattle.out_segments.specs.declared.parts.PartFile.TheVariants.{Part};
ghost use Rattle.out_segments.specs.Inner.IsStored.{IsStored};
ghost use Rattle.out_segments.specs.MemLog.{Leaves, calls_of};
ghost use Rattle.out_segments.specs.MemImages.{shown, itself};
ghost use Rattle.out_segments.specs.MemCount.{done_count, log_after};

use super::contents::Contents;
use super::log::{Change, Entry};
use super::tear::Tear;
use crate::parts::PartFile;
use mem_calls::Fate;
use std::alloc::{AllocError, Global};

/// The files, and the log by which their images are defined. The oldest entry comes first.
#[derive(Drop)]
pub(crate) struct Store {
    contents: Contents,
    pub(crate) log: Vec<Entry>,
    ghost stored: { IsStored contents log.items },
}

impl Store {
    ghost use Rattle.out_segments.specs.MemStore.{log_of};
    ghost use Rattle.out_segments.specs.CrashOutcome.{left_by};

    /// Empty files.
    pub(crate) fn new(alloc: Global) -> Self
        ensures { log_of result ≡ [] }
    {
        Store {
            contents: Contents::new(alloc),
            log: Vec::new(alloc),
        }
    }

    pub(crate) fn bytes(&self, file: PartFile) -> &[u8]
        ensures { result.now ≡ shown itself (log_of self.now) file }
    {
        self.contents.bytes(file)
    }

    /// How many Parts there may have been calls on: none was on a later one.
    pub(crate) fn parts_held(&self) -> usize
        ensures few { result ≤ 4294967296 }
        ensures others { (number : ℕ) → result ≤ number → length (calls_of (Part number) (log_of self.now)) ≡ 0 }
    {
        self.contents.parts_held()
    }

    /// Does a call, or only begins it, and records it. Without memory nothing is done.
    #[tactic(auto, using(crate::proofs::MemStoring::stored_after, crate::proofs::MemStoring::stored_still))]
    pub(crate) fn record(
        &mut self,
        alloc: Global,
        file: PartFile,
        change: Change,
        taken: bool,
    ) -> Result<(), AllocError>
        ensures ok { OnOk result (log_of self.new ≡ record { file = file; change = change; taken = taken } ∷ log_of self.old) }
        ensures err { OnErr result (log_of self.new ≡ log_of self.old) }
    {
        self.log.reserve(1)?;
        self.contents.change(alloc, file, &change, taken)?;
        self.log.push(Entry {
            file,
            change,
            taken,
        })?;
        Ok(())
    }

    /// Does a call as its fate wants.
    pub(crate) fn record_by(
        &mut self,
        alloc: Global,
        fate: Fate,
        file: PartFile,
        change: Change,
    ) -> Result<(), AllocError>
        ensures ok { OnOk result (log_of self.new ≡ log_after fate file change (log_of self.old)) }
        ensures err { OnErr result (log_of self.new ≡ log_of self.old) }
    {
        match fate {
            Fate::Passes => self.record(alloc, file, change, true),
            Fate::Begins => self.record(alloc, file, change, false),
            Fate::Fails => Ok(()),
        }
    }

    /// The number of calls that succeeded.
    pub(crate) fn done(&self) -> usize
        ensures { result ≡ done_count (log_of self.now) }
    {
        let mut done = 0;
        for entry in &self.log {
            if entry.is_done() {
                done += 1;
            }
        }
        done
    }

    /// What a crash leaves of a file.
    pub(crate) fn left(
        &self,
        alloc: Global,
        file: PartFile,
        tear: Tear,
    ) -> Result<Vec<u8>, AllocError>
        ensures left { IfOk result (λ left. Leaves (calls_of file (log_of self.now)) left.items) }
        ensures torn { IfOk result (λ left. left.items ≡ left_by tear (calls_of file (log_of self.now))) }
    {
        let mut shown = Vec::new(alloc);
        let mut left = Vec::new(alloc);
        for entry in &self.log {
            if entry.is_of(file) {
                tear.step(alloc, entry, &mut shown, &mut left)?;
            }
        }
        Ok(left)
    }
}
