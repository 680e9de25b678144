// The world of log files in memory.
ghost use Rattle.std.specs.Prelude.{◌≡◌, ◌≤◌, ◌<◌, ◌↔◌, ◌+◌, ◌∷◌, ◌++◌, ◌==◌, [], ℕ, All, false, Err, length, take, if◌then◌else◌, IfOk, OnOk, OnErr, IsTrue};
ghost use Rattle.std.proofs.Props.{props};
ghost use Rattle.outside.specs.Lawful.{is_lawful, IsLawful, IsLawful-prop};
ghost use Rattle.outside.specs.World.{bytes, names};
ghost use Rattle.mem_world.specs.TreeHandles.{handles_of};
ghost use Rattle.mem_world.specs.TreePlanned.{IsFollowed};

use crate::world::{FileName, StepFault, WorldStep};
use entry_model::Text;
use failures::Failures;
use handles::Handles;
use planned::Planned;
use std::alloc::{AllocError, Global};
use std::collections::VecDeque;

mod calls;
mod contents;
mod events;
mod failures;
mod handles;
mod listing;
mod names;
mod paths;
mod planned;
mod read;
mod schedule;
mod shorten;
mod stored;

/// A world of log files in memory. It tells its history, its plan, the folders that it listed and the bound of its count of
/// faults; once a file of it is spoiled, it tells neither its history nor its plan.
///
/// Each call of [`Tree`](outside::Tree) begins with the steps that are due: those after which as many calls were to
/// come as have come. They are played in the order in which they were handed in, and one that isn't lawful then is
/// skipped.
pub struct MemTree {
    planned: Planned,
    failures: Failures,
    handles: Handles,
    // The number of the next handle, above those of all open files.
    next: u64,
    taken: u64,
    widest: u64,
    // The folders that were listed or could not be, the newest first.
    listed: VecDeque<Text>,
    // No file was spoiled.
    told: bool,
    ghost lawful: { IsLawful planned.history } by { IsLawful-prop planned.history },
    ghost followed: { IsFollowed planned } by { Prim.hlevel props },
    ghost counted: { failures.count ≤ 18446744073709551615 },
    ghost below: { All (λ pair. pair.0 < next) (handles_of handles.items) },
}

// By hand, so that what drops one goes by this call, and not by what each field may hold.
impl Drop for MemTree {
    fn drop(self) {
        let MemTree {
            planned: _planned,
            failures: _failures,
            handles: _handles,
            next: _,
            taken: _,
            widest: _,
            listed: _listed,
            told: _,
        } = self;
    }
}

impl MemTree {
    ghost use Rattle.mem_world.specs.MemTree.{state_of};
    ghost use Rattle.mem_world.specs.TreeTold.{empty_tree, planned_anew, with_failure, unplanned, bound_of};
    ghost use Rattle.mem_world.specs.TreeSpoiled.{spoiled};
    ghost use Rattle.mem_world.specs.WorldSteps.{event_of};

    /// An empty world with no faults.
    pub fn new(alloc: Global) -> Result<MemTree, AllocError>
        ensures { IfOk result (λ tree. state_of tree ≡ empty_tree) }
    {
        let planned = Planned::new(alloc);
        planned.keeps_plan();
        Ok(MemTree {
            planned,
            failures: Failures::new(alloc),
            handles: Handles::new(alloc),
            next: 0,
            taken: 0,
            widest: 0,
            listed: VecDeque::new(alloc),
            told: true,
        })
    }

    /// Does one step now, and sets the plan anew. A step is lawful unless the file of a `Create` was created before,
    /// the wanted path is in use, is no path, or would make a file a folder, or the named file has no name now.
    pub fn play(&mut self, alloc: Global, step: WorldStep) -> Result<(), StepFault>
        ensures ok { OnOk result (state_of self.new
            ≡ planned_anew (state_of self.old) (event_of step ∷ (state_of self.old).world.history) (state_of self.old).waiting) }
        ensures not_lawful { (result ≡ Err StepFault.NotLawful)
            ↔ (is_lawful (state_of self.old).world.history (event_of step) ≡ false) }
        ensures err { OnErr result (state_of self.new ≡ state_of self.old) }
    {
        let played = self.planned.play(alloc, step);
        self.planned.keeps_plan();
        played
    }

    /// Plays the step when so many further calls have been made and the next one begins, and sets the plan anew.
    /// This makes the room that the step takes.
    pub fn later(&mut self, alloc: Global, calls: u32, step: WorldStep) -> Result<(), AllocError>
        ensures ok { OnOk result (state_of self.new ≡ planned_anew (state_of self.old) (state_of self.old).world.history
            ((state_of self.old).waiting ++ (calls, event_of step) ∷ [])) }
        ensures err { OnErr result (state_of self.new ≡ state_of self.old) }
    {
        let set = self.planned.later(alloc, calls, step);
        self.planned.keeps_plan();
        set
    }

    /// Has the call with this number fail, where 1 is the next. A call of `close` passes all the same.
    pub fn fail(&mut self, _alloc: Global, call: u32) -> Result<(), AllocError>
        ensures ok { OnOk result (state_of self.new ≡ with_failure (state_of self.old) call) }
        ensures bound { OnOk result (bound_of (state_of self.new) ≡ bound_of (state_of self.old) + 1) }
        ensures err { OnErr result (state_of self.new ≡ state_of self.old) }
    {
        self.failures.set(call)
    }

    /// Drops the steps that wait and the failures that weren't reached.
    pub fn clear_plans(&mut self)
        ensures cleared { state_of self.new ≡ unplanned (state_of self.old) }
        ensures bound { bound_of (state_of self.new) ≡ (state_of self.old).faults }
    {
        self.planned.clear();
        self.planned.keeps_plan();
        self.failures.clear();
    }

    /// Cuts a file to so many bytes, as no process of the world may, and sets the plan anew. From then on the tree tells
    /// neither its history nor its plan. A file that is no longer than that, and one that isn't there, is left alone.
    pub fn spoil(&mut self, file: FileName, size: usize)
        ensures short { length (bytes (state_of self.old).world.history file.0) ≤ size → state_of self.new ≡ state_of self.old }
        ensures long { size < length (bytes (state_of self.old).world.history file.0)
            → state_of self.new ≡ spoiled file.0 size (state_of self.old) }
        ensures bytes { (other : ℕ) → bytes (state_of self.new).world.history other
            ≡ (if file.0 == other then take size (bytes (state_of self.old).world.history other) else bytes (state_of self.old).world.history other) }
        ensures names { names (state_of self.new).world.history ≡ names (state_of self.old).world.history }
    {
        if self.planned.world().bytes(file.0).len() <= size {
            return;
        }
        self.planned.cut(file.0, size);
        self.planned.keeps_plan();
        self.told = false;
    }

    /// The length of the history.
    pub fn events(&self) -> u64
        ensures { result ≡ length (state_of self.now).world.history }
    {
        self.planned.world().len() as u64
    }
}
