// A world with steps that are still to be played.
ghost use Rattle.std.specs.Prelude.{◌≡◌, ◌+◌, ◌<◌, ◌≤◌, ◌↔◌, ◌∷◌, ◌++◌, [], ℕ, All, length, map, filter, is_some, IsTrue, false, Err, OnOk, OnErr, min, vec_len, vec_capacity};
ghost use Rattle.outside.specs.Lawful.{is_lawful, may_come, IsLawful};
ghost use Rattle.outside.specs.Plan.{Plan};
ghost use Rattle.outside.specs.World.{History};
ghost use Rattle.mem_world.specs.TreeEvents.{event_seen};
ghost use Rattle.mem_world.specs.TreePlan.{own_since, last_call};
ghost use Rattle.mem_world.specs.TreeSpoiled.{cut_to};
ghost use Rattle.mem_world.specs.WorldSteps.{event_of};

use super::events::{Scheduled, Seen};
use super::schedule::{play_due, renew};
use super::stored::Stored;
use crate::world::{StepFault, WorldStep};
use std::alloc::{AllocError, Global};
use std::marker::Model;

/// Numbers of calls stay below it.
const LAST_CALL: u64 = 1 << 32;

/// A world with its plan.
#[derive(Drop)]
pub struct Planned {
    world: Stored,
    // In the order in which they came.
    steps: Vec<Scheduled>,
    // Since the plan was set, up to the last.
    calls: u64,
    // The number of events before the plan was set.
    since: usize,
}

impl Model for Planned {
    ghost use Rattle.mem_world.specs.TreePlanned.{PlannedWorld};

    ghost Value = { PlannedWorld };

    ghost use Rattle.mem_world.specs.TreePlannedInside.{planned_world, IsPlanned};

    ghost view = { planned_world };

    ghost invariant = { IsPlanned };
}

impl Planned {
    ghost use Rattle.mem_world.specs.TreePlanned.{empty_plan, with_plan, begun, IsFollowed};

    pub fn new(alloc: Global) -> Planned
        ensures { result ≡ empty_plan }
    {
        Planned {
            world: Stored::new(alloc),
            steps: Vec::new(alloc),
            calls: 0,
            since: 0,
        }
    }

    pub fn world(&self) -> &Stored
        ensures { result.now.history ≡ self.now.history }
    {
        &self.world
    }

    /// The history is lawful, and has followed the plan.
    pub fn keeps_plan(&self)
        ensures lawful { IsLawful self.now.history }
        ensures followed { IsFollowed self.now }
    {
        self.world.keeps_lawful();
    }

    /// Does one step, and sets the plan.
    pub fn play(&mut self, alloc: Global, step: WorldStep) -> Result<(), StepFault>
        ensures ok { OnOk result (self.new ≡ with_plan (event_of step ∷ self.old.history) self.old.waiting) }
        ensures lawful { OnOk result (IsTrue (is_lawful self.old.history (event_of step))) }
        ensures not_lawful { (result ≡ Err StepFault.NotLawful) ↔ (is_lawful self.old.history (event_of step) ≡ false) }
        ensures err { OnErr result (self.new ≡ self.old) }
    {
        if !self.world.is_lawful(&step) {
            return Err(StepFault::NotLawful);
        }
        let ready = self.world.make_room(alloc, step)?;
        self.world.play(ready);
        renew(&mut self.steps, self.calls);
        self.calls = 0;
        self.since = self.world.len();
        Ok(())
    }

    /// Has the step wait for so many calls, and sets the plan.
    pub fn later(&mut self, alloc: Global, calls: u32, step: WorldStep) -> Result<(), AllocError>
        ensures ok { OnOk result (self.new
            ≡ with_plan self.old.history (self.old.waiting ++ (calls, event_of step) ∷ [])) }
        ensures err { OnErr result (self.new ≡ self.old) }
    {
        let copy = step.copied(alloc)?;
        self.steps.reserve(1)?;
        let ready = self.world.make_room(alloc, copy)?;
        renew(&mut self.steps, self.calls);
        self.steps.push_reserved(Scheduled {
            number: u64::from(calls),
            step,
            ready: Some(ready),
        });
        self.calls = 0;
        self.since = self.world.len();
        Ok(())
    }

    /// Leaves the file so many bytes, where it has more, and sets the plan.
    pub fn cut(&mut self, file: u32, size: usize)
        ensures { self.new ≡ with_plan (cut_to file size self.old.history) self.old.waiting }
    {
        self.world.cut(file, size);
        renew(&mut self.steps, self.calls);
        self.calls = 0;
        self.since = self.world.len();
    }

    /// Drops all that waits.
    pub fn clear(&mut self)
        ensures { self.new ≡ with_plan self.old.history [] }
    {
        self.steps.clear();
        self.calls = 0;
        self.since = self.world.len();
    }

    /// Plays what is due, and counts a call.
    pub fn begin(&mut self)
        ensures begun { self.new ≡ begun self.old }
        ensures counted { self.new.calls < last_call → own_since self.new.plan self.new.history < self.new.calls }
    {
        play_due(&mut self.world, self.steps.as_mut_slice(), self.calls);
        self.calls = (self.calls + 1).min(LAST_CALL);
    }

    /// Takes down an event of the agent's own, in a call that has begun.
    pub fn observe(&mut self, seen: Seen) -> Result<(), AllocError>
        requires counted { self.old.calls < last_call → own_since self.old.plan self.old.history < self.old.calls }
        requires may_come { IsTrue (may_come self.old.history (event_seen seen)) }
        ensures ok { OnOk result (self.new ≡ record self.old { history = event_seen seen ∷ self.old.history }) }
        ensures err { OnErr result (self.new ≡ self.old) }
        ensures followed { IsFollowed self.new }
    {
        self.world.observe(seen)?;
        Ok(())
    }
}
