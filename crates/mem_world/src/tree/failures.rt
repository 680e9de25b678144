// The calls that are set to fail.
ghost use Rattle.std.specs.Prelude.{◌≡◌, ◌+◌, ◌-◌, ◌≤◌, ◌∷◌, ◌++◌, [], map, IsTrue, OnOk, OnErr};
ghost use Rattle.outside.specs.Count.{raised, Rose};
ghost use Rattle.mem_world.specs.TreeFailures.{no_failure, still, is_reached, one_later};

use std::alloc::{AllocError, Global};
use std::marker::Model;

/// How often a tree has failed, and the calls that are still to fail.
#[derive(Drop)]
pub struct Failures {
    count: u64,
    // The count when `calls` was last empty.
    base: u64,
    // Numbers from now: 1 is the next call, and 0 stands for one that was reached.
    calls: Vec<u32>,
}

impl Model for Failures {
    ghost use Rattle.mem_world.specs.TreeFailures.{Failing};

    ghost Value = { Failing };

    ghost use Rattle.mem_world.specs.TreeFailing.{failing, IsWithin};

    ghost view = { failing };

    ghost invariant = { IsWithin };
}

impl Failures {
    pub fn new(alloc: Global) -> Failures
        ensures { result ≡ no_failure }
    {
        Failures {
            count: 0,
            base: 0,
            calls: Vec::new(alloc),
        }
    }

    /// Has the call with this number fail.
    pub fn set(&mut self, call: u32) -> Result<(), AllocError>
        ensures ok { OnOk result (self.new
            ≡ record self.old { spare = self.old.spare + 1; calls = self.old.calls ++ call ∷ [] }) }
        ensures err { OnErr result (self.new ≡ self.old) }
    {
        self.calls.push(call)?;
        Ok(())
    }

    /// Lets all further calls pass.
    pub fn clear(&mut self)
        ensures { self.new ≡ record self.old { spare = 0; calls = [] } }
    {
        self.calls.clear();
        self.base = self.count;
    }

    /// Counts a call, and answers whether it is to fail.
    pub fn begin(&mut self) -> bool
        ensures reached { result ≡ is_reached self.old.calls }
        ensures later { self.new ≡ record self.old { calls = one_later self.old.calls } }
        ensures spare { IsTrue result → still self.new.calls + 1 ≤ self.new.spare }
    {
        let reached = self.calls.contains(&1);
        count_down(self.calls.as_mut_slice());
        reached
    }

    /// Counts a fault.
    pub fn raise(&mut self)
        requires { still self.old.calls + 1 ≤ self.old.spare }
        ensures count { self.new.count ≡ raised self.old.count 1 }
        ensures rose { Rose self.old.count self.new.count }
        ensures bound { self.new.count + self.new.spare ≡ self.old.count + self.old.spare }
        ensures calls { self.new.calls ≡ self.old.calls }
    {
        self.count = self.count.saturating_add(1);
    }
}

fn count_down(calls: &mut [u32])
    ensures { calls.new ≡ one_later calls.old }
{
    for call in calls.iter_mut() {
        *call = call.saturating_sub(1);
    }
}
