// Calls that are to fail, and the count of faults.
ghost use Rattle.std.specs.Prelude.{◌≡◌, ◌≤◌, [], ◌∷◌, ◌++◌, if◌then◌else◌, OnOk, OnErr, List};
ghost use Rattle.outside.specs.Count.{raised, Rose};
ghost use Rattle.std.specs.Bool.{OnTrue};
ghost use Rattle.mem_calls.specs.CallFailures.{is_due, after_call};

use std::alloc::{AllocError, Global};

/// The failures that were set for the calls of a device, and how often it has failed.
#[derive(Drop)]
pub struct Failures {
    /// For each failure the number of calls up to it: 1 is the next call, and 0 one that was made.
    pub ahead: Vec<u32>,
    /// How often it has failed.
    pub faults: u64,
    ghost in_range: { faults ≤ 18446744073709551615 },
}

// A call was made.
fn count_down(ahead: &mut [u32])
    ensures { ahead.new ≡ after_call ahead.old }
{
    for calls in ahead.iter_mut() {
        *calls = calls.saturating_sub(1);
    }
}

impl Failures {
    /// None that is set, and no fault.
    pub fn new(alloc: Global) -> Self
        ensures none { result.ahead.items ≡ [] }
        ensures faults { result.faults ≡ 0 }
    {
        Failures {
            ahead: Vec::new(alloc),
            faults: 0,
        }
    }

    /// Makes the call with this number from now fail.
    pub fn set(&mut self, call: u32) -> Result<(), AllocError>
        ensures ok { OnOk result (self.new.ahead.items ≡ self.old.ahead.items ++ call ∷ []) }
        ensures err { OnErr result (self.new.ahead.items ≡ self.old.ahead.items) }
        ensures faults { self.new.faults ≡ self.old.faults }
    {
        self.ahead.push(call)?;
        Ok(())
    }

    /// Drops the failures that were set.
    pub fn clear(&mut self)
        ensures ahead { self.new.ahead.items ≡ [] }
        ensures faults { self.new.faults ≡ self.old.faults }
    {
        self.ahead.clear();
    }

    /// Whether the next call is one that was set to fail.
    pub fn is_due(&self) -> bool
        ensures { result ≡ is_due self.now.ahead.items }
    {
        self.ahead.iter().any(|calls| *calls == 1)
    }

    /// Counts a call, and its fault where it failed.
    pub fn count(&mut self, failed: bool)
        ensures ahead { self.new.ahead.items ≡ after_call self.old.ahead.items }
        ensures faults { self.new.faults ≡ (if failed then raised self.old.faults 1 else self.old.faults) }
        ensures rose { OnTrue failed (Rose self.old.faults self.new.faults) }
    {
        count_down(&mut self.ahead);
        if failed {
            self.faults = self.faults.saturating_add(1);
        }
    }
}
