// What becomes of the calls of a device in memory.
ghost use Rattle.std.specs.Prelude.{◌≡◌, ◌+◌, ◌≤◌, [], ◌∷◌, ◌++◌, None, Some, IfSome, OnOk, OnErr, if◌then◌else◌};
ghost use Rattle.std.specs.Bool.{OnTrue};
ghost use Rattle.std.proofs.Props.{props};
ghost use Rattle.outside.specs.Count.{raised, Rose};
ghost use Rattle.mem_calls.specs.CallFailures.{after_call};
ghost use Rattle.mem_calls.specs.CallPlans.{fate, fuse_after, failed, pending, bound_of, new_fuse, is_reached};

use crate::failures::Failures;
use crate::fuse::{Fate, Fuse};
use std::alloc::{AllocError, Global};

/// The failures that were set, the fuse, and the count of faults.
#[derive(Drop)]
pub struct Plans {
    failures: Failures,
    /// The count of faults when the failures that were set were last dropped.
    base: u64,
    fuse: Option<Fuse>,
    ghost within: { IfSome (bound_of fuse base failures.ahead.items) (λ most. failures.faults + pending failures.ahead.items ≤ most) } by { Prim.hlevel props },
}

impl Plans {
    ghost use Rattle.mem_calls.specs.PlansOf.{fuse_of, ahead_of, faults_of, base_of};

    /// Nothing that is planned, and no fault.
    pub fn new(alloc: Global) -> Self
        ensures fuse { fuse_of result ≡ None }
        ensures ahead { ahead_of result ≡ [] }
        ensures faults { faults_of result ≡ 0 }
        ensures base { base_of result ≡ 0 }
    {
        Plans {
            failures: Failures::new(alloc),
            base: 0,
            fuse: None,
        }
    }

    /// What becomes of the next call.
    pub fn fate(&self) -> Fate
        ensures { result ≡ fate (fuse_of self.now) (ahead_of self.now) }
    {
        match &self.fuse {
            Some(fuse) if fuse.reached => return Fate::Fails,
            Some(fuse) if fuse.left == 0 => return Fate::Begins,
            _ => {}
        }
        if self.failures.is_due() {
            Fate::Fails
        } else {
            Fate::Passes
        }
    }

    /// Counts a call, and its fault where it fails.
    pub fn count(&mut self)
        ensures fuse { fuse_of self.new ≡ fuse_after (fuse_of self.old) }
        ensures ahead { ahead_of self.new ≡ after_call (ahead_of self.old) }
        ensures base { base_of self.new ≡ base_of self.old }
        ensures faults { faults_of self.new ≡ (if failed (fate (fuse_of self.old) (ahead_of self.old)) then raised (faults_of self.old) 1 else faults_of self.old) }
        ensures rose { OnTrue (failed (fate (fuse_of self.old) (ahead_of self.old))) (Rose (faults_of self.old) (faults_of self.new)) }
    {
        let fate = self.fate();
        self.failures.count(fate.fails());
        if let Some(fuse) = self.fuse {
            self.fuse = Some(Fuse {
                left: fuse.left.saturating_sub(1),
                reached: fuse.reached || fuse.left == 0,
                done: fuse.done,
                calls: fuse.calls,
            });
        }
    }

    /// Makes the call with this number from now fail.
    pub fn fail(&mut self, call: u32) -> Result<(), AllocError>
        ensures ok { OnOk result (ahead_of self.new ≡ ahead_of self.old ++ call ∷ []) }
        ensures err { OnErr result (ahead_of self.new ≡ ahead_of self.old) }
        ensures fuse { fuse_of self.new ≡ fuse_of self.old }
        ensures faults { faults_of self.new ≡ faults_of self.old }
        ensures base { base_of self.new ≡ base_of self.old }
    {
        self.failures.set(call)
    }

    /// Lets so many further calls pass, where so many have succeeded.
    pub fn set_fuse(&mut self, done: usize, calls: u32)
        ensures fuse { fuse_of self.new ≡ Some (new_fuse done calls) }
        ensures ahead { ahead_of self.new ≡ ahead_of self.old }
        ensures faults { faults_of self.new ≡ faults_of self.old }
        ensures base { base_of self.new ≡ base_of self.old }
    {
        self.fuse = Some(Fuse {
            left: calls,
            reached: false,
            done,
            calls,
        });
    }

    /// Drops the failures that weren't reached, and a fuse that wasn't.
    pub fn clear(&mut self)
        ensures fuse { fuse_of self.new ≡ (if is_reached (fuse_of self.old) then fuse_of self.old else None) }
        ensures ahead { ahead_of self.new ≡ [] }
        ensures faults { faults_of self.new ≡ faults_of self.old }
        ensures base { base_of self.new ≡ faults_of self.old }
    {
        self.base = self.failures.faults;
        self.failures.clear();
        self.fuse = self.fuse.filter(|fuse| fuse.reached);
    }
}
