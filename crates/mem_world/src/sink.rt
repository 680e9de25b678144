// A sink of reports in memory.
ghost use Rattle.std.specs.Prelude.{◌≡◌, ◌↔◌, ◌++◌, ◌∷◌, [], Some, OnOk, OnErr, IfOk, IsOk, IsTrue};
ghost use Rattle.outside.specs.Count.{HasCause};
ghost use Rattle.outside.specs.Stream.{Grows};
ghost use Rattle.outside.specs.World.{Told};
ghost use Rattle.mem_calls.specs.CallFailures.{is_due, after_call};

use mem_calls::Failures;
use outside::{CallFault, Sink};
use std::alloc::{AllocError, Global};

/// An output in memory.
#[derive(Drop)]
pub struct MemSink {
    bytes: Vec<u8>,
    failures: Failures,
}

impl MemSink {
    ghost use Rattle.mem_world.specs.MemSink.{written_of, failures_of, faults_of};

    /// An empty output.
    pub fn new(alloc: Global) -> Result<Self, AllocError>
        ensures ok { IsOk result }
        ensures written { IfOk result (λ sink. written_of sink ≡ []) }
        ensures none { IfOk result (λ sink. failures_of sink ≡ []) }
        ensures faults { IfOk result (λ sink. faults_of sink ≡ 0) }
    {
        Ok(MemSink {
            bytes: Vec::new(alloc),
            failures: Failures::new(alloc),
        })
    }

    /// What was written.
    pub fn bytes(&self) -> &[u8]
        ensures { result.now ≡ written_of self.now }
    {
        &self.bytes
    }

    /// Makes the write with this number from now, where 1 is the next and none has 0, answer `Failed`.
    pub fn fail(&mut self, _alloc: Global, call: u32) -> Result<(), AllocError>
        ensures ok { OnOk result (failures_of self.new ≡ failures_of self.old ++ call ∷ []) }
        ensures err { OnErr result (failures_of self.new ≡ failures_of self.old) }
        ensures written { written_of self.new ≡ written_of self.old }
        ensures faults { faults_of self.new ≡ faults_of self.old }
    {
        self.failures.set(call)
    }
}

impl Sink for MemSink {
    ghost use Rattle.mem_world.specs.MemSink.{written_of, failures_of, faults_of, sink_meaning};

    ghost meaning = { sink_meaning };

    /// A write that was set to fail writes nothing, nor does one for which memory runs out.
    fn write(&mut self, _alloc: Global, bytes: &[u8]) -> Result<(), CallFault>
        ensures written { Told (Grows bytes.now result) (Some (written_of self.old)) (Some (written_of self.new)) }
        ensures cause { HasCause result (faults_of self.old) (faults_of self.new) }
        ensures fails { (result ≡ Err CallFault.Failed) ↔ IsTrue (is_due (failures_of self.old)) }
        ensures nothing { OnErr result (written_of self.new ≡ written_of self.old) }
        ensures ahead { failures_of self.new ≡ after_call (failures_of self.old) }
    {
        let failed = self.failures.is_due();
        self.failures.count(failed);
        if failed {
            return Err(CallFault::Failed);
        }
        self.bytes.extend_from_slice(bytes)?;
        Ok(())
    }

    ghost in_range = { λ sink. sink.failures.in_range };
}
