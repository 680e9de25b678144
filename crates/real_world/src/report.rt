// Standard output.
ghost use Rattle.std.specs.Prelude.{◌≤◌};

use crate::counted_call;
use outside::{CallFault, Sink};
use std::alloc::Global;
use std::io;
use std::io::Write;

/// The machine's standard output.
#[derive(Drop)]
pub struct RealSink<'a> {
    rt: &'a HostRuntime,
    faults: u64,
    ghost in_range: { faults ≤ 18446744073709551615 },
}

impl<'a> RealSink<'a> {
    ghost use Rattle.std.specs.Prelude.{◌≡◌};

    pub fn new(rt: &'a HostRuntime) -> Self
        ensures { result.faults ≡ 0 }
    {
        RealSink { rt, faults: 0 }
    }
}

impl Sink for RealSink<'_> {
    ghost use Rattle.std.specs.Prelude.{None};

    ghost meaning = { record { written = λ _. None; faults = λ sink. sink.faults } };

    ghost in_range = { λ sink. sink.in_range };

    fn write(&mut self, _alloc: Global, bytes: &[u8]) -> Result<(), CallFault> {
        let given = write_out(self.rt, bytes);
        counted_call(&mut self.faults, given)
    }
}

fn write_out(rt: &HostRuntime, bytes: &[u8]) -> io::Result<()> {
    let mut output = io::writer(rt);
    output.write_all(bytes)?;
    output.flush()
}
