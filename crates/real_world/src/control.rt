// Standard input.
ghost use Rattle.std.specs.Prelude.{◌≤◌};
ghost use Rattle.std.specs.Io.{ReadsAtMost};

use crate::{TRIES, counted};
use outside::{Failed, Source};
use std::io;
use std::io::{ErrorKind, Read};

/// The machine's standard input.
#[derive(Drop)]
pub struct RealSource<'a> {
    rt: &'a HostRuntime,
    faults: u64,
    ghost in_range: { faults ≤ 18446744073709551615 },
}

impl<'a> RealSource<'a> {
    ghost use Rattle.std.specs.Prelude.{◌≡◌};

    pub fn new(rt: &'a HostRuntime) -> Self
        ensures { result.faults ≡ 0 }
    {
        RealSource { rt, faults: 0 }
    }
}

impl Source for RealSource<'_> {
    ghost use Rattle.std.specs.Prelude.{None};

    ghost meaning = { record { rest = λ _. None; faults = λ source. source.faults } };

    ghost in_range = { λ source. source.in_range };

    fn read(&mut self, buf: &mut [u8]) -> Result<usize, Failed> {
        let given = read_retrying(self.rt, buf);
        counted(&mut self.faults, given)
    }
}

fn read_retrying(rt: &HostRuntime, buf: &mut [u8]) -> io::Result<usize>
    ensures { ReadsAtMost result buf.new }
{
    let mut input = rt.stdin();
    for _ in 1..TRIES {
        match input.read(buf) {
            Err(e) if e.kind() == ErrorKind::Interrupted => {}
            given => return given,
        }
    }
    input.read(buf)
}
