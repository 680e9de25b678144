// Where reports go.
ghost use Rattle.std.specs.Prelude.{◌≤◌};
ghost use Rattle.outside.specs.Count.{HasCause, last_count};
ghost use Rattle.outside.specs.World.{Told};

use crate::CallFault;
use std::alloc::Global;

/// An output that only grows.
pub trait Sink {
    ghost use Rattle.outside.specs.StreamMeaning.{SinkMeaning};

    ghost meaning: { SinkMeaning Self };

    ghost use Rattle.outside.specs.Stream.{Grows};

    /// Writes all the bytes, or answers a fault after a part of them.
    fn write(&mut self, alloc: Global, bytes: &[u8]) -> Result<(), CallFault>
        ensures written { Told (Grows bytes.now result) ((meaning).written self.old) ((meaning).written self.new) }
        ensures cause { HasCause result ((meaning).faults self.old) ((meaning).faults self.new) };

    ghost in_range: { (sink : Self) → (meaning).faults sink ≤ last_count };
}
