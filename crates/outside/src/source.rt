// Where control lines come from.
ghost use Rattle.std.specs.Prelude.{◌≤◌, length, IfOk};
ghost use Rattle.outside.specs.Count.{HasOneCause, last_count};
ghost use Rattle.outside.specs.World.{Told};

use crate::Failed;

/// An input that is read from its front to its end.
pub trait Source {
    ghost use Rattle.outside.specs.StreamMeaning.{SourceMeaning};

    ghost meaning: { SourceMeaning Self };

    ghost use Rattle.outside.specs.Stream.{TakesFront};

    /// Fills the front of `buf` with the next bytes, and answers how many it gave: none only at the end of the
    /// input, or for an empty `buf`.
    fn read(&mut self, buf: &mut [u8]) -> Result<usize, Failed>
        ensures within { IfOk result (λ count. count ≤ length buf.new) }
        ensures rest { Told (TakesFront buf.new result) ((meaning).rest self.old) ((meaning).rest self.new) }
        ensures cause { HasOneCause result ((meaning).faults self.old) ((meaning).faults self.new) };

    ghost in_range: { (source : Self) → (meaning).faults source ≤ last_count };
}
