// A source of control lines in memory.
ghost use Rattle.std.specs.Prelude.{◌≡◌, ◌≤◌, ◌<◌, ◌↔◌, ◌++◌, ◌∷◌, [], length, min, vec_len, Some, OnOk, OnErr, IfOk, IsErr, IsTrue};
ghost use Rattle.outside.specs.Count.{HasOneCause};
ghost use Rattle.outside.specs.Stream.{TakesFront};
ghost use Rattle.outside.specs.World.{Told};
ghost use Rattle.mem_calls.specs.CallFailures.{is_due, after_call};

use mem_calls::Failures;
use outside::{Failed, Source};
use std::alloc::{AllocError, Global};

/// An input in memory, which gives its bytes in pieces.
#[derive(Drop)]
pub struct MemSource {
    bytes: Vec<u8>,
    position: usize,
    piece: usize,
    failures: Failures,
    ghost in_range: { position ≤ vec_len bytes },
    ghost gives: { 0 < piece },
}

impl MemSource {
    ghost use Rattle.mem_world.specs.MemSource.{rest_of, piece_of, failures_of, faults_of};

    /// An input of these bytes, which gives at most `piece` of them a read.
    pub fn new(bytes: Vec<u8>, piece: usize) -> Self
        requires { 0 < piece }
        ensures rest { rest_of result ≡ bytes.items }
        ensures piece { piece_of result ≡ piece }
        ensures none { failures_of result ≡ [] }
        ensures faults { faults_of result ≡ 0 }
    {
        let failures = Failures::new(*bytes.allocator());
        MemSource {
            bytes,
            position: 0,
            piece,
            failures,
        }
    }

    /// Makes the read with this number from now, where 1 is the next and none has 0, answer `Failed`.
    pub fn fail(&mut self, _alloc: Global, call: u32) -> Result<(), AllocError>
        ensures ok { OnOk result (failures_of self.new ≡ failures_of self.old ++ call ∷ []) }
        ensures err { OnErr result (failures_of self.new ≡ failures_of self.old) }
        ensures rest { rest_of self.new ≡ rest_of self.old }
        ensures piece { piece_of self.new ≡ piece_of self.old }
        ensures faults { faults_of self.new ≡ faults_of self.old }
    {
        self.failures.set(call)
    }
}

impl Source for MemSource {
    ghost use Rattle.mem_world.specs.MemSource.{rest_of, piece_of, failures_of, faults_of, source_meaning};

    ghost meaning = { source_meaning };

    /// Gives as many bytes as there are, as fit into `buf` and as a piece has. A read that was set to fail takes
    /// nothing.
    fn read(&mut self, buf: &mut [u8]) -> Result<usize, Failed>
        ensures within { IfOk result (λ count. count ≤ length buf.new) }
        ensures rest { Told (TakesFront buf.new result) (Some (rest_of self.old)) (Some (rest_of self.new)) }
        ensures cause { HasOneCause result (faults_of self.old) (faults_of self.new) }
        ensures fails { IsErr result ↔ IsTrue (is_due (failures_of self.old)) }
        ensures count { IfOk result (λ count. count ≡ min (min (piece_of self.old) (length buf.new)) (length (rest_of self.old))) }
        ensures ahead { failures_of self.new ≡ after_call (failures_of self.old) }
        ensures piece { piece_of self.new ≡ piece_of self.old }
    {
        let failed = self.failures.is_due();
        self.failures.count(failed);
        if failed {
            return Err(Failed);
        }
        let rest = self.bytes.len() - self.position;
        let count = self.piece.min(buf.len()).min(rest);
        buf[..count].copy_from_slice(&self.bytes[self.position..self.position + count]);
        self.position += count;
        Ok(count)
    }

    ghost in_range = { λ source. source.failures.in_range };
}
