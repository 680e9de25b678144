// What a crash leaves of the calls on one file, picked by a number.
ghost use Rattle.std.specs.Prelude.{◌≡◌, ◌≤◌, ◌++◌, length, take, drop, nat_le, IfOk, OnOk, if◌then◌else◌};
ghost use Rattle.outside.specs.Image.{Torn};
ghost use Rattle.out_segments.specs.CrashOutcome.{choice_of, kind_of};
ghost use Rattle.out_segments.specs.MemLog.{LeavesBy, changed, written_over};

use super::contents::{apply, write_over};
use super::log::{Change, Entry};
use crate::parts::PartFile;
use std::alloc::{AllocError, Global};

/// What is left of each write and cut that no sync followed.
#[derive(Clone, Copy, PartialEq, Eq)]
pub(crate) enum Kind {
    Nothing,
    All,
    /// The front of each write, and no cut.
    Front,
    /// Garbage in the range of each write, and each cut.
    Garbage,
    /// Some bytes of each write, and garbage behind them.
    Mixture,
}

/// What a crash leaves of one file.
#[derive(Clone, Copy)]
pub(crate) struct Tear {
    pub(crate) kind: Kind,
    variation: u32,
    file: PartFile,
}

// The first byte of garbage. It looks like an open gate.
const GATE: u8 = 0xa5;

// The first byte of garbage in the place of an open gate.
const OTHER_GATE: u8 = 0x5a;

fn choice_of(outcome: u32, file: PartFile) -> u32
    ensures { result ≡ choice_of outcome file }
{
    let variation = outcome / 5;
    if outcome % 5 != 4 {
        return outcome % 5;
    }
    if variation == 0 {
        return 4;
    }
    let weight = match file {
        PartFile::Settings => 1,
        PartFile::Part(_) => 4,
        PartFile::SlotA => 16,
        PartFile::SlotB => 64,
    };
    (variation - 1) / weight % 4
}

fn kind_of(choice: u32) -> Kind
    ensures { result ≡ kind_of choice }
{
    match choice {
        0 => Kind::Nothing,
        1 => Kind::All,
        2 => Kind::Front,
        3 => Kind::Garbage,
        _ => Kind::Mixture,
    }
}

impl Tear {
    ghost use Rattle.out_segments.specs.CrashOutcome.{tear_of, keeps_cuts, with_torn, torn_bytes, front_size, mixture_size, garbage_from, garbage_byte};

    /// What the outcome leaves of a file.
    pub(crate) fn of(outcome: u32, file: PartFile) -> Tear
        ensures { result ≡ tear_of outcome file }
    {
        Tear {
            kind: kind_of(choice_of(outcome, file)),
            variation: outcome / 5,
            file,
        }
    }

    // How many bytes of a write a front has.
    fn front(self, size: usize) -> usize
        ensures size { result ≡ front_size self.variation size }
        ensures within { result ≤ size }
    {
        if self.variation == 0 {
            size / 2
        } else {
            (self.variation as usize).min(size)
        }
    }

    // How many bytes of a write a mixture has.
    fn mixture(self, size: usize) -> usize
        ensures size { result ≡ mixture_size self.file size }
        ensures within { result ≤ size }
    {
        match self.file {
            PartFile::Settings => size / 5,
            PartFile::Part(_) => size / 5 * 2,
            PartFile::SlotA => size / 5 * 3,
            PartFile::SlotB => size / 5 * 4,
        }
    }

    // Another byte in the place of this one.
    fn garbage(self, begins: bool, place: usize, byte: u8) -> u8
        ensures { result ≡ garbage_byte begins self.variation place byte }
    {
        let gate = if byte == GATE { OTHER_GATE } else { GATE };
        if begins && place == 0 {
            return gate;
        }
        let grown = byte.wrapping_add(1 + (self.variation % 254) as u8);
        if grown == gate {
            grown.wrapping_add(1)
        } else {
            grown
        }
    }

    // So many bytes of a write, and garbage behind them.
    fn garbled(
        self,
        alloc: Global,
        begins: bool,
        front: usize,
        bytes: &[u8],
    ) -> Result<Vec<u8>, AllocError>
        requires { front ≤ length bytes.now }
        ensures { IfOk result (λ piece. piece.items ≡ take front bytes.now ++ garbage_from begins self.variation front (drop front bytes.now)) }
    {
        let mut piece = Vec::from_slice(alloc, &bytes[..front])?;
        for byte in &bytes[front..] {
            let place = piece.len();
            piece.push(self.garbage(begins, place, *byte))?;
        }
        Ok(piece)
    }

    // What is there in the range of a write, from its front on.
    fn piece(self, alloc: Global, bytes: &[u8]) -> Result<Vec<u8>, AllocError>
        ensures { IfOk result (λ piece. piece.items ≡ torn_bytes self.kind self.variation self.file bytes.now) }
    {
        match self.kind {
            Kind::Nothing => Ok(Vec::new(alloc)),
            Kind::All => Vec::from_slice(alloc, bytes),
            Kind::Front => Vec::from_slice(alloc, &bytes[..self.front(bytes.len())]),
            Kind::Garbage => self.garbled(alloc, true, 0, bytes),
            Kind::Mixture => self.garbled(alloc, false, self.mixture(bytes.len()), bytes),
        }
    }

    // Leaves of a write what this tear wants. One that begins behind what is left is lost.
    fn write(
        self,
        alloc: Global,
        left: &mut Vec<u8>,
        offset: usize,
        bytes: &[u8],
    ) -> Result<(), AllocError>
        ensures torn { OnOk result (Torn offset (length bytes.now) left.old.items left.new.items) }
        ensures left { OnOk result (left.new.items ≡ (if nat_le offset (length left.old.items) then written_over offset (torn_bytes self.kind self.variation self.file bytes.now) left.old.items else left.old.items)) }
    {
        if offset > left.len() {
            return Ok(());
        }
        let piece = self.piece(alloc, bytes)?;
        write_over(alloc, left, offset, &piece)
    }

    // Whether cuts are there.
    fn keeps_cuts(self) -> bool
        ensures { result ≡ keeps_cuts self.kind }
    {
        match self.kind {
            Kind::All | Kind::Garbage => true,
            Kind::Nothing | Kind::Front | Kind::Mixture => false,
        }
    }

    /// Goes on by one call: `shown` is what reads give of the file, and `left` what a crash leaves.
    pub(crate) fn step(
        self,
        alloc: Global,
        entry: &Entry,
        shown: &mut Vec<u8>,
        left: &mut Vec<u8>,
    ) -> Result<(), AllocError>
        ensures shown { OnOk result (shown.new.items ≡ (if entry.now.taken then changed entry.now.change shown.old.items else shown.old.items)) }
        ensures left { OnOk result (LeavesBy entry.now.change entry.now.taken (λ old. old ≡ left.old.items) shown.old.items left.new.items) }
        ensures torn { OnOk result (left.new.items ≡ with_torn self entry.now.change entry.now.taken left.old.items shown.old.items) }
    {
        self.leave(alloc, &entry.change, entry.taken, shown, left)?;
        if entry.taken {
            apply(alloc, shown, &entry.change)?;
        }
        Ok(())
    }

    fn leave(
        self,
        alloc: Global,
        change: &Change,
        taken: bool,
        shown: &[u8],
        left: &mut Vec<u8>,
    ) -> Result<(), AllocError>
        ensures left { OnOk result (LeavesBy change.now taken (λ old. old ≡ left.old.items) shown.now left.new.items) }
        ensures torn { OnOk result (left.new.items ≡ with_torn self change.now taken left.old.items shown.now) }
    {
        match change {
            Change::Write { offset, bytes } => self.write(alloc, left, *offset, bytes)?,
            Change::Cut { length } => {
                if self.keeps_cuts() {
                    left.truncate(*length);
                }
            }
            Change::Put { bytes } => {
                if taken {
                    *left = Vec::from_slice(alloc, bytes)?;
                }
            }
            Change::Sync => {
                if taken {
                    *left = Vec::from_slice(alloc, shown)?;
                }
            }
        }
        Ok(())
    }
}
