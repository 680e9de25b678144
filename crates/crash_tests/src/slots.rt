use mem_world::MemDisk;
use outside::DiskFile;
use slot_store::{CommitFault, Slot, choose, commit, load};
use std::alloc::{AllocError, Global};
use std::test::Fail;

// A slot file: its gate, its sequence number, the length that it claims, and what follows.
#[derive(Clone, Copy)]
pub(crate) struct Told(pub u8, pub u64, pub u64, pub &'static [u8]);

impl Told {
    pub(crate) fn bytes(self, alloc: Global) -> Result<Vec<u8>, AllocError> {
        let mut bytes = Vec::new(alloc);
        bytes.push(self.0)?;
        bytes.extend_from_slice(&self.1.to_be_bytes())?;
        bytes.extend_from_slice(&self.2.to_be_bytes())?;
        bytes.extend_from_slice(self.3)?;
        Ok(bytes)
    }
}

const OLD: Told = Told(0xa5, 7, 3, b"old");

// What a run left that was stopped, with a sequence number above the next.
const STALE: Told = Told(0, 9, 5, b"stale");

fn disk_of(alloc: Global, first: Told, second: Told) -> Result<MemDisk, Fail> {
    let mut disk = MemDisk::new(alloc)?;
    disk.put(alloc, DiskFile::Settings, b"{}")?;
    disk.put(alloc, DiskFile::Output, b"line\n")?;
    disk.put(alloc, DiskFile::SlotA, &first.bytes(alloc)?)?;
    disk.put(alloc, DiskFile::SlotB, &second.bytes(alloc)?)?;
    Ok(disk)
}

// The payload that counts, or nothing.
fn payload(alloc: Global, disk: &mut MemDisk) -> Result<Vec<u8>, Fail> {
    match choose(disk)? {
        Some(slot) => Ok(load(alloc, disk, &slot)?),
        None => Ok(Vec::new(alloc)),
    }
}

// How a commit, an append or a rewrite goes wrong.
#[derive(Clone, Copy, PartialEq)]
pub(crate) enum Fault {
    // The process stops after so many calls.
    Stop(u32),
    // The call with this number fails.
    Fails(u32),
}

impl Fault {
    ghost use Rattle.std.specs.Prelude.{◌≡◌};
    ghost use Rattle.mem_world.specs.MemDisk.{history_of};

    pub(crate) fn set(self, alloc: Global, disk: &mut MemDisk) -> Result<(), AllocError>
        ensures { history_of disk.new ≡ history_of disk.old }
    {
        match self {
            Fault::Stop(calls) => disk.fuse(calls),
            Fault::Fails(call) => disk.fail(alloc, call)?,
        }
        Ok(())
    }
}

// The commit of `new` over OLD and STALE, the crash and what it leaves.
fn crashed(alloc: Global, fault: Fault, outcome: u32) -> Result<(bool, MemDisk), Fail> {
    let mut disk = disk_of(alloc, OLD, STALE)?;
    let before = choose(&mut disk)?;
    fault.set(alloc, &mut disk)?;
    let new = Vec::from_slice(alloc, b"new")?;
    let result = commit(alloc, &mut disk, before.as_ref(), new);
    Ok((result.is_ok(), disk.crash(alloc, outcome)?))
}

#[test]
fn a_stopped_commit_leaves_the_old_payload_or_the_new(rt: HostRuntime) -> Result<(), Fail> {
    let alloc = rt.alloc();
    for calls in 0..9u32 {
        for outcome in 0..5u32 {
            let (committed, mut disk) = crashed(alloc, Fault::Stop(calls), outcome)?;
            assert_eq!(rt; committed, calls == 8, "after {calls} calls");
            // The seventh call writes the gate, and outcome 1 leaves it as it was written.
            let is_new = calls == 8 || calls >= 6 && outcome == 1;
            let expected = if is_new { b"new" } else { b"old" };
            let left = payload(alloc, &mut disk)?;
            assert_eq!(rt;
                left.as_slice(),
                expected.as_slice(),
                "{calls} calls, outcome {outcome}"
            );
            assert_eq!(rt; disk.bytes(DiskFile::Output), b"line\n".as_slice());
            assert_eq!(rt; disk.bytes(DiskFile::Settings), b"{}".as_slice());
        }
    }
    Ok(())
}

#[test]
fn a_commit_with_a_failing_call_leaves_the_old_payload_or_the_new(
    rt: HostRuntime,
) -> Result<(), Fail> {
    let alloc = rt.alloc();
    for call in 1..9u32 {
        for outcome in 0..5u32 {
            let (committed, mut disk) = crashed(alloc, Fault::Fails(call), outcome)?;
            assert!(rt; !committed, "call {call} failed");
            // The eighth call is the sync of the gate.
            let expected = if call == 8 && outcome == 1 {
                b"new"
            } else {
                b"old"
            };
            let left = payload(alloc, &mut disk)?;
            assert_eq!(rt;
                left.as_slice(),
                expected.as_slice(),
                "call {call}, outcome {outcome}"
            );
            let before = choose(&mut disk)?;
            let later = Vec::from_slice(alloc, b"later")?;
            let next = commit(alloc, &mut disk, before.as_ref(), later)?;
            assert_eq!(rt;
                next.sequence,
                if call == 8 && outcome == 1 { 9 } else { 8 }
            );
            let left = payload(alloc, &mut disk)?;
            assert_eq!(rt; left.as_slice(), b"later".as_slice());
        }
    }
    Ok(())
}

const A: Option<DiskFile> = Some(DiskFile::SlotA);

const B: Option<DiskFile> = Some(DiskFile::SlotB);

const CHOICES: [(Told, Told, Option<DiskFile>); 18] = [
    (Told(0xa5, 1, 3, b"one"), Told(0xa5, 2, 3, b"two"), B),
    (Told(0xa5, 2, 3, b"two"), Told(0xa5, 1, 3, b"one"), A),
    (Told(0xa5, 2, 3, b"one"), Told(0xa5, 2, 3, b"two"), A),
    (Told(0xa5, 256, 0, b""), Told(0xa5, 255, 0, b""), A),
    (Told(0xa5, 1, 0, b""), Told(0xa5, u64::MAX, 0, b""), B),
    // Gates that are closed or torn.
    (Told(0xa5, 1, 3, b"one"), Told(0x00, 2, 3, b"two"), A),
    (Told(0xa5, 1, 3, b"one"), Told(0x5a, 2, 3, b"two"), A),
    (Told(0xa5, 1, 3, b"one"), Told(0xff, 2, 3, b"two"), A),
    (Told(0x00, 1, 3, b"one"), Told(0x00, 2, 3, b"two"), None),
    (Told(0x5a, 3, 3, b"one"), Told(0xa5, 2, 3, b"two"), B),
    // Lengths that pass the end of the file, or of all numbers.
    (Told(0xa5, 1, 3, b"one"), Told(0xa5, 2, 4, b"two"), A),
    (Told(0xa5, 1, 3, b"one"), Told(0xa5, 2, 2, b"two"), B),
    (Told(0xa5, 1, 3, b"one"), Told(0xa5, 2, 1 << 62, b"two"), A),
    (
        Told(0xa5, 1, 3, b"one"),
        Told(0xa5, 2, u64::MAX - 17, b"two"),
        A,
    ),
    (
        Told(0xa5, 1, 3, b"one"),
        Told(0xa5, 2, u64::MAX - 16, b"two"),
        A,
    ),
    (
        Told(0xa5, 1, 3, b"one"),
        Told(0xa5, 2, u64::MAX - 13, b"two"),
        A,
    ),
    (Told(0xa5, 1, 3, b"one"), Told(0xa5, 2, u64::MAX, b"two"), A),
    (
        Told(0xa5, 1, u64::MAX, b"one"),
        Told(0xa5, 2, u64::MAX, b"two"),
        None,
    ),
];

#[test]
fn the_open_slot_with_the_greater_sequence_counts(rt: HostRuntime) -> Result<(), Fail> {
    let alloc = rt.alloc();
    for (first, second, expected) in CHOICES {
        let mut disk = disk_of(alloc, first, second)?;
        let slot = choose(&mut disk)?;
        assert_eq!(rt;
            slot.map(|slot| slot.file),
            expected,
            "{} and {}",
            first.1,
            second.1
        );
    }
    Ok(())
}

#[test]
fn a_length_is_never_trusted(rt: HostRuntime) -> Result<(), Fail> {
    let alloc = rt.alloc();
    let mut disk = disk_of(alloc, OLD, STALE)?;
    let claims = Slot {
        file: DiskFile::SlotA,
        sequence: 7,
        length: 1 << 62,
    };
    let bytes = load(alloc, &mut disk, &claims)?;
    assert_eq!(rt; bytes.as_slice(), b"old".as_slice());
    disk.put(alloc, DiskFile::SlotA, &[0xa5, 0, 0])?;
    assert_eq!(rt; choose(&mut disk)?, None);
    let bytes = load(alloc, &mut disk, &claims)?;
    assert!(rt; bytes.is_empty());
    Ok(())
}

#[test]
fn the_first_slot_is_spelled_and_the_last_is_worn(rt: HostRuntime) -> Result<(), Fail> {
    let alloc = rt.alloc();
    let mut disk = MemDisk::new(alloc)?;
    let first = commit(alloc, &mut disk, None, Vec::from_slice(alloc, b"new")?)?;
    assert_eq!(rt;
        first,
        Slot {
            file: DiskFile::SlotA,
            sequence: 1,
            length: 3
        }
    );
    let spelled = b"\xa5\0\0\0\0\0\0\0\x01\0\0\0\0\0\0\0\x03new";
    assert_eq!(rt; disk.bytes(DiskFile::SlotA), spelled.as_slice());
    let last = Slot {
        sequence: u64::MAX,
        ..first
    };
    let later = Vec::from_slice(alloc, b"later")?;
    let result = commit(alloc, &mut disk, Some(&last), later);
    assert_eq!(rt; result, Err(CommitFault::Worn { sequence: u64::MAX }));
    assert_eq!(rt; disk.bytes(DiskFile::SlotA), spelled.as_slice());
    assert!(rt; disk.bytes(DiskFile::SlotB).is_empty());
    Ok(())
}
