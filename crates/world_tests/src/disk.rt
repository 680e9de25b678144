use mem_world::MemDisk;
use outside::{CallFault, Disk, DiskFile};
use std::alloc::Global;
use std::test::Fail;

const OLD: &[u8] = b"abcdefghij";

const NEW: &[u8; 17] = b"ABCDEFGHIJKLMNOPQ";

/// A step on the output, or on the first slot.
#[derive(Clone, Copy)]
enum Step {
    Put(&'static [u8]),
    Write(u64, &'static [u8]),
    WriteSlot(&'static [u8]),
    Cut(u64),
    Sync,
    Look,
    Fuse(u32),
    Fail(u32),
    Clear,
}

// Makes the step, where its condition holds.
fn make(disk: &mut MemDisk, alloc: Global, step: Step) -> Result<(), CallFault> {
    let file = DiskFile::Output;
    let length = disk.bytes(file).len() as u64;
    match step {
        Step::Put(bytes) => disk.put(alloc, file, bytes)?,
        Step::Write(offset, bytes) if offset <= length && offset + bytes.len() as u64 <= 100 => {
            disk.write_at(alloc, file, offset, bytes)?
        }
        Step::WriteSlot(bytes) => disk.write_at(alloc, DiskFile::SlotA, 0, bytes)?,
        Step::Cut(to) if to <= length => disk.cut(alloc, file, to)?,
        Step::Sync => disk.sync(alloc, file)?,
        Step::Look => {
            disk.length(file).or(Err(CallFault::Failed))?;
        }
        Step::Fuse(calls) => disk.fuse(calls),
        Step::Fail(call) => disk.fail(alloc, call)?,
        Step::Clear => disk.clear_plans(),
        Step::Write(..) | Step::Cut(_) => return Err(CallFault::Memory),
    }
    Ok(())
}

// The output and the first slot, after these steps and a crash.
fn left(alloc: Global, steps: &[Step], outcome: u32) -> Result<(Vec<u8>, Vec<u8>), Fail> {
    let mut disk = MemDisk::new(alloc)?;
    for step in steps {
        make(&mut disk, alloc, *step)?;
    }
    let disk = disk.crash(alloc, outcome)?;
    let output = disk.bytes(DiskFile::Output).to_vec(alloc)?;
    Ok((output, disk.bytes(DiskFile::SlotA).to_vec(alloc)?))
}

#[test]
fn a_write_of_17_bytes_tears(rt: HostRuntime) -> Result<(), Fail> {
    let steps = [Step::Put(OLD), Step::Write(4, NEW)];
    let cases: [(u32, &[u8]); 13] = [
        (0, b"abcdefghij"),
        (1, b"abcdABCDEFGHIJKLMNOPQ"),
        (2, b"abcdABCDEFGH"),
        (3, b"abcd\xa5CDEFGHIJKLMNOPQR"),
        (4, b"abcdABCDEFHIJKLMNOPQR"),
        (5, b"abcdefghij"),
        (6, b"abcdABCDEFGHIJKLMNOPQ"),
        (8, b"abcd\xa5DEFGHIJKLMNOPQRS"),
        (9, b"abcdefghij"),
        (29, b"abcdABCDEFGHIJKLMNOPQ"),
        (49, b"abcdABCDEFGHI"),
        (69, b"abcd\xa5PQRSTUVWXYZ[\\]^_"),
        (92, b"abcdABCDEFGHIJKLMNOPQ"),
    ];
    for (outcome, want) in cases {
        let (output, slot) = left(rt.alloc(), &steps, outcome)?;
        assert_eq!(rt; output.as_slice(), want, "at {outcome}");
        assert_eq!(rt; slot.as_slice(), b"".as_slice(), "at {outcome}");
    }
    // A front of each length.
    for front in 1..18 {
        let mut want = OLD[..4].to_vec(rt.alloc())?;
        want.extend_from_slice(&NEW[..front])?;
        if front < 6 {
            want.extend_from_slice(&OLD[4 + front..])?;
        }
        let (output, _) = left(rt.alloc(), &steps, 5 * front as u32 + 2)?;
        assert_eq!(rt; output.as_slice(), want.as_slice(), "at {front}");
    }
    Ok(())
}

#[test]
fn a_crash_goes_back_to_the_last_sync(rt: HostRuntime) -> Result<(), Fail> {
    let steps = [
        Step::Write(0, b"one"),
        Step::Sync,
        Step::Cut(1),
        Step::WriteSlot(b"\xa5"),
    ];
    let cases: [(u32, &[u8], &[u8]); 6] = [
        (0, b"one", b""),
        (1, b"o", b"\xa5"),
        (2, b"one", b""),
        (3, b"o", b"\x5a"),
        (4, b"one", b"\xa6"),
        // The cut is there, and not the write.
        (29, b"o", b""),
    ];
    for (outcome, output, slot) in cases {
        let (found, found_slot) = left(rt.alloc(), &steps, outcome)?;
        assert_eq!(rt; found.as_slice(), output, "at {outcome}");
        assert_eq!(rt; found_slot.as_slice(), slot, "at {outcome}");
    }
    Ok(())
}

#[test]
fn calls_fail_where_they_are_set_to(rt: HostRuntime) -> Result<(), Fail> {
    let failed = Err(CallFault::Failed);
    let steps = [
        (Step::Fail(2), Ok(())),
        (Step::Look, Ok(())),
        (Step::Write(0, b"lost"), failed),
        (Step::Write(0, b"kept, all of it"), Ok(())),
        (Step::Fuse(1), Ok(())),
        (Step::Sync, Ok(())),
        // It counts as begun.
        (Step::Write(4, b" begun"), failed),
        (Step::WriteSlot(b"never"), failed),
        (Step::Clear, Ok(())),
        (Step::Look, failed),
        (Step::Fuse(0), Ok(())),
        (Step::Fail(1), Ok(())),
        (Step::Clear, Ok(())),
        (Step::Look, Ok(())),
    ];
    let mut disk = MemDisk::new(rt.alloc())?;
    for (index, (step, want)) in steps.into_iter().enumerate() {
        assert_eq!(rt; make(&mut disk, rt.alloc(), step), want, "at {index}");
    }
    let read = contents(rt.alloc(), &mut disk, DiskFile::Output)?;
    assert_eq!(rt; read.as_slice(), b"kept, all of it".as_slice());
    let disk = disk.crash(rt.alloc(), 1)?;
    assert_eq!(rt; disk.bytes(DiskFile::Output), b"kept begunof it".as_slice());
    assert_eq!(rt; disk.bytes(DiskFile::SlotA), b"".as_slice());
    Ok(())
}

// Reads all of a file, through the trait alone.
fn contents<D: Disk>(alloc: Global, disk: &mut D, file: DiskFile) -> Result<Vec<u8>, Fail> {
    let length = disk.length(file).or(Err("no length"))?;
    let mut read = Vec::new(alloc);
    let mut buf = [0; 4];
    for _ in 0..length {
        let count = disk
            .read(file, read.len() as u64, &mut buf)
            .or(Err("no read"))?;
        read.extend_from_slice(&buf[..count])?;
    }
    Ok(read)
}
