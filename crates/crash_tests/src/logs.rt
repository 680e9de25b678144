ghost use Rattle.std.specs.Prelude.{◌≤◌, length, IfOk};
ghost use Rattle.mem_world.specs.MemDisk.{disk_images};
ghost use Rattle.record_log.specs.LogOf.{EndsWith};
ghost use Rattle.slot_store.specs.ChosenSlot.{IsSlotFile};
ghost use Rattle.slot_store.specs.Synced.{EachLeft};

use crate::slots::{Fault, Told};
use mem_world::MemDisk;
use outside::DiskFile;
use record_log::{Log, read, rewrite};
use slot_store::CommitFault;
use std::alloc::Global;
use std::test::Fail;

// A disk whose first slot has these frames, one behind another, and whose second is empty.
fn disk_of(alloc: Global, frames: &[Told]) -> Result<MemDisk, Fail> {
    let mut disk = MemDisk::new(alloc)?;
    let mut bytes = Vec::new(alloc);
    for frame in frames {
        bytes.extend_from_slice(&frame.bytes(alloc)?)?;
    }
    disk.put(alloc, DiskFile::Output, b"line\n")?;
    disk.put(alloc, DiskFile::SlotA, &bytes)?;
    Ok(disk)
}

// The base and the records, each with a comma behind it.
fn joined(alloc: Global, disk: &mut MemDisk) -> Result<Vec<u8>, Fail> {
    let mut text = Vec::new(alloc);
    if let Some(found) = read(alloc, disk)? {
        text.extend_from_slice(&found.base)?;
        text.push(b',')?;
        for record in &found.records {
            text.extend_from_slice(record)?;
            text.push(b',')?;
        }
    }
    Ok(text)
}

const BASE: Told = Told(0xa5, 7, 4, b"base");

const TABLE: [(&[Told], &[u8]); 14] = [
    (&[BASE], b"base,"),
    (&[Told(0, 7, 4, b"base"), Told(0xa5, 8, 1, b"a")], b""),
    (&[BASE, Told(0xa5, 8, 1, b"a")], b"base,a,"),
    (
        &[BASE, Told(0xa5, 8, 1, b"a"), Told(0xa5, 9, 2, b"bc")],
        b"base,a,bc,",
    ),
    (
        &[BASE, Told(0xa5, 8, 0, b""), Told(0xa5, 9, 1, b"b")],
        b"base,,b,",
    ),
    // A record that is closed or torn ends the log, whatever stands behind it.
    (
        &[BASE, Told(0, 8, 1, b"a"), Told(0xa5, 9, 1, b"b")],
        b"base,",
    ),
    (
        &[BASE, Told(0x5a, 8, 1, b"a"), Told(0xa5, 8, 1, b"b")],
        b"base,",
    ),
    (&[BASE, Told(0xff, 8, 1, b"a")], b"base,"),
    // So does one whose sequence number isn't the next.
    (&[BASE, Told(0xa5, 9, 1, b"a")], b"base,"),
    (&[BASE, Told(0xa5, 7, 1, b"a")], b"base,"),
    (
        &[BASE, Told(0xa5, 8, 1, b"a"), Told(0xa5, 10, 1, b"b")],
        b"base,a,",
    ),
    // And one that passes the end of the file, or of all numbers.
    (&[BASE, Told(0xa5, 8, 2, b"a")], b"base,"),
    (&[BASE, Told(0xa5, 8, 1 << 62, b"a")], b"base,"),
    (&[BASE, Told(0xa5, 8, u64::MAX, b"a")], b"base,"),
];

#[test]
fn records_up_to_the_first_that_does_not_count(rt: HostRuntime) -> Result<(), Fail> {
    let alloc = rt.alloc();
    for (frames, expected) in TABLE {
        let mut disk = disk_of(alloc, frames)?;
        let text = joined(alloc, &mut disk)?;
        assert_eq!(rt; text.as_slice(), expected);
    }
    Ok(())
}

#[test]
fn a_stopped_rewrite_leaves_the_old_log_or_the_new(rt: HostRuntime) -> Result<(), Fail> {
    let alloc = rt.alloc();
    let frames = [BASE, Told(0xa5, 8, 1, b"a")];
    for calls in 0..9u32 {
        for outcome in 0..5u32 {
            let mut disk = disk_of(alloc, &frames)?;
            let before = log_of(alloc, &mut disk)?;
            disk.fuse(calls);
            let new = Vec::from_slice(alloc, b"new")?;
            let result = rewrite(alloc, &mut disk, before.as_ref(), new);
            assert_eq!(rt; result.is_ok(), calls == 8, "after {calls} calls");
            let mut disk = disk.crash(alloc, outcome)?;
            // The seventh call writes the gate, and outcome 1 leaves it as it was written.
            let is_new = calls == 8 || calls >= 6 && outcome == 1;
            let expected = if is_new {
                b"new,".as_slice()
            } else {
                b"base,a,"
            };
            let text = joined(alloc, &mut disk)?;
            assert_eq!(rt;
                text.as_slice(),
                expected,
                "{calls} calls, outcome {outcome}"
            );
        }
    }
    Ok(())
}

// A disk with a log of this base alone.
fn started(alloc: Global, base: Vec<u8>) -> Result<(MemDisk, Log), Fail>
    requires { length base.items ≤ 100 }
    ensures stands { IfOk result (λ made. EachLeft disk_images made.0 (EndsWith made.1)) }
    ensures file { IfOk result (λ made. IsSlotFile made.1.slot.file) }
    ensures end { IfOk result (λ made. made.1.end ≤ 117) }
{
    let mut disk = MemDisk::new(alloc)?;
    let log = rewrite(alloc, &mut disk, None, base)?;
    Ok((disk, log))
}

// The append of `more` over a base and a record, the crash and what it leaves.
fn crashed_append(alloc: Global, fault: Fault, outcome: u32) -> Result<(bool, MemDisk), Fail> {
    let (mut disk, log) = started(alloc, Vec::from_slice(alloc, b"base")?)?;
    let log = log.append(alloc, &mut disk, Vec::from_slice(alloc, b"a")?)?;
    fault.set(alloc, &mut disk)?;
    let more = Vec::from_slice(alloc, b"more")?;
    let result = log.append(alloc, &mut disk, more);
    Ok((result.is_ok(), disk.crash(alloc, outcome)?))
}

#[test]
fn a_stopped_append_leaves_the_log_with_or_without_the_record(rt: HostRuntime) -> Result<(), Fail> {
    let alloc = rt.alloc();
    for calls in 0..7u32 {
        for outcome in 0..5u32 {
            let (appended, mut disk) = crashed_append(alloc, Fault::Stop(calls), outcome)?;
            assert_eq!(rt; appended, calls == 6, "after {calls} calls");
            // The fifth call writes the gate, and outcome 1 leaves it as it was written.
            let is_new = calls == 6 || calls >= 4 && outcome == 1;
            let expected = if is_new {
                b"base,a,more,".as_slice()
            } else {
                b"base,a,"
            };
            let text = joined(alloc, &mut disk)?;
            assert_eq!(rt;
                text.as_slice(),
                expected,
                "{calls} calls, outcome {outcome}"
            );
        }
    }
    Ok(())
}

#[test]
fn an_append_with_a_failing_call_leaves_the_log_with_or_without_the_record(
    rt: HostRuntime,
) -> Result<(), Fail> {
    let alloc = rt.alloc();
    for call in 1..7u32 {
        for outcome in 0..5u32 {
            let (appended, mut disk) = crashed_append(alloc, Fault::Fails(call), outcome)?;
            assert!(rt; !appended, "call {call} failed");
            // The sixth call is the sync of the gate.
            let is_new = call == 6 && outcome == 1;
            let expected = if is_new {
                b"base,a,more,".as_slice()
            } else {
                b"base,a,"
            };
            let text = joined(alloc, &mut disk)?;
            assert_eq!(rt; text.as_slice(), expected, "call {call}, outcome {outcome}");
            let before = log_of(alloc, &mut disk)?;
            let new = Vec::from_slice(alloc, b"new")?;
            let next = rewrite(alloc, &mut disk, before.as_ref(), new)?;
            assert_eq!(rt; next.sequence, if is_new { 4 } else { 3 });
        }
    }
    Ok(())
}

#[test]
fn an_append_is_spelled_behind_the_last_record(rt: HostRuntime) -> Result<(), Fail> {
    let alloc = rt.alloc();
    let (mut disk, log) = started(alloc, Vec::from_slice(alloc, b"base")?)?;
    let log = log.append(alloc, &mut disk, Vec::from_slice(alloc, b"a")?)?;
    assert_eq!(rt; log.end, 39);
    assert_eq!(rt; log.sequence, 2);
    assert_eq!(rt; log.slot.file, DiskFile::SlotA);
    let mut spelled = Told(0xa5, 1, 4, b"base").bytes(alloc)?;
    spelled.extend_from_slice(&Told(0xa5, 2, 1, b"a").bytes(alloc)?)?;
    assert_eq!(rt; disk.bytes(DiskFile::SlotA), spelled.as_slice());
    assert!(rt; disk.bytes(DiskFile::SlotB).is_empty());
    Ok(())
}

#[test]
fn a_rewrite_with_a_failing_call_leaves_the_old_log_or_the_new(
    rt: HostRuntime,
) -> Result<(), Fail> {
    let alloc = rt.alloc();
    let frames = [BASE, Told(0xa5, 8, 1, b"a")];
    for call in 1..9u32 {
        for outcome in 0..5u32 {
            let mut disk = disk_of(alloc, &frames)?;
            let before = log_of(alloc, &mut disk)?;
            disk.fail(alloc, call)?;
            let new = Vec::from_slice(alloc, b"new")?;
            let result = rewrite(alloc, &mut disk, before.as_ref(), new);
            assert!(rt; result.is_err(), "call {call} failed");
            let mut disk = disk.crash(alloc, outcome)?;
            // The eighth call is the sync of the gate.
            let expected = if call == 8 && outcome == 1 {
                b"new,".as_slice()
            } else {
                b"base,a,"
            };
            let text = joined(alloc, &mut disk)?;
            assert_eq!(rt; text.as_slice(), expected, "call {call}, outcome {outcome}");
        }
    }
    Ok(())
}

#[test]
fn a_rewrite_counts_on_from_the_last_record(rt: HostRuntime) -> Result<(), Fail> {
    let alloc = rt.alloc();
    let mut disk = disk_of(alloc, &[BASE, Told(0xa5, 8, 1, b"a")])?;
    let before = log_of(alloc, &mut disk)?;
    let new = Vec::from_slice(alloc, b"new")?;
    let next = rewrite(alloc, &mut disk, before.as_ref(), new)?;
    assert_eq!(rt; next.slot.file, DiskFile::SlotB);
    assert_eq!(rt; next.sequence, 9);
    assert_eq!(rt; next.end, 20);
    let worn = Log {
        sequence: u64::MAX,
        ..next
    };
    let later = Vec::from_slice(alloc, b"later")?;
    let result = rewrite(alloc, &mut disk, Some(&worn), later);
    assert_eq!(rt; result, Err(CommitFault::Worn { sequence: u64::MAX }));
    let text = joined(alloc, &mut disk)?;
    assert_eq!(rt; text.as_slice(), b"new,".as_slice());
    Ok(())
}

fn log_of(alloc: Global, disk: &mut MemDisk) -> Result<Option<Log>, Fail> {
    Ok(read(alloc, disk)?.map(|found| found.log))
}
