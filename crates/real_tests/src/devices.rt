// Each adapter once.
use out_segments::{PartFile, Parts};
use outside::{Clock, Disk, DiskFile, Kind, Listed, Opened, Sink, Source, Tree};
use real_world::{RealClock, RealDisk, RealParts, RealSink, RealSource, RealTree};
use std::fs;
use std::test::Fail;

#[test]
fn tree_lists_opens_and_reads(rt: HostRuntime) -> Result<(), Fail> {
    let alloc = rt.alloc();
    fs::write(&rt, "tree-test.log", "hello")?;
    let mut tree = RealTree::new(&rt);
    let Listed::Items { items, unnamed } = tree.list(alloc, "")? else {
        panic!(rt; "the working folder is gone");
    };
    assert_eq!(rt; unnamed, 0);
    let is_listed = items.iter().any(|item| item.kind == Kind::File
        && item.name.as_str() == "tree-test.log");
    assert!(rt; is_listed);
    let Opened::File { handle, size } = tree.open_file(alloc, "tree-test.log")? else {
        panic!(rt; "the file isn't opened");
    };
    assert_eq!(rt; size, 5);
    let mut buf = [0; 8];
    assert_eq!(rt; tree.read_at(handle, 1, &mut buf)?, 4);
    assert_eq!(rt; buf, *b"ello\0\0\0\0");
    assert_eq!(rt; tree.read_at(handle, 5, &mut buf)?, 0);
    tree.close(handle);
    assert_eq!(rt; tree.read_at(handle, 0, &mut buf)?, 0);
    assert_eq!(rt; tree.open_file(alloc, "no-such.log")?, Opened::Gone);
    assert_eq!(rt; tree.open_file(alloc, "tree-test.log/x")?, Opened::Gone);
    assert_eq!(rt; tree.open_file(alloc, ".")?, Opened::NotAFile);
    assert_eq!(rt; tree.list(alloc, "no-such-folder")?, Listed::Gone);
    fs::remove_file(&rt, "tree-test.log")?;
    Ok(())
}

#[test]
fn disk_writes_cuts_and_syncs(rt: HostRuntime) -> Result<(), Fail> {
    let alloc = rt.alloc();
    let mut disk = RealDisk::new(&rt);
    assert_eq!(rt; disk.length(DiskFile::SlotB)?, 0);
    disk.sync(alloc, DiskFile::SlotB)?;
    disk.write_at(alloc, DiskFile::SlotB, 0, b"hello")?;
    disk.write_at(alloc, DiskFile::SlotB, 4, b"p!")?;
    assert_eq!(rt; disk.length(DiskFile::SlotB)?, 6);
    disk.cut(alloc, DiskFile::SlotB, 5)?;
    disk.sync(alloc, DiskFile::SlotB)?;
    let mut buf = [0; 8];
    assert_eq!(rt; disk.read(DiskFile::SlotB, 1, &mut buf)?, 4);
    assert_eq!(rt; buf, *b"ellp\0\0\0\0");
    fs::remove_file(&rt, "checkpoint.b")?;
    Ok(())
}

#[test]
fn parts_write_cut_and_sync(rt: HostRuntime) -> Result<(), Fail> {
    let alloc = rt.alloc();
    let mut parts = RealParts::new(&rt);
    assert_eq!(rt; parts.length(PartFile::Part(1))?, 0);
    parts.sync(alloc, PartFile::Part(1))?;
    parts.write_at(alloc, PartFile::Part(1), 0, b"hello")?;
    parts.write_at(alloc, PartFile::Part(12), 0, b"further")?;
    parts.write_at(alloc, PartFile::Part(1), 4, b"p!")?;
    parts.cut(alloc, PartFile::Part(1), 5)?;
    parts.sync(alloc, PartFile::Part(1))?;
    let mut buf = [0; 8];
    assert_eq!(rt; parts.read(PartFile::Part(1), 1, &mut buf)?, 4);
    assert_eq!(rt; buf, *b"ellp\0\0\0\0");
    assert_eq!(rt; parts.length(PartFile::Part(12))?, 7);
    fs::remove_file(&rt, "output.1.jsonl")?;
    fs::remove_file(&rt, "output.12.jsonl")?;
    Ok(())
}

#[test]
fn streams_take_and_give(rt: HostRuntime) -> Result<(), Fail> {
    RealSink::new(&rt).write(rt.alloc(), b"reported\n")?;
    assert_eq!(rt; RealSource::new(&rt).read(&mut [])?, 0);
    Ok(())
}

#[test]
fn clock_tells_this_century(rt: HostRuntime) -> Result<(), Fail> {
    // The begin of 2020 and that of 2100, and an hour, in nanoseconds.
    const FROM: u64 = 1_577_836_800_000_000_000;
    const TO: u64 = 4_102_444_800_000_000_000;
    const HOUR: u64 = 3_600_000_000_000;
    let mut clock = RealClock::new(&rt);
    let first = clock.now();
    let second = clock.now();
    assert!(rt; (FROM..TO).contains(&first));
    assert!(rt; (FROM..TO).contains(&second));
    assert!(rt; first.abs_diff(second) < HOUR);
    Ok(())
}
