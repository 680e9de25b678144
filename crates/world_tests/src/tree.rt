// The world of log files, act by act.
use entry_model::Text;
use mem_world::{FileName, MemTree, StepFault, WorldStep};
use outside::{CallFault, Handle, Kind, Listed, Opened, Tree};
use std::alloc::{AllocError, Global};
use std::process::Abort;
use std::test::Fail;

// A step as a table has it.
#[derive(Clone, Copy)]
enum Told {
    Create(u32, &'static str),
    Append(u32, &'static [u8]),
    Rename(u32, &'static str),
    Remove(u32),
}

use Told::{Append, Create, Remove, Rename};

// What is done with a tree, and what it answers.
#[derive(Clone, Copy)]
enum Act {
    Play(Told),
    Refuse(Told),
    Later(u32, Told),
    Fail(u32),
    Clear,
    // So many calls of `close`.
    Close(u32),
    // The number of names in a folder, and one of them.
    List(&'static str, usize, &'static str, Kind),
    ListFails(&'static str),
    // A file is opened and read to its end, in two calls.
    Read(&'static str, &'static [u8]),
    OpenFails(&'static str),
    Gone(&'static str),
    Events(u64),
}

use Act::{Clear, Close, Events, Gone, Later, List, ListFails, OpenFails, Play, Read, Refuse};

const STEPS: &[Act] = &[
    Refuse(Append(1, b"a")),
    Refuse(Rename(1, "a.log")),
    Refuse(Remove(1)),
    Refuse(Create(1, "")),
    Refuse(Create(1, "a//b")),
    Refuse(Create(1, "a/..")),
    Play(Create(1, "logs/app.log")),
    Refuse(Create(1, "other.log")),
    Refuse(Create(2, "logs/app.log")),
    Refuse(Create(2, "logs")),
    Refuse(Create(2, "logs/app.log/x")),
    Play(Create(2, "logs/app")),
    Play(Create(3, "/logs/app.log")),
    Play(Append(1, b"one\n")),
    Refuse(Rename(1, "logs/app.log")),
    Refuse(Rename(1, "logs/app/x")),
    Play(Rename(1, "logs/app.log.1")),
    Play(Create(4, "logs/app.log")),
    Play(Remove(1)),
    Refuse(Remove(1)),
    Refuse(Append(1, b"two\n")),
    Refuse(Rename(1, "back.log")),
    Refuse(Create(1, "back.log")),
    Play(Create(5, "logs/app.log.1")),
    Play(Remove(2)),
    Play(Create(6, "logs/app/x")),
    Events(10),
    List("logs", 3, "app", Kind::Folder),
    Gone("logs/none"),
];

const ROTATION: &[Act] = &[
    Play(Create(1, "app.log")),
    Play(Append(1, b"a1\n")),
    Read("app.log", b"a1\n"),
    Play(Rename(1, "app.log.1")),
    Play(Create(2, "app.log")),
    Play(Append(2, b"b1\n")),
    List("", 2, "app.log.1", Kind::File),
    Read("app.log", b"b1\n"),
    Play(Append(1, b"a2\n")),
    Read("app.log.1", b"a1\na2\n"),
];

const PLAN: &[Act] = &[
    Play(Create(1, "a.log")),
    Later(3, Append(1, b"b")),
    Later(3, Append(1, b"c")),
    Later(2, Append(1, b"a")),
    Later(2, Append(7, b"never")),
    Later(4, Remove(1)),
    Later(6, Create(2, "b.log")),
    Close(2),
    Events(1),
    Close(1),
    Events(2),
    Read("a.log", b"abc"),
    // The handle kept the bytes of the file, which has no name by then.
    Gone("a.log"),
    Clear,
    Close(9),
    Gone("b.log"),
];

const FAILURES: &[Act] = &[
    Play(Create(1, "a.log")),
    Act::Fail(1),
    Act::Fail(3),
    ListFails(""),
    List("", 1, "a.log", Kind::File),
    OpenFails("a.log"),
    Events(3),
    Act::Fail(1),
    Clear,
    Read("a.log", b""),
];

fn step(alloc: Global, told: Told) -> Result<WorldStep, AllocError> {
    Ok(match told {
        Create(file, path) => WorldStep::Create {
            file: FileName(file),
            path: Text::from_str(alloc, path)?,
        },
        Append(file, bytes) => WorldStep::Append {
            file: FileName(file),
            bytes: Vec::from_slice(alloc, bytes)?,
        },
        Rename(file, path) => WorldStep::Rename {
            file: FileName(file),
            path: Text::from_str(alloc, path)?,
        },
        Remove(file) => WorldStep::Remove {
            file: FileName(file),
        },
    })
}

fn read_all(tree: &mut MemTree, alloc: Global, path: &str, bytes: &[u8]) -> bool {
    let Ok(Opened::File { handle, size }) = tree.open_file(alloc, path) else {
        return false;
    };
    let mut buf = [0; 16];
    match tree.read_at(handle, 0, &mut buf) {
        Ok(count) => size == count as u64 && &buf[..count] == bytes,
        Err(_) => false,
    }
}

fn has_names(
    tree: &mut MemTree,
    alloc: Global,
    folder: &str,
    count: usize,
    name: &str,
    kind: Kind,
) -> bool {
    match tree.list(alloc, folder) {
        Ok(Listed::Items { items, unnamed: 0 }) => {
            items.len() == count
                && items
                    .iter()
                    .any(|item| item.name.as_str() == name && item.kind == kind)
        }
        _ => false,
    }
}

fn perform(tree: &mut MemTree, alloc: Global, act: Act) -> Result<bool, AllocError> {
    Ok(match act {
        Play(told) => tree.play(alloc, step(alloc, told)?).is_ok(),
        Refuse(told) => tree.play(alloc, step(alloc, told)?) == Err(StepFault::NotLawful),
        Later(calls, told) => tree.later(alloc, calls, step(alloc, told)?).is_ok(),
        Act::Fail(call) => tree.fail(alloc, call).is_ok(),
        Clear => {
            tree.clear_plans();
            true
        }
        Close(calls) => {
            for _ in 0..calls {
                tree.close(Handle(99));
            }
            true
        }
        List(folder, count, name, kind) => has_names(tree, alloc, folder, count, name, kind),
        ListFails(folder) => matches!(&tree.list(alloc, folder), Err(CallFault::Failed)),
        Read(path, bytes) => read_all(tree, alloc, path, bytes),
        OpenFails(path) => matches!(&tree.open_file(alloc, path), Err(CallFault::Failed)),
        Gone(path) => matches!(&tree.open_file(alloc, path), Ok(Opened::Gone)),
        Events(events) => tree.events() == events,
    })
}

fn run(rt: &impl Abort, alloc: Global, acts: &[Act]) -> Result<(), AllocError> {
    let mut tree = MemTree::new(alloc)?;
    for (place, one) in acts.iter().enumerate() {
        let passed = perform(&mut tree, alloc, *one)?;
        assert!(rt; passed, "act {place}");
    }
    Ok(())
}

#[test]
fn worlds_move_as_told(rt: HostRuntime) -> Result<(), Fail> {
    run(&rt, rt.alloc(), STEPS)?;
    run(&rt, rt.alloc(), ROTATION)?;
    run(&rt, rt.alloc(), PLAN)?;
    run(&rt, rt.alloc(), FAILURES)?;
    Ok(())
}
