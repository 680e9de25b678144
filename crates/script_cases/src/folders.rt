// A tree and a disk, and polls over them.
use crate::events::{Tried, cut, say, step_of};
use case_files::{shown, unescaped};
use checkpoint_journal::peek;
use mem_world::{MemDisk, MemTree, WorldStep};
use outside::{Disk, DiskFile};
use poll_core::Session;
use std::alloc::{AllocError, Global};
use std::mem;

// The greatest limit of an output.
const LIMIT: u64 = 1_099_511_627_776;

/// `polls`: the first line has the settings, and each other line an event. What `poll`, `open` and `show` answer is the answer.
pub(crate) fn polls(alloc: Global, input: &str, tried: Tried) -> Result<String, AllocError> {
    let mut lines = input.lines();
    let settings = unescaped(alloc, lines.next().unwrap_or(""))?;
    let mut folder = Folder::new(alloc, &settings)?;
    for line in lines {
        folder.play(alloc, line, tried)?;
    }
    Ok(folder.answer)
}

/// A tree and a disk.
#[derive(Drop)]
pub(crate) struct Folder<'s> {
    pub(crate) tree: MemTree,
    disk: MemDisk,
    settings: &'s [u8],
    /// The greatest length of the output.
    limit: u64,
    /// What was said so far.
    pub(crate) answer: String,
}

impl<'s> Folder<'s> {
    pub(crate) fn new(alloc: Global, settings: &'s [u8]) -> Result<Folder<'s>, AllocError> {
        Ok(Folder {
            tree: MemTree::new(alloc)?,
            disk: MemDisk::new(alloc)?,
            settings,
            limit: LIMIT,
            answer: String::new(alloc),
        })
    }

    /// An event: `poll`, for which a session is opened; `open`, which opens a session alone; `try poll` or `try open`, which say
    /// nothing but where something else than the disk's failure ends them; `show FILE`, with a file's first eight bytes and its
    /// length, or `show journal`; `limit COUNT`, a limit of the output; a harm or a step of another process.
    pub(crate) fn play(
        &mut self,
        alloc: Global,
        line: &str,
        tried: Tried,
    ) -> Result<(), AllocError> {
        let (kind, rest) = cut(line);
        match kind {
            "poll" | "open" => {
                let said = self.poll(alloc, kind == "poll")?;
                say(&mut self.answer, said.as_str())
            }
            "try" => {
                let said = self.poll(alloc, rest == "poll")?;
                self.say_unexpected(said.as_str())
            }
            "show" => {
                let said = self.show(alloc, rest)?;
                say(&mut self.answer, said.as_str())
            }
            "limit" => {
                self.limit = u64::from(tried.number(rest).unwrap_or(0));
                Ok(())
            }
            "stop" | "crash" | "fail" | "put" | "write" => self.harm(alloc, kind, rest, tried),
            _ => self.step(alloc, line, tried),
        }
    }

    // Where something else than the disk's failure ended a poll or an opening.
    fn say_unexpected(&mut self, said: &str) -> Result<(), AllocError> {
        if said == "the disk failed" || said.starts_with("opens") || said.starts_with("Summary") {
            return Ok(());
        }
        say(&mut self.answer, said)
    }

    // What a poll answers, or an opening alone.
    fn poll(&mut self, alloc: Global, polls: bool) -> Result<String, AllocError> {
        let limit = self.limit;
        if limit > LIMIT {
            return String::from_str(alloc, "no such limit");
        }
        let session = match Session::open(alloc, &mut self.disk, self.settings, limit) {
            Ok(session) => session,
            Err(fault) => return format!(in alloc; "{fault}"),
        };
        if !polls {
            return format!(in alloc; "opens {}", session.kept());
        }
        match session.poll(alloc, &mut self.tree, &mut self.disk) {
            Ok((_, summary)) => format!(in alloc; "{summary:?}"),
            Err(fault) => format!(in alloc; "{fault}"),
        }
    }

    fn show(&mut self, alloc: Global, name: &str) -> Result<String, AllocError> {
        match file_of(name) {
            Some(file) => begun(alloc, name, self.disk.bytes(file)),
            None => self.journal(alloc),
        }
    }

    fn journal(&mut self, alloc: Global) -> Result<String, AllocError> {
        match peek(alloc, &mut self.disk) {
            Ok(Some((journal, checkpoint))) => {
                let (sequence, kept) = (journal.sequence, checkpoint.output_length);
                format!(in alloc; "sequence={sequence} kept={kept}")
            }
            Ok(None) => String::from_str(alloc, "no journal"),
            Err(_) => String::from_str(alloc, "a bad journal"),
        }
    }

    // `stop CALLS`: so many calls on the disk pass. `crash OUTCOME`: the disk is what a crash leaves, and no failure waits. `fail
    // disk CALL` and `fail tree CALL`: the call with this number fails, and 1 is the next. `put FILE BYTES`: a file of the disk
    // has these bytes, synced. `write FILE PLACE BYTES`: they are written, and not synced.
    fn harm(
        &mut self,
        alloc: Global,
        kind: &str,
        rest: &str,
        tried: Tried,
    ) -> Result<(), AllocError> {
        let (name, text) = cut(rest);
        match kind {
            "stop" => self.disk.fuse(tried.number(rest).unwrap_or(0)),
            "crash" => self.crash(alloc, tried.number(rest).unwrap_or(0))?,
            "fail" => self.fail(alloc, name, tried.number(text).unwrap_or(0))?,
            _ => match file_of(name) {
                Some(file) if kind == "put" => self.put(alloc, file, text)?,
                Some(file) => self.write(alloc, file, text, tried)?,
                None => {}
            },
        }
        Ok(())
    }

    fn fail(&mut self, alloc: Global, part: &str, call: u32) -> Result<(), AllocError> {
        match part {
            "tree" => self.tree.fail(alloc, call),
            _ => self.disk.fail(alloc, call),
        }
    }

    fn put(&mut self, alloc: Global, file: DiskFile, text: &str) -> Result<(), AllocError> {
        let bytes = unescaped(alloc, text)?;
        self.disk.put(alloc, file, &bytes)
    }

    fn crash(&mut self, alloc: Global, outcome: u32) -> Result<(), AllocError> {
        let empty = MemDisk::new(alloc)?;
        let stopped = mem::replace(&mut self.disk, empty);
        self.disk = stopped.crash(alloc, outcome)?;
        self.tree.clear_plans();
        Ok(())
    }

    fn write(
        &mut self,
        alloc: Global,
        file: DiskFile,
        text: &str,
        tried: Tried,
    ) -> Result<(), AllocError> {
        let (place, text) = cut(text);
        let bytes = unescaped(alloc, text)?;
        let place = tried.number(place).unwrap_or(0);
        if place as usize > self.disk.bytes(file).len() || bytes.len() > 65_536 {
            return say(&mut self.answer, "behind the end");
        }
        match self.disk.write_at(alloc, file, u64::from(place), &bytes) {
            Ok(()) => Ok(()),
            Err(_) => say(&mut self.answer, "not written"),
        }
    }

    // A step of another process, or `within CALLS STEP`, one behind so many calls on the tree.
    fn step(&mut self, alloc: Global, line: &str, tried: Tried) -> Result<(), AllocError> {
        let (kind, rest) = cut(line);
        if kind == "within" {
            return self.later(alloc, rest, tried);
        }
        match step_of(alloc, line, tried)? {
            Some(step) => self.make(alloc, step),
            None => say(&mut self.answer, "no event"),
        }
    }

    fn later(&mut self, alloc: Global, rest: &str, tried: Tried) -> Result<(), AllocError> {
        let (calls, line) = cut(rest);
        match step_of(alloc, line, tried)? {
            Some(step) => self
                .tree
                .later(alloc, tried.number(calls).unwrap_or(0), step),
            None => Ok(()),
        }
    }

    fn make(&mut self, alloc: Global, step: WorldStep) -> Result<(), AllocError> {
        match self.tree.play(alloc, step) {
            Ok(()) => Ok(()),
            Err(_) => say(&mut self.answer, "not lawful"),
        }
    }
}

// How a file begins, and how long it is.
fn begun(alloc: Global, name: &str, bytes: &[u8]) -> Result<String, AllocError> {
    let front = shown(alloc, bytes.get(..8).unwrap_or(bytes))?;
    let length = bytes.len();
    format!(in alloc; "{name}={front} length={length}")
}

fn file_of(name: &str) -> Option<DiskFile> {
    match name {
        "settings" => Some(DiskFile::Settings),
        "output" => Some(DiskFile::Output),
        "slot_a" => Some(DiskFile::SlotA),
        "slot_b" => Some(DiskFile::SlotB),
        _ => None,
    }
}
