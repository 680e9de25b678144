// An outside in memory, in which commands are run.
use agent_commands::run_agent;
use entry_model::Text;
use mem_world::{FileName, MemDisk, MemSink, MemSource, MemTree, StepFault, WorldStep};
use outside::{DiskFile, MemClock};
use std::alloc::{AllocError, Global};
use std::mem;

/// The settings that a world begins with.
pub const SETTINGS: &[u8] = b"{\"include\":[\"app.log*\"],\"start_at\":\"beginning\"}";

/// A tree with one file, `app.log`, a disk, a control input, a report and a clock. The steps of others are those on the newest file,
/// where no other was turned to.
#[derive(Drop)]
pub struct World {
    pub tree: MemTree,
    created: u32,
    current: u32,
    pub disk: MemDisk,
    pub control: MemSource,
    pub report: MemSink,
    pub clock: MemClock,
}

impl World {
    pub fn new(alloc: Global) -> Result<World, StepFault> {
        let mut disk = MemDisk::new(alloc)?;
        disk.put(alloc, DiskFile::Settings, SETTINGS)?;
        let mut world = World {
            tree: MemTree::new(alloc)?,
            created: 0,
            current: 0,
            disk,
            control: MemSource::new(Vec::new(alloc), 1),
            report: MemSink::new(alloc)?,
            clock: MemClock::new(Vec::new(alloc)),
        };
        world.create(alloc, "app.log")?;
        Ok(world)
    }

    /// A new, empty file.
    pub fn create(&mut self, alloc: Global, path: &str) -> Result<(), StepFault> {
        self.created = self.created.saturating_add(1);
        self.current = self.created;
        let file = FileName(self.current);
        let path = Text::from_str(alloc, path)?;
        self.tree.play(alloc, WorldStep::Create { file, path })
    }

    /// The steps that follow are on the file that was created as this one, from 1.
    pub fn turn_to(&mut self, file: u32) {
        self.current = file;
    }

    pub fn append(&mut self, alloc: Global, bytes: Vec<u8>) -> Result<(), StepFault> {
        let file = FileName(self.current);
        self.tree.play(alloc, WorldStep::Append { file, bytes })
    }

    /// The bytes come when so many further calls on the tree have been made.
    pub fn append_later(
        &mut self,
        alloc: Global,
        calls: u32,
        bytes: Vec<u8>,
    ) -> Result<(), AllocError> {
        let file = FileName(self.current);
        self.tree
            .later(alloc, calls, WorldStep::Append { file, bytes })
    }

    pub fn rename(&mut self, alloc: Global, path: &str) -> Result<(), StepFault> {
        let path = Text::from_str(alloc, path)?;
        let file = FileName(self.current);
        self.tree.play(alloc, WorldStep::Rename { file, path })
    }

    /// The file goes when so many further calls on the tree have been made.
    pub fn remove(&mut self, alloc: Global, calls: u32) -> Result<(), AllocError> {
        let file = FileName(self.current);
        self.tree.later(alloc, calls, WorldStep::Remove { file })
    }

    /// The file is cut to so many bytes.
    pub fn spoil(&mut self, size: u32) {
        self.tree.spoil(FileName(self.current), size as usize);
    }

    /// The disk is what a crash leaves, by its outcome. That with the number 0 keeps no write which no sync followed.
    pub fn crash(&mut self, alloc: Global, outcome: u32) -> Result<(), StepFault> {
        let empty = MemDisk::new(alloc)?;
        let stopped = mem::replace(&mut self.disk, empty);
        self.disk = stopped.crash(alloc, outcome)?;
        Ok(())
    }

    /// The command of these words is stopped once it has made so many calls on the disk, and a crash leaves what its outcome says.
    pub fn stop(
        &mut self,
        alloc: Global,
        words: &str,
        calls: u32,
        outcome: u32,
    ) -> Result<(), StepFault> {
        self.disk.fuse(calls);
        self.run(alloc, words)?;
        self.report = MemSink::new(alloc)?;
        self.crash(alloc, outcome)
    }

    /// The call with this number fails, from 1, of the part that the word names.
    pub fn fail(&mut self, alloc: Global, part: &str, call: u32) -> Result<(), AllocError> {
        match part {
            "tree" => self.tree.fail(alloc, call),
            "disk" => self.disk.fail(alloc, call),
            "control" => self.control.fail(alloc, call),
            _ => self.report.fail(alloc, call),
        }
    }

    /// The status with which the command ends that these words are, with a space between two.
    pub fn run(&mut self, alloc: Global, words: &str) -> Result<u8, AllocError> {
        let given = split_words(alloc, words)?;
        Ok(run_agent(
            alloc,
            &given,
            &mut self.tree,
            &mut self.disk,
            &mut self.control,
            &mut self.report,
            &mut self.clock,
        ))
    }

    /// What is reported from now on is a new report.
    pub fn new_report(&mut self, alloc: Global) -> Result<(), AllocError> {
        self.report = MemSink::new(alloc)?;
        Ok(())
    }
}

/// The words of a text that has a space between two.
pub fn split_words(alloc: Global, text: &str) -> Result<Vec<String>, AllocError> {
    let mut words = Vec::new(alloc);
    for word in text.split(' ') {
        words.push(String::from_str(alloc, word)?)?;
    }
    Ok(words)
}
