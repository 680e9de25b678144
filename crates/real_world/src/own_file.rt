// One of the agent's own files, in the working folder.
ghost use Rattle.std.specs.Io.{ReadsAtMost};

use crate::TRIES;
use std::fs::{File, OpenOptions};
use std::io::ErrorKind;
use std::os::unix::fs::FileExt;
use std::{fs, io};

/// The settings.
pub(crate) const SETTINGS: &str = "settings.json";

/// The output as one file.
pub(crate) const OUTPUT: &str = "output.jsonl";

/// The first file of the checkpoint.
pub(crate) const SLOT_A: &str = "checkpoint.a";

/// The second file of the checkpoint.
pub(crate) const SLOT_B: &str = "checkpoint.b";

/// A file from its first use on. Each call is given its name, which is always the same.
#[derive(Drop)]
pub(crate) struct OwnFile {
    is_written: bool,
    file: Option<File>,
    // Its name is known to last.
    is_named: bool,
}

impl OwnFile {
    pub(crate) fn new(is_written: bool) -> Self {
        OwnFile {
            is_written,
            file: None,
            is_named: false,
        }
    }

    // Opens the file where it is there. What is no plain file in its place is an error: to open a pipe waits for a writer.
    fn open(&mut self, rt: &HostRuntime, path: &str) -> io::Result<()> {
        if self.file.is_some() {
            return Ok(());
        }
        match fs::metadata(rt, path) {
            Ok(found) if found.is_file() => {}
            Ok(_) => return Err(io::Error::from(ErrorKind::InvalidInput)),
            Err(e) if e.kind() == ErrorKind::NotFound => return Ok(()),
            Err(e) => return Err(e),
        }
        let file = OpenOptions::new()
            .read(true)
            .write(self.is_written)
            .open(rt, path)?;
        self.file = Some(file);
        Ok(())
    }

    // Opens the file, and makes it where it isn't there.
    fn make(&mut self, rt: &HostRuntime, path: &str) -> io::Result<()> {
        self.open(rt, path)?;
        if self.file.is_none() {
            let made = OpenOptions::new()
                .read(true)
                .write(true)
                .create(true)
                .open(rt, path)?;
            self.file = Some(made);
        }
        Ok(())
    }

    pub(crate) fn length(&mut self, rt: &HostRuntime, path: &str) -> io::Result<u64> {
        self.open(rt, path)?;
        match &self.file {
            Some(file) => Ok(file.metadata()?.len()),
            None => Ok(0),
        }
    }

    pub(crate) fn read(
        &mut self,
        rt: &HostRuntime,
        path: &str,
        offset: u64,
        buf: &mut [u8],
    ) -> io::Result<usize>
        ensures { ReadsAtMost result buf.new }
    {
        self.open(rt, path)?;
        let Some(file) = &self.file else {
            return Ok(0);
        };
        for _ in 1..TRIES {
            match file.read_at(buf, offset) {
                Err(e) if e.kind() == ErrorKind::Interrupted => {}
                given => return given,
            }
        }
        file.read_at(buf, offset)
    }

    /// To write nothing makes no file.
    pub(crate) fn write(
        &mut self,
        rt: &HostRuntime,
        path: &str,
        offset: u64,
        bytes: &[u8],
    ) -> io::Result<()> {
        if bytes.is_empty() {
            return Ok(());
        }
        self.make(rt, path)?;
        match &self.file {
            Some(file) => file.write_all_at(bytes, offset),
            None => Err(io::Error::from(ErrorKind::NotFound)),
        }
    }

    pub(crate) fn cut(&mut self, rt: &HostRuntime, path: &str, length: u64) -> io::Result<()> {
        self.open(rt, path)?;
        match &self.file {
            Some(file) => file.set_len(length),
            None => Ok(()),
        }
    }

    /// The first sync makes the file's name last too.
    pub(crate) fn sync(&mut self, rt: &HostRuntime, path: &str) -> io::Result<()> {
        self.open(rt, path)?;
        let Some(file) = &self.file else {
            return Ok(());
        };
        file.sync_all()?;
        if !self.is_named {
            File::open(rt, ".")?.sync_all()?;
            self.is_named = true;
        }
        Ok(())
    }
}
