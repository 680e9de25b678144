// The machine's folders and plain files.
ghost use Rattle.std.specs.Prelude.{◌≤◌, IfOk};
ghost use Rattle.std.specs.Io.{ReadsAtMost};
ghost use Rattle.real_world.specs.Inner.Found.{IsFoundSize};

use crate::{TRIES, counted, counted_call, is_missing};
use entry_model::Text;
use outside::{CallFault, Failed, Handle, Item, Kind, Listed, Opened, Tree};
use std::alloc::Global;
use std::fs::{DirEntry, File};
use std::io::ErrorKind;
use std::os::unix::fs::{FileExt, MetadataExt};
use std::{fs, io};

/// The largest size that a file is told to have, in bytes.
const LARGEST_SIZE: u64 = 1 << 62;

#[derive(Drop)]
struct OpenFile {
    handle: u64,
    file: File,
}

/// The machine's tree of files, from the working folder.
#[derive(Drop)]
pub struct RealTree<'a> {
    rt: &'a HostRuntime,
    open: Vec<OpenFile>,
    next_handle: u64,
    faults: u64,
    taken: u64,
    nameless: u64,
    ghost in_range: { faults ≤ 18446744073709551615 },
}

impl<'a> RealTree<'a> {
    ghost use Rattle.std.specs.Prelude.{◌≡◌};

    pub fn new(rt: &'a HostRuntime) -> Self
        ensures { (result.faults ≡ 0) × (result.taken ≡ 0) × (result.nameless ≡ 0) }
    {
        RealTree {
            rt,
            open: Vec::new(rt.alloc()),
            next_handle: 0,
            faults: 0,
            taken: 0,
            nameless: 0,
        }
    }
}

impl Tree for RealTree<'_> {
    ghost use Rattle.std.specs.Prelude.{None};
    ghost use Rattle.outside.specs.Opening.{IsSize};

    ghost meaning = { record { world = λ _. None; plan = λ _. None; faults = λ tree. tree.faults; bound = λ _. None; taken = λ tree. tree.taken; nameless = λ tree. tree.nameless; widest = λ _. None; listed = λ _. None } };

    ghost lawful = { λ _. tt };

    ghost followed = { λ _. tt };

    ghost in_range = { λ tree. tree.in_range };

    ghost within_bound = { λ _. tt };

    fn list(&mut self, alloc: Global, folder: &str) -> Result<Listed, CallFault> {
        let listed = counted_call(&mut self.faults, names_in(self.rt, alloc, folder))?;
        if let Listed::Items { unnamed, .. } = &listed {
            self.nameless = self.nameless.saturating_add(u64::from(*unnamed));
        }
        Ok(listed)
    }

    fn open_file(&mut self, _alloc: Global, path: &str) -> Result<Opened, CallFault> {
        match counted_call(&mut self.faults, open_plain(self.rt, path))? {
            Found::File { file, size } => {
                let handle = self.next_handle;
                self.open.push(OpenFile { handle, file })?;
                self.next_handle = handle.wrapping_add(1);
                Ok(Opened::File {
                    handle: Handle(handle),
                    size,
                })
            }
            Found::Gone => Ok(Opened::Gone),
            Found::NotAFile => Ok(Opened::NotAFile),
        }
    }

    fn read_at(&mut self, handle: Handle, offset: u64, buf: &mut [u8]) -> Result<usize, Failed> {
        let given = match self.open.iter().find(|open| open.handle == handle.0) {
            Some(open) => read_retrying(&open.file, offset, buf),
            None => Ok(0),
        };
        let count = counted(&mut self.faults, given)?;
        self.taken = self.taken.saturating_add(count as u64);
        Ok(count)
    }

    fn close(&mut self, handle: Handle) {
        if let Some(place) = self.open.iter().position(|open| open.handle == handle.0) {
            let _ = self.open.swap_remove(place);
        }
    }
}

fn names_in(rt: &HostRuntime, alloc: Global, folder: &str) -> io::Result<Listed> {
    let path = if folder.is_empty() { "." } else { folder };
    let entries = match fs::read_dir(rt, path) {
        Ok(entries) => entries,
        Err(e) if is_missing(&e) => return Ok(Listed::Gone),
        Err(e) => return Err(e),
    };
    let mut items = Vec::new(alloc);
    let mut unnamed = 0u32;
    for entry in entries {
        match entry {
            Ok(entry) => {
                if let Some(item) = item_of(alloc, &entry)? {
                    items.push(item)?;
                }
            }
            Err(e) if e.kind() == ErrorKind::InvalidFilename => unnamed = unnamed.saturating_add(1),
            Err(e) => return Err(e),
        }
    }
    Ok(Listed::Items { items, unnamed })
}

// `None` where the name is gone again.
fn item_of(alloc: Global, entry: &DirEntry) -> io::Result<Option<Item>> {
    let kind = match entry.file_type() {
        Ok(found) if found.is_file() => Kind::File,
        Ok(found) if found.is_dir() => Kind::Folder,
        Ok(_) => Kind::Other,
        Err(e) if is_missing(&e) => return Ok(None),
        Err(e) => return Err(e),
    };
    let name = Text::from_str(alloc, entry.file_name())?;
    Ok(Some(Item { name, kind }))
}

#[derive(Drop)]
enum Found {
    File { file: File, size: u64 },
    Gone,
    NotAFile,
}

// The name's kind is looked at before the open, which would follow a link and wait for a pipe. Where the open led to
// another file than the look, the name has changed in between, and the file that was looked at is gone.
fn open_plain(rt: &HostRuntime, path: &str) -> io::Result<Found>
    ensures { IfOk result IsFoundSize }
{
    let looked = match fs::symlink_metadata(rt, path) {
        Ok(metadata) => metadata,
        Err(e) if is_missing(&e) => return Ok(Found::Gone),
        Err(e) => return Err(e),
    };
    if !looked.is_file() {
        return Ok(Found::NotAFile);
    }
    let file = match File::open(rt, path) {
        Ok(file) => file,
        Err(e) if is_missing(&e) => return Ok(Found::Gone),
        Err(e) => return Err(e),
    };
    let opened = file.metadata()?;
    if opened.dev() != looked.dev() || opened.ino() != looked.ino() {
        return Ok(Found::Gone);
    }
    Ok(Found::File {
        file,
        size: opened.len().min(LARGEST_SIZE),
    })
}

fn read_retrying(file: &File, offset: u64, buf: &mut [u8]) -> io::Result<usize>
    ensures { ReadsAtMost result buf.new }
{
    for _ in 1..TRIES {
        match file.read_at(buf, offset) {
            Err(e) if e.kind() == ErrorKind::Interrupted => {}
            given => return given,
        }
    }
    file.read_at(buf, offset)
}
