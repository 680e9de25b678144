// What the files of Parts in memory contain.
ghost use Rattle.std.specs.Prelude.{◌≡◌, ◌≢◌, ◌<◌, ◌≤◌, [], ℕ, length, if◌then◌else◌, OnOk, OnErr};
ghost use Rattle.outside.specs.Image.{AtFile};
ghost use Rattle.out_segments.specs.declared.parts.PartFile.{PartFile};
ghost use Rattle.out_segments.specs.MemContents.{part_bytes};
ghost use Rattle.out_segments.specs.MemLog.{changed, written_over};

use super::log::Change;
use crate::parts::PartFile;
use std::alloc::{AllocError, Global};
use std::mem;

#[derive(Drop)]
pub(crate) struct Contents {
    settings: Vec<u8>,
    slot_a: Vec<u8>,
    slot_b: Vec<u8>,
    // By their numbers. The later ones are empty.
    parts: Vec<Vec<u8>>,
}

impl Contents {
    ghost use Rattle.out_segments.specs.MemContents.{bytes_of, IsHeld, parts_held};

    /// Empty files.
    pub(crate) fn new(alloc: Global) -> Self
        ensures empty { (file : PartFile) → bytes_of result file ≡ [] }
        ensures none { parts_held result ≡ 0 }
    {
        Contents {
            settings: Vec::new(alloc),
            slot_a: Vec::new(alloc),
            slot_b: Vec::new(alloc),
            parts: Vec::new(alloc),
        }
    }

    pub(crate) fn bytes(&self, file: PartFile) -> &[u8]
        ensures { result.now ≡ bytes_of self.now file }
    {
        match file {
            PartFile::Settings => &self.settings,
            PartFile::SlotA => &self.slot_a,
            PartFile::SlotB => &self.slot_b,
            PartFile::Part(number) => part_at(&self.parts, number as usize),
        }
    }

    /// How many Parts there is room for: a Part behind them is empty.
    pub(crate) fn parts_held(&self) -> usize
        ensures { result ≡ parts_held self.now }
    {
        self.parts.len()
    }

    /// Does what a call does to a file, where it takes effect. Without memory nothing is done.
    pub(crate) fn change(
        &mut self,
        alloc: Global,
        file: PartFile,
        change: &Change,
        taken: bool,
    ) -> Result<(), AllocError>
        ensures ok { OnOk result (AtFile file (λ old new. new ≡ (if taken then changed change.now old else old)) (bytes_of self.old) (bytes_of self.new)) }
        ensures err { OnErr result ((other : PartFile) → bytes_of self.new other ≡ bytes_of self.old other) }
        ensures held { OnOk result (IsHeld (parts_held self.new) file) }
        ensures kept { parts_held self.old ≤ parts_held self.new }
        ensures few { parts_held self.old ≤ 4294967296 → parts_held self.new ≤ 4294967296 }
    {
        self.hold(alloc, file)?;
        if taken {
            let mut content = self.replace(file, Vec::new(alloc));
            let applied = apply(alloc, &mut content, change);
            self.replace(file, content);
            applied?;
        }
        Ok(())
    }

    // Makes the room that a file wants.
    fn hold(&mut self, alloc: Global, file: PartFile) -> Result<(), AllocError>
        ensures held { OnOk result (IsHeld (parts_held self.new) file) }
        ensures same { (other : PartFile) → bytes_of self.new other ≡ bytes_of self.old other }
        ensures kept { parts_held self.old ≤ parts_held self.new }
        ensures few { parts_held self.old ≤ 4294967296 → parts_held self.new ≤ 4294967296 }
    {
        match file {
            PartFile::Settings | PartFile::SlotA | PartFile::SlotB => Ok(()),
            PartFile::Part(number) => hold_part(alloc, &mut self.parts, number),
        }
    }

    // Puts a content in the place of another, and hands that back.
    fn replace(&mut self, file: PartFile, bytes: Vec<u8>) -> Vec<u8>
        requires { IsHeld (parts_held self.old) file }
        ensures out { result.items ≡ bytes_of self.old file }
        ensures here { bytes_of self.new file ≡ bytes.items }
        ensures others { (other : PartFile) → other ≢ file → bytes_of self.new other ≡ bytes_of self.old other }
        ensures kept { parts_held self.new ≡ parts_held self.old }
    {
        match file {
            PartFile::Settings => mem::replace(&mut self.settings, bytes),
            PartFile::SlotA => mem::replace(&mut self.slot_a, bytes),
            PartFile::SlotB => mem::replace(&mut self.slot_b, bytes),
            PartFile::Part(number) => replace_part(&mut self.parts, number as usize, bytes),
        }
    }
}

#[tactic(auto, using(crate::proofs::MemContents::part_found, crate::proofs::MemContents::part_past))]
fn part_at(parts: &[Vec<u8>], number: usize) -> &[u8]
    ensures { result.now ≡ part_bytes parts.now number }
{
    if number < parts.len() {
        parts[number].as_slice()
    } else {
        &[]
    }
}

// Makes room for the Part with this number, and for those before it.
fn hold_part(alloc: Global, parts: &mut Vec<Vec<u8>>, number: u32) -> Result<(), AllocError>
    ensures held { OnOk result (number < length parts.new.items) }
    ensures same { (other : ℕ) → part_bytes parts.new.items other ≡ part_bytes parts.old.items other }
    ensures kept { length parts.old.items ≤ length parts.new.items }
    ensures few { length parts.old.items ≤ 4294967296 → length parts.new.items ≤ 4294967296 }
{
    let number = number as usize;
    parts.reserve((number + 1).saturating_sub(parts.len()))?;
    while parts.len() <= number {
        parts.push(Vec::new(alloc))?;
    }
    Ok(())
}

#[tactic(auto, using(crate::proofs::MemContents::part_found, crate::proofs::MemContents::part_set, crate::proofs::MemContents::part_set_other))]
fn replace_part(parts: &mut Vec<Vec<u8>>, number: usize, bytes: Vec<u8>) -> Vec<u8>
    requires { number < length parts.old.items }
    ensures out { result.items ≡ part_bytes parts.old.items number }
    ensures here { part_bytes parts.new.items number ≡ bytes.items }
    ensures others { (other : ℕ) → other ≢ number → part_bytes parts.new.items other ≡ part_bytes parts.old.items other }
    ensures kept { length parts.new.items ≡ length parts.old.items }
{
    mem::replace(&mut parts[number], bytes)
}

/// Writes over what is there, and past the end.
pub(crate) fn write_over(
    alloc: Global,
    content: &mut Vec<u8>,
    offset: usize,
    bytes: &[u8],
) -> Result<(), AllocError>
    ensures ok { OnOk result (content.new.items ≡ written_over offset bytes.now content.old.items) }
    ensures err { OnErr result (content.new.items ≡ content.old.items) }
{
    let mut rest = Vec::new(alloc);
    if offset < content.len() && bytes.len() < content.len() - offset {
        rest.extend_from_slice(&content[offset + bytes.len()..])?;
    }
    content.reserve(bytes.len())?;
    content.reserve(rest.len())?;
    content.truncate(offset);
    content.extend_from_slice(bytes)?;
    content.extend_from_slice(&rest)?;
    Ok(())
}

/// Does what a call does to a content.
pub(crate) fn apply(alloc: Global, content: &mut Vec<u8>, change: &Change) -> Result<(), AllocError>
    ensures ok { OnOk result (content.new.items ≡ changed change.now content.old.items) }
    ensures err { OnErr result (content.new.items ≡ content.old.items) }
{
    match change {
        Change::Put { bytes } => *content = bytes.to_vec(alloc)?,
        Change::Write { offset, bytes } => write_over(alloc, content, *offset, bytes)?,
        Change::Cut { length } => content.truncate(*length),
        Change::Sync => {}
    }
    Ok(())
}
