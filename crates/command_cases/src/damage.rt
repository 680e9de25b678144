// Commands over a damaged checkpoint.
use crate::steps::played;
use crate::world::World;
use mem_world::{MemDisk, StepFault};
use outside::DiskFile;
use std::alloc::{AllocError, Global};
use std::fmt::Write;

// What a byte is changed to.
const DAMAGES: [u8; 4] = [0x00, 0x5a, 0xa5, 0xff];

/// The statuses with which the command of these words ends, ascending and each once, where the steps were made and then each byte of
/// the checkpoint is changed to 00, 5a, a5 and ff, one at a time.
pub fn answer(alloc: Global, words: &str, text: &str) -> Result<String, AllocError> {
    match statuses(alloc, words, text) {
        Ok(statuses) => listed(alloc, &statuses),
        Err(StepFault::Memory) => Err(AllocError),
        Err(_) => String::from_str(alloc, "a step that can't be made"),
    }
}

fn listed(alloc: Global, statuses: &[u8]) -> Result<String, AllocError> {
    let mut told = String::new(alloc);
    for status in 0..=u8::MAX {
        if statuses.contains(&status) {
            write!(told, "{status} ")?;
        }
    }
    String::from_str(alloc, told.as_str().trim_end_matches(' '))
}

fn statuses(alloc: Global, words: &str, text: &str) -> Result<Vec<u8>, StepFault> {
    let (mut world, _told) = played(alloc, text, 1)?;
    let whole = Files::copied(alloc, &world.disk)?;
    let mut found = Vec::new(alloc);
    for place in 0..whole.checkpoint.len() {
        try_place(alloc, &mut world, &whole, place, words, &mut found)?;
    }
    Ok(found)
}

// Notes the statuses where the byte at this place is changed.
fn try_place(
    alloc: Global,
    world: &mut World,
    whole: &Files,
    place: usize,
    words: &str,
    found: &mut Vec<u8>,
) -> Result<(), StepFault> {
    for damage in DAMAGES {
        world.disk = whole.damaged(alloc, place, damage)?;
        note(found, world.run(alloc, words)?)?;
    }
    Ok(())
}

fn note(found: &mut Vec<u8>, status: u8) -> Result<(), AllocError> {
    if !found.contains(&status) {
        found.push(status)?;
    }
    Ok(())
}

// What the files of a disk hold.
#[derive(Drop)]
struct Files {
    settings: Vec<u8>,
    output: Vec<u8>,
    checkpoint: Vec<u8>,
}

impl Files {
    fn copied(alloc: Global, disk: &MemDisk) -> Result<Files, AllocError> {
        Ok(Files {
            settings: Vec::from_slice(alloc, disk.bytes(DiskFile::Settings))?,
            output: Vec::from_slice(alloc, disk.bytes(DiskFile::Output))?,
            checkpoint: Vec::from_slice(alloc, disk.bytes(DiskFile::SlotA))?,
        })
    }

    // A disk with these files, of whose checkpoint one byte is changed.
    fn damaged(&self, alloc: Global, place: usize, damage: u8) -> Result<MemDisk, AllocError> {
        let mut checkpoint = Vec::from_slice(alloc, &self.checkpoint)?;
        if let Some(byte) = checkpoint.get_mut(place) {
            *byte = damage;
        }
        let mut disk = MemDisk::new(alloc)?;
        disk.put(alloc, DiskFile::Settings, &self.settings)?;
        disk.put(alloc, DiskFile::Output, &self.output)?;
        disk.put(alloc, DiskFile::SlotA, &checkpoint)?;
        Ok(disk)
    }
}
