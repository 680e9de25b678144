// The agent's own files with the output in Parts, in the working folder.
ghost use Rattle.std.specs.Io.{ReadsAtMost};
ghost use Rattle.std.specs.Prelude.{◌≤◌};

use crate::own_file::{OwnFile, SETTINGS, SLOT_A, SLOT_B};
use crate::{counted, counted_call};
use out_segments::{PartFile, Parts};
use outside::{CallFault, Failed};
use std::alloc::Global;
use std::io;

// The files from their first use on. Of the Parts the one that was used last is open, however many there are.
#[derive(Drop)]
struct OwnFiles {
    settings: OwnFile,
    slot_a: OwnFile,
    slot_b: OwnFile,
    part: OwnFile,
    number: Option<u32>,
}

/// The machine's Parts: `output.0.jsonl`, `output.1.jsonl` and so on, beside the files that are not output.
#[derive(Drop)]
pub struct RealParts<'a> {
    rt: &'a HostRuntime,
    files: OwnFiles,
    faults: u64,
    ghost in_range: { faults ≤ 18446744073709551615 },
}

impl<'a> RealParts<'a> {
    ghost use Rattle.std.specs.Prelude.{◌≡◌};

    pub fn new(rt: &'a HostRuntime) -> Self
        ensures { result.faults ≡ 0 }
    {
        RealParts {
            rt,
            files: OwnFiles {
                settings: OwnFile::new(false),
                slot_a: OwnFile::new(true),
                slot_b: OwnFile::new(true),
                part: OwnFile::new(true),
                number: None,
            },
            faults: 0,
        }
    }
}

// The file's name.
fn name_of(alloc: Global, file: PartFile) -> io::Result<String> {
    let name = match file {
        PartFile::Settings => String::from_str(alloc, SETTINGS)?,
        PartFile::SlotA => String::from_str(alloc, SLOT_A)?,
        PartFile::SlotB => String::from_str(alloc, SLOT_B)?,
        PartFile::Part(number) => format!(in alloc; "output.{number}.jsonl")?,
    };
    Ok(name)
}

impl OwnFiles {
    // The Part that was used last is closed for another one. A sync of that one makes its name last again, which it may
    // not do yet.
    fn use_part(&mut self, number: u32) {
        if self.number != Some(number) {
            self.part = OwnFile::new(true);
            self.number = Some(number);
        }
    }

    fn length(&mut self, rt: &HostRuntime, file: PartFile) -> io::Result<u64> {
        let name = name_of(rt.alloc(), file)?;
        match file {
            PartFile::Settings => self.settings.length(rt, name.as_str()),
            PartFile::SlotA => self.slot_a.length(rt, name.as_str()),
            PartFile::SlotB => self.slot_b.length(rt, name.as_str()),
            PartFile::Part(number) => {
                self.use_part(number);
                self.part.length(rt, name.as_str())
            }
        }
    }

    fn read(
        &mut self,
        rt: &HostRuntime,
        file: PartFile,
        offset: u64,
        buf: &mut [u8],
    ) -> io::Result<usize>
        ensures { ReadsAtMost result buf.new }
    {
        let name = name_of(rt.alloc(), file)?;
        match file {
            PartFile::Settings => self.settings.read(rt, name.as_str(), offset, buf),
            PartFile::SlotA => self.slot_a.read(rt, name.as_str(), offset, buf),
            PartFile::SlotB => self.slot_b.read(rt, name.as_str(), offset, buf),
            PartFile::Part(number) => {
                self.use_part(number);
                self.part.read(rt, name.as_str(), offset, buf)
            }
        }
    }

    fn write(
        &mut self,
        rt: &HostRuntime,
        file: PartFile,
        offset: u64,
        bytes: &[u8],
    ) -> io::Result<()> {
        let name = name_of(rt.alloc(), file)?;
        match file {
            PartFile::Settings => self.settings.write(rt, name.as_str(), offset, bytes),
            PartFile::SlotA => self.slot_a.write(rt, name.as_str(), offset, bytes),
            PartFile::SlotB => self.slot_b.write(rt, name.as_str(), offset, bytes),
            PartFile::Part(number) => {
                self.use_part(number);
                self.part.write(rt, name.as_str(), offset, bytes)
            }
        }
    }

    fn cut(&mut self, rt: &HostRuntime, file: PartFile, length: u64) -> io::Result<()> {
        let name = name_of(rt.alloc(), file)?;
        match file {
            PartFile::Settings => self.settings.cut(rt, name.as_str(), length),
            PartFile::SlotA => self.slot_a.cut(rt, name.as_str(), length),
            PartFile::SlotB => self.slot_b.cut(rt, name.as_str(), length),
            PartFile::Part(number) => {
                self.use_part(number);
                self.part.cut(rt, name.as_str(), length)
            }
        }
    }

    fn sync(&mut self, rt: &HostRuntime, file: PartFile) -> io::Result<()> {
        let name = name_of(rt.alloc(), file)?;
        match file {
            PartFile::Settings => self.settings.sync(rt, name.as_str()),
            PartFile::SlotA => self.slot_a.sync(rt, name.as_str()),
            PartFile::SlotB => self.slot_b.sync(rt, name.as_str()),
            PartFile::Part(number) => {
                self.use_part(number);
                self.part.sync(rt, name.as_str())
            }
        }
    }
}

impl Parts for RealParts<'_> {
    ghost use Rattle.std.specs.Prelude.{None};
    ghost use Rattle.real_world.specs.Silent.{silent, never_told};

    ghost meaning = { record { images = silent; faults = λ parts. parts.faults; bound = λ _. None; done = λ _. None; limit = λ _. None; written = λ _. None } };

    ghost told = { λ _ _ left. absurd left };

    ghost shown = { λ _ told. never_told told };

    ghost counts_now = { λ _ _ _ _ left. left };

    ghost only_now = { λ _ _ left. left };

    ghost in_range = { λ parts. parts.in_range };

    ghost within_bound = { λ _. tt };

    ghost within_limit = { λ _. tt };

    fn length(&mut self, file: PartFile) -> Result<u64, Failed> {
        let given = self.files.length(self.rt, file);
        counted(&mut self.faults, given)
    }

    fn read(&mut self, file: PartFile, offset: u64, buf: &mut [u8]) -> Result<usize, Failed> {
        let given = self.files.read(self.rt, file, offset, buf);
        counted(&mut self.faults, given)
    }

    fn write_at(
        &mut self,
        _alloc: Global,
        file: PartFile,
        offset: u64,
        bytes: &[u8],
    ) -> Result<(), CallFault> {
        let given = self.files.write(self.rt, file, offset, bytes);
        counted_call(&mut self.faults, given)
    }

    fn cut(&mut self, _alloc: Global, file: PartFile, length: u64) -> Result<(), CallFault> {
        let given = self.files.cut(self.rt, file, length);
        counted_call(&mut self.faults, given)
    }

    fn sync(&mut self, _alloc: Global, file: PartFile) -> Result<(), CallFault> {
        let given = self.files.sync(self.rt, file);
        counted_call(&mut self.faults, given)
    }
}
