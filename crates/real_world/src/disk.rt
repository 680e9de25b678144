// The agent's own four files, in the working folder.
ghost use Rattle.std.specs.Prelude.{◌≤◌};

use crate::own_file::{OUTPUT, OwnFile, SETTINGS, SLOT_A, SLOT_B};
use crate::{counted, counted_call};
use outside::{CallFault, Disk, DiskFile, Failed};
use std::alloc::Global;

/// The machine's disk.
#[derive(Drop)]
pub struct RealDisk<'a> {
    rt: &'a HostRuntime,
    settings: OwnFile,
    output: OwnFile,
    slot_a: OwnFile,
    slot_b: OwnFile,
    faults: u64,
    ghost in_range: { faults ≤ 18446744073709551615 },
}

impl<'a> RealDisk<'a> {
    ghost use Rattle.std.specs.Prelude.{◌≡◌};

    pub fn new(rt: &'a HostRuntime) -> Self
        ensures { result.faults ≡ 0 }
    {
        RealDisk {
            rt,
            settings: OwnFile::new(false),
            output: OwnFile::new(true),
            slot_a: OwnFile::new(true),
            slot_b: OwnFile::new(true),
            faults: 0,
        }
    }
}

impl Disk for RealDisk<'_> {
    ghost use Rattle.std.specs.Prelude.{None};
    ghost use Rattle.real_world.specs.Silent.{silent, never_told};

    ghost meaning = { record { images = silent; faults = λ disk. disk.faults; bound = λ _. None; done = λ _. None; limit = λ _. None; written = λ _. None } };

    ghost told = { λ _ _ left. absurd left };

    ghost shown = { λ _ told. never_told told };

    ghost counts_now = { λ _ _ _ _ left. left };

    ghost only_now = { λ _ _ left. left };

    ghost in_range = { λ disk. disk.in_range };

    ghost within_bound = { λ _. tt };

    ghost within_limit = { λ _. tt };

    fn length(&mut self, file: DiskFile) -> Result<u64, Failed> {
        let rt = self.rt;
        let given = match file {
            DiskFile::Settings => self.settings.length(rt, SETTINGS),
            DiskFile::Output => self.output.length(rt, OUTPUT),
            DiskFile::SlotA => self.slot_a.length(rt, SLOT_A),
            DiskFile::SlotB => self.slot_b.length(rt, SLOT_B),
        };
        counted(&mut self.faults, given)
    }

    fn read(&mut self, file: DiskFile, offset: u64, buf: &mut [u8]) -> Result<usize, Failed> {
        let rt = self.rt;
        let given = match file {
            DiskFile::Settings => self.settings.read(rt, SETTINGS, offset, buf),
            DiskFile::Output => self.output.read(rt, OUTPUT, offset, buf),
            DiskFile::SlotA => self.slot_a.read(rt, SLOT_A, offset, buf),
            DiskFile::SlotB => self.slot_b.read(rt, SLOT_B, offset, buf),
        };
        counted(&mut self.faults, given)
    }

    fn write_at(
        &mut self,
        _alloc: Global,
        file: DiskFile,
        offset: u64,
        bytes: &[u8],
    ) -> Result<(), CallFault> {
        let rt = self.rt;
        let given = match file {
            DiskFile::Settings => self.settings.write(rt, SETTINGS, offset, bytes),
            DiskFile::Output => self.output.write(rt, OUTPUT, offset, bytes),
            DiskFile::SlotA => self.slot_a.write(rt, SLOT_A, offset, bytes),
            DiskFile::SlotB => self.slot_b.write(rt, SLOT_B, offset, bytes),
        };
        counted_call(&mut self.faults, given)
    }

    fn cut(&mut self, _alloc: Global, file: DiskFile, length: u64) -> Result<(), CallFault> {
        let rt = self.rt;
        let given = match file {
            DiskFile::Settings => self.settings.cut(rt, SETTINGS, length),
            DiskFile::Output => self.output.cut(rt, OUTPUT, length),
            DiskFile::SlotA => self.slot_a.cut(rt, SLOT_A, length),
            DiskFile::SlotB => self.slot_b.cut(rt, SLOT_B, length),
        };
        counted_call(&mut self.faults, given)
    }

    fn sync(&mut self, _alloc: Global, file: DiskFile) -> Result<(), CallFault> {
        let rt = self.rt;
        let given = match file {
            DiskFile::Settings => self.settings.sync(rt, SETTINGS),
            DiskFile::Output => self.output.sync(rt, OUTPUT),
            DiskFile::SlotA => self.slot_a.sync(rt, SLOT_A),
            DiskFile::SlotB => self.slot_b.sync(rt, SLOT_B),
        };
        counted_call(&mut self.faults, given)
    }
}
