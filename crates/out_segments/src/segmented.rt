// The agent's files, with the output in Parts.
ghost use Rattle.std.specs.Prelude.{◌≡◌, ◌≤◌, ◌+◌, ◌/◌, min, ℕ, length, None, IsTrue, OnOk, IfOk, IfSome, IfNone};
ghost use Rattle.outside.specs.Count.{HasCause, HasOneCause};
ghost use Rattle.outside.specs.Content.{Gives};
ghost use Rattle.outside.specs.Image.{AtFile, Torn, Holds, MayCut, IsCut, IsWithin, Same};
ghost use Rattle.outside.specs.Crash.{Passes, IsDurable};
ghost use Rattle.std.proofs.Props.{props};
ghost use Rattle.out_segments.specs.Inner.AtOutput.{EmptiesBehind, KeepsLengths};
ghost use Rattle.out_segments.specs.Joined.{IsPartSize, whole_file};
ghost use Rattle.out_segments.specs.Inner.Settled.{AreSettled};

use crate::cutting::cut_output;
use crate::ending::output_length;
use crate::parts::{PartFile, Parts};
use crate::reading::read_output;
use crate::syncing::sync_output;
use crate::writing::write_output;
use outside::{CallFault, Disk, DiskFile, Failed};
use std::alloc::Global;

/// The agent's own files over Parts, among them the output as one file.
#[derive(Drop)]
pub struct Segmented<P: Parts> {
    parts: P,
    // How many bytes a full Part has.
    size: u64,
    // The Parts before this one are known to be full, and synced.
    settled: u32,
    ghost sized: { IsPartSize size },
    ghost known: { AreSettled P.meaning.images size settled parts } by { Prim.hlevel props },
}

impl<P: Parts> Segmented<P> {
    ghost use Rattle.out_segments.specs.SegmentedMeaning.{parts_of, size_of};

    /// The files with the output in Parts of so many bytes. What the Parts hold is its output so far.
    pub fn new(parts: P, size: u64) -> Segmented<P>
        requires { IsPartSize size }
        ensures parts { parts_of result ≡ parts }
        ensures size { size_of result ≡ size }
    {
        Segmented {
            parts,
            size,
            settled: 0,
        }
    }

    /// The Parts back.
    pub fn into_parts(self) -> P
        ensures { result ≡ parts_of self }
    {
        self.parts
    }
}

// The file that stands for one of the agent's own, which isn't the output.
fn whole_file(file: DiskFile) -> Option<PartFile>
    ensures { result ≡ whole_file file }
{
    match file {
        DiskFile::Settings => Some(PartFile::Settings),
        DiskFile::Output => None,
        DiskFile::SlotA => Some(PartFile::SlotA),
        DiskFile::SlotB => Some(PartFile::SlotB),
    }
}

// How many Parts stay settled under a change from this place on.
fn settled_before(settled: u32, size: u64, offset: u64) -> u32
    requires { IsPartSize size }
    ensures { result ≡ min settled (offset / size) }
{
    (offset / size).min(settled as u64) as u32
}

impl<P: Parts> Disk for Segmented<P> {
    ghost use Rattle.out_segments.specs.SegmentedMeaning.{segmented_meaning, parts_of, size_of};
    ghost use Rattle.outside.specs.DiskCalls.{last_end, done_after, written_after};
    ghost use Rattle.out_segments.specs.Inner.SegmentedLaws.{told_joined, shown_joined, now_joined, only_joined};

    ghost meaning = { segmented_meaning P.meaning };

    ghost told = { told_joined P.meaning P.told };

    ghost shown = { shown_joined P.meaning P.shown };

    ghost counts_now = { now_joined P.meaning P.counts_now };

    ghost only_now = { only_joined P.meaning P.only_now };

    ghost in_range = { λ disk. P.in_range disk.parts };

    ghost within_bound = { λ disk. P.within_bound disk.parts };

    ghost within_limit = { λ _. tt };

    fn length(&mut self, file: DiskFile) -> Result<u64, Failed>
        ensures length { IfOk result (λ size. IsTrue ((segmented_meaning P.meaning).images.tells self.old) → size ≡ length ((segmented_meaning P.meaning).images.seen self.old file)) }
        ensures seen { (segmented_meaning P.meaning).images.seen self.new ≡ (segmented_meaning P.meaning).images.seen self.old }
        ensures tells { (segmented_meaning P.meaning).images.tells self.new ≡ (segmented_meaning P.meaning).images.tells self.old }
        ensures crash { Passes (segmented_meaning P.meaning).images Same self.old self.new }
        ensures cause { HasOneCause result ((segmented_meaning P.meaning).faults self.old) ((segmented_meaning P.meaning).faults self.new) }
        ensures bound { (segmented_meaning P.meaning).bound self.new ≡ (segmented_meaning P.meaning).bound self.old }
        ensures done { (segmented_meaning P.meaning).done self.new ≡ (segmented_meaning P.meaning).done self.old }
        ensures limit { (segmented_meaning P.meaning).limit self.new ≡ (segmented_meaning P.meaning).limit self.old }
        ensures counted { (segmented_meaning P.meaning).written self.new ≡ (segmented_meaning P.meaning).written self.old }

        // No Part becomes longer than a full one.
        ensures size { size_of self.new ≡ size_of self.old }
        ensures lengths { Passes P.meaning.images (KeepsLengths (size_of self.old)) (parts_of self.old) (parts_of self.new) }
    {
        match whole_file(file) {
            None => output_length(&mut self.parts, self.size, self.settled),
            Some(file) => self.parts.length(file),
        }
    }

    fn read(&mut self, file: DiskFile, offset: u64, buf: &mut [u8]) -> Result<usize, Failed>
        ensures within { IfOk result (λ count. count ≤ length buf.new) }
        ensures bytes { IfOk result (λ count. IsTrue ((segmented_meaning P.meaning).images.tells self.old) → Gives ((segmented_meaning P.meaning).images.seen self.old file) offset buf.new count) }
        ensures seen { (segmented_meaning P.meaning).images.seen self.new ≡ (segmented_meaning P.meaning).images.seen self.old }
        ensures tells { (segmented_meaning P.meaning).images.tells self.new ≡ (segmented_meaning P.meaning).images.tells self.old }
        ensures crash { Passes (segmented_meaning P.meaning).images Same self.old self.new }
        ensures cause { HasOneCause result ((segmented_meaning P.meaning).faults self.old) ((segmented_meaning P.meaning).faults self.new) }
        ensures bound { (segmented_meaning P.meaning).bound self.new ≡ (segmented_meaning P.meaning).bound self.old }
        ensures done { (segmented_meaning P.meaning).done self.new ≡ (segmented_meaning P.meaning).done self.old }
        ensures limit { (segmented_meaning P.meaning).limit self.new ≡ (segmented_meaning P.meaning).limit self.old }
        ensures counted { (segmented_meaning P.meaning).written self.new ≡ (segmented_meaning P.meaning).written self.old }

        // No Part becomes longer than a full one.
        ensures size { size_of self.new ≡ size_of self.old }
        ensures lengths { Passes P.meaning.images (KeepsLengths (size_of self.old)) (parts_of self.old) (parts_of self.new) }
    {
        match whole_file(file) {
            None => read_output(&mut self.parts, self.size, self.settled, offset, buf),
            Some(file) => self.parts.read(file, offset, buf),
        }
    }

    fn write_at(
        &mut self,
        alloc: Global,
        file: DiskFile,
        offset: u64,
        bytes: &[u8],
    ) -> Result<(), CallFault>
        requires begins { IsTrue ((segmented_meaning P.meaning).images.tells self.old) → offset ≤ length ((segmented_meaning P.meaning).images.seen self.old file) }
        requires ends { offset + length bytes.now ≤ last_end file }
        ensures written { OnOk result (IsTrue ((segmented_meaning P.meaning).images.tells self.old)
            → AtFile file (Holds offset bytes.now) ((segmented_meaning P.meaning).images.seen self.old) ((segmented_meaning P.meaning).images.seen self.new)) }
        ensures begun { IsTrue ((segmented_meaning P.meaning).images.tells self.old)
            → AtFile file (Torn offset (length bytes.now)) ((segmented_meaning P.meaning).images.seen self.old) ((segmented_meaning P.meaning).images.seen self.new) }
        ensures tells { (segmented_meaning P.meaning).images.tells self.new ≡ (segmented_meaning P.meaning).images.tells self.old }
        ensures crash { Passes (segmented_meaning P.meaning).images (AtFile file (Torn offset (length bytes.now))) self.old self.new }
        ensures cause { HasCause result ((segmented_meaning P.meaning).faults self.old) ((segmented_meaning P.meaning).faults self.new) }
        ensures bound { (segmented_meaning P.meaning).bound self.new ≡ (segmented_meaning P.meaning).bound self.old }
        ensures done { (segmented_meaning P.meaning).done self.new ≡ done_after result ((segmented_meaning P.meaning).done self.old) }
        ensures limit { (segmented_meaning P.meaning).limit self.new ≡ (segmented_meaning P.meaning).limit self.old }
        ensures counted { (segmented_meaning P.meaning).written self.new ≡ written_after file (length bytes.now) ((segmented_meaning P.meaning).written self.old) }

        // No Part becomes longer than a full one.
        ensures size { size_of self.new ≡ size_of self.old }
        ensures lengths { Passes P.meaning.images (KeepsLengths (size_of self.old)) (parts_of self.old) (parts_of self.new) }
    {
        match whole_file(file) {
            None => {
                self.settled = settled_before(self.settled, self.size, offset);
                write_output(alloc, &mut self.parts, self.size, offset, bytes)
            }
            Some(file) => self.parts.write_at(alloc, file, offset, bytes),
        }
    }

    fn cut(&mut self, alloc: Global, file: DiskFile, length: u64) -> Result<(), CallFault>
        requires { IsTrue ((segmented_meaning P.meaning).images.tells self.old) → IsWithin length ((segmented_meaning P.meaning).images.seen self.old file) }
        ensures cut { OnOk result (IsTrue ((segmented_meaning P.meaning).images.tells self.old)
            → AtFile file (IsCut length) ((segmented_meaning P.meaning).images.seen self.old) ((segmented_meaning P.meaning).images.seen self.new)) }
        ensures begun { IsTrue ((segmented_meaning P.meaning).images.tells self.old) → AtFile file (MayCut length) ((segmented_meaning P.meaning).images.seen self.old) ((segmented_meaning P.meaning).images.seen self.new) }
        ensures tells { (segmented_meaning P.meaning).images.tells self.new ≡ (segmented_meaning P.meaning).images.tells self.old }
        ensures crash { Passes (segmented_meaning P.meaning).images (AtFile file (MayCut length)) self.old self.new }
        ensures cause { HasCause result ((segmented_meaning P.meaning).faults self.old) ((segmented_meaning P.meaning).faults self.new) }
        ensures bound { (segmented_meaning P.meaning).bound self.new ≡ (segmented_meaning P.meaning).bound self.old }
        ensures done { (segmented_meaning P.meaning).done self.new ≡ done_after result ((segmented_meaning P.meaning).done self.old) }
        ensures limit { (segmented_meaning P.meaning).limit self.new ≡ (segmented_meaning P.meaning).limit self.old }
        ensures counted { (segmented_meaning P.meaning).written self.new ≡ (segmented_meaning P.meaning).written self.old }

        // No Part becomes longer than a full one.
        ensures size { size_of self.new ≡ size_of self.old }
        ensures lengths { Passes P.meaning.images (KeepsLengths (size_of self.old)) (parts_of self.old) (parts_of self.new) }
        ensures emptied { OnOk result (whole_file file ≡ None → IsTrue (P.meaning.images.tells (parts_of self.old))
            → EmptiesBehind (length / size_of self.old) (P.meaning.images.seen (parts_of self.old)) (P.meaning.images.seen (parts_of self.new))) }
    {
        match whole_file(file) {
            None => {
                self.settled = settled_before(self.settled, self.size, length);
                cut_output(alloc, &mut self.parts, self.size, length)
            }
            Some(file) => self.parts.cut(alloc, file, length),
        }
    }

    fn sync(&mut self, alloc: Global, file: DiskFile) -> Result<(), CallFault>
        ensures durable { OnOk result (IsDurable (segmented_meaning P.meaning).images file self.new) }
        ensures seen { (segmented_meaning P.meaning).images.seen self.new ≡ (segmented_meaning P.meaning).images.seen self.old }
        ensures tells { (segmented_meaning P.meaning).images.tells self.new ≡ (segmented_meaning P.meaning).images.tells self.old }
        ensures crash { Passes (segmented_meaning P.meaning).images Same self.old self.new }
        ensures cause { HasCause result ((segmented_meaning P.meaning).faults self.old) ((segmented_meaning P.meaning).faults self.new) }
        ensures bound { (segmented_meaning P.meaning).bound self.new ≡ (segmented_meaning P.meaning).bound self.old }
        ensures done { (segmented_meaning P.meaning).done self.new ≡ done_after result ((segmented_meaning P.meaning).done self.old) }
        ensures limit { (segmented_meaning P.meaning).limit self.new ≡ (segmented_meaning P.meaning).limit self.old }
        ensures counted { (segmented_meaning P.meaning).written self.new ≡ (segmented_meaning P.meaning).written self.old }

        // No Part becomes longer than a full one.
        ensures size { size_of self.new ≡ size_of self.old }
        ensures lengths { Passes P.meaning.images (KeepsLengths (size_of self.old)) (parts_of self.old) (parts_of self.new) }
    {
        match whole_file(file) {
            None => {
                self.settled = sync_output(alloc, &mut self.parts, self.size, self.settled)?;
                Ok(())
            }
            Some(file) => self.parts.sync(alloc, file),
        }
    }
}
