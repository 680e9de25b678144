// The output in Parts, of which it is known how long they were since some moment.
ghost use Rattle.std.specs.Prelude.{◌≡◌};
ghost use Rattle.outside.specs.Image.{Image};
ghost use Rattle.out_segments.specs.declared.parts.PartFile.{PartFile};
ghost use Rattle.out_segments.specs.Kept.{KeptSince};
ghost use Rattle.out_segments.specs.SegmentedMeaning.{parts_of, size_of};
ghost use Rattle.out_segments.specs.Segments.{segments};

use crate::parts::Parts;
use crate::segmented::Segmented;
use outside::{CallFault, Disk, DiskFile, Failed};
use std::alloc::Global;
use std::marker::{Brand, Model, PhantomData};

/// A moment that is remembered of Parts: what a crash could leave of them then, and how many bytes a full one has.
/// Whoever passes `Brand` picks one in its proofs.
pub trait Since {
    ghost use Rattle.std.specs.Prelude.{ℕ};

    ghost could_leave: { Image PartFile → Type 0 };

    ghost moment: { ℕ };

    ghost size: { ℕ };
}

impl Since for Brand {
    ghost could_leave = { λ _. Unit {0} };

    ghost moment = { 0 };

    ghost size = { 0 };
}

/// The agent's own files over Parts. Contracts see the Parts, and how many bytes a full one has.
///
/// Since the moment that `S` remembers no Part was made longer than a full one, in any image that a crash might have left.
#[derive(Drop)]
pub struct SegmentedSince<P: Parts, S: Since> {
    disk: Segmented<P>,
    since: PhantomData<S>,
}

impl<P: Parts, S: Since> Model for SegmentedSince<P, S> {
    ghost use Rattle.out_segments.specs.Kept.{IsSince};
    ghost use Rattle.out_segments.specs.SegmentedMeaning.{parts_of, size_of};
    ghost use Rattle.out_segments.specs.Segments.{Segments, segments};

    ghost Value = { Segments P };

    ghost view = { λ files. segments (parts_of files.disk) (size_of files.disk) };

    ghost invariant = { λ files. IsSince P.meaning.images S.could_leave S.moment S.size (size_of files.disk) (parts_of files.disk) };
}

impl<P: Parts, S: Since> SegmentedSince<P, S> {
    /// The files, at the moment that is remembered.
    pub fn new(disk: Segmented<P>) -> SegmentedSince<P, S>
        requires size { size_of disk ≡ S.size }
        requires moment { S.moment ≡ P.meaning.images.moment (parts_of disk) }
        requires could_leave { (image : Image PartFile) → P.meaning.images.may_leave (parts_of disk) image → S.could_leave image }
        ensures { result ≡ segments (parts_of disk) (size_of disk) }
    {
        SegmentedSince {
            disk,
            since: PhantomData,
        }
    }

    /// The Parts back.
    pub fn into_parts(self) -> P
        ensures parts { segments result S.size ≡ self }
        ensures kept { KeptSince P.meaning.images S.could_leave S.moment S.size result }
    {
        self.disk.into_parts()
    }
}

impl<P: Parts, S: Since> Disk for SegmentedSince<P, S> {
    ghost use Rattle.out_segments.specs.Segments.{segments_meaning, told_segments, shown_segments, now_segments, only_segments};

    ghost meaning = { segments_meaning P.meaning };

    ghost told = { told_segments P.meaning P.told };

    ghost shown = { shown_segments P.meaning P.shown };

    ghost counts_now = { now_segments P.meaning P.counts_now };

    ghost only_now = { only_segments P.meaning P.only_now };

    ghost in_range = { λ files. P.in_range files.parts };

    ghost within_bound = { λ files. P.within_bound files.parts };

    ghost within_limit = { λ _. tt };

    fn length(&mut self, file: DiskFile) -> Result<u64, Failed> {
        self.disk.length(file)
    }

    fn read(&mut self, file: DiskFile, offset: u64, buf: &mut [u8]) -> Result<usize, Failed> {
        self.disk.read(file, offset, buf)
    }

    fn write_at(
        &mut self,
        alloc: Global,
        file: DiskFile,
        offset: u64,
        bytes: &[u8],
    ) -> Result<(), CallFault> {
        self.disk.write_at(alloc, file, offset, bytes)
    }

    fn cut(&mut self, alloc: Global, file: DiskFile, length: u64) -> Result<(), CallFault> {
        self.disk.cut(alloc, file, length)
    }

    fn sync(&mut self, alloc: Global, file: DiskFile) -> Result<(), CallFault> {
        self.disk.sync(alloc, file)
    }
}
