// What a pass left is kept: the output is synced, and then the checkpoint follows it.
ghost use Rattle.std.specs.Prelude.{◌≡◌, ℕ, Err, IsTrue, IfOk, IfSome, OnOk};
ghost use Rattle.checkpoint_journal.specs.Costs.{Costs};
ghost use Rattle.checkpoint_journal.specs.Memory.{KeepsMemory};
ghost use Rattle.checkpoint_journal.specs.Next.{AwaitsNext, IsNext, change_of_next};
ghost use Rattle.checkpoint_journal.specs.Short.{IsShort};
ghost use Rattle.checkpoint_journal.specs.Written.{IsWorn};
ghost use Rattle.checkpoint_store.specs.Rules.{IsCheckpoint};
ghost use Rattle.checkpoint_store.specs.Limits.{newest};
ghost use Rattle.checkpoint_store.specs.Parts.{checkpoint_of_parts};
ghost use Rattle.outside.specs.Crash.{Passes};
ghost use Rattle.outside.specs.Image.{Image};
ghost use Rattle.outside.specs.declared.disk.DiskFile.{DiskFile};
ghost use Rattle.poll_core.specs.Inner.Begun.{IsQuiet};
ghost use Rattle.poll_core.specs.Inner.Kept.{Keeps, KeepsTime, to_keep};
ghost use Rattle.poll_core.specs.PollCause.{HasPollCause};
ghost use Rattle.poll_core.specs.Saves.{DifferInOutput, IsSavedIn, Saves};
ghost use Rattle.poll_core.specs.Taken.{keeping_of, taken_change, taken_checkpoint};
ghost use Rattle.slot_store.specs.Committed.{LeavesOne};
ghost use Rattle.slot_store.specs.Counted.{DoneFewer};
ghost use Rattle.slot_store.specs.Frame.{last_number};
ghost use Rattle.slot_store.specs.OnlyRead.{KeepsTerms};
ghost use Rattle.slot_store.specs.Synced.{EachLeft};

use crate::PollFault;
use crate::heading::Heading;
use checkpoint_journal::{Journal, Next, put};
use checkpoint_store::{CheckpointParts, Eras};
use file_pass::Taking;
use file_tracker::Bytes;
use outside::{Disk, DiskFile};
use std::alloc::{AllocError, Global};

/// Keeps what was taken: where something changed, or no checkpoint stood, the output is synced and the checkpoint
/// written. Answers the journal that stands then.
pub(crate) fn keep<D: Disk>(
    alloc: Global,
    disk: &mut D,
    journal: Option<Journal>,
    heading: &Heading<'_>,
    kept: u64,
    taking: &Taking,
) -> Result<Option<Journal>, PollFault>
    requires lawful { IsCheckpoint newest (taken_checkpoint heading.now taking.now) }
    requires short { IfSome journal IsShort }
    requires awaits { EachLeft D.meaning.images disk.old (AwaitsNext journal (taken_checkpoint heading.now taking.now) (taken_change heading.now taking.now)) }
    requires slots { (one other : Image DiskFile) → D.meaning.images.may_leave disk.old one → D.meaning.images.may_leave disk.old other → DifferInOutput one other }
    ensures kept { IfOk result (λ after. Keeps D.meaning.images (to_keep journal kept taking.now (keeping_of heading.now taking.now)) after disk.old disk.new) }
    ensures crash { Passes D.meaning.images (Saves journal (taken_checkpoint heading.now taking.now) (D.meaning.images.seen disk.old DiskFile.Output)) disk.old disk.new }
    ensures early { DoneFewer 4 (D.meaning.done disk.old) (D.meaning.done disk.new) → Passes D.meaning.images (KeepsMemory journal) disk.old disk.new }
    ensures worn { (sequence : ℕ) → result ≡ Err (PollFault.Worn sequence)
        → (sequence ≡ last_number) × IsWorn journal × (IsQuiet journal kept taking.now → ⊥) }
    ensures not_full { (size : ℕ) → result ≡ Err (PollFault.OutputFull size) → ⊥ }
    ensures costs { Costs journal (taken_checkpoint heading.now taking.now) (taken_change heading.now taking.now).rows (D.meaning.written disk.old) (D.meaning.written disk.new) }
    ensures cause { HasPollCause result (D.meaning.faults disk.old) (D.meaning.faults disk.new) }
    ensures terms { KeepsTerms D.meaning disk.old disk.new }
{
    if is_quiet(&journal, kept, taking) {
        return Ok(journal);
    }
    let next = save(alloc, disk, journal, heading, taking)?;
    Ok(Some(next))
}

// Whether a checkpoint stands and nothing of it changed.
fn is_quiet(journal: &Option<Journal>, kept: u64, taking: &Taking) -> bool
    ensures quiet { IsTrue result → IsQuiet journal.now kept taking.now }
    ensures loud { IsQuiet journal.now kept taking.now → IsTrue result }
{
    journal.is_some() && taking.end == kept && !taking.changed.iter().any(|changed| *changed)
}

/// The greatest time that is kept once this was taken: the poll's, where something is to be kept, and else as before.
pub(crate) fn kept_time(
    journal: &Option<Journal>,
    kept: u64,
    taking: &Taking,
    stamp: Option<u64>,
    observed: u64,
) -> u64
    ensures { KeepsTime journal.now kept taking.now stamp observed result }
{
    if is_quiet(journal, kept, taking) {
        observed
    } else {
        stamp.unwrap_or(observed)
    }
}

// Syncs the output, and then puts the checkpoint of what was taken.
fn save<D: Disk>(
    alloc: Global,
    disk: &mut D,
    journal: Option<Journal>,
    heading: &Heading<'_>,
    taking: &Taking,
) -> Result<Journal, PollFault>
    requires lawful { IsCheckpoint newest (taken_checkpoint heading.now taking.now) }
    requires short { IfSome journal IsShort }
    requires awaits { EachLeft D.meaning.images disk.old (AwaitsNext journal (taken_checkpoint heading.now taking.now) (taken_change heading.now taking.now)) }
    requires slots { (one other : Image DiskFile) → D.meaning.images.may_leave disk.old one → D.meaning.images.may_leave disk.old other → DifferInOutput one other }
    ensures saved { IfOk result (λ next. EachLeft D.meaning.images disk.new (IsSavedIn next (taken_checkpoint heading.now taking.now) (D.meaning.images.seen disk.old DiskFile.Output))) }
    ensures one { OnOk result (LeavesOne D.meaning.images disk.new) }
    ensures next { IfOk result (IsNext journal (taken_checkpoint heading.now taking.now) (taken_change heading.now taking.now)) }
    ensures not_worn { OnOk result (IsWorn journal → ⊥) }
    ensures crash { Passes D.meaning.images (Saves journal (taken_checkpoint heading.now taking.now) (D.meaning.images.seen disk.old DiskFile.Output)) disk.old disk.new }
    ensures early { DoneFewer 4 (D.meaning.done disk.old) (D.meaning.done disk.new) → Passes D.meaning.images (KeepsMemory journal) disk.old disk.new }
    ensures worn { (sequence : ℕ) → result ≡ Err (PollFault.Worn sequence) → (sequence ≡ last_number) × IsWorn journal }
    ensures not_full { (size : ℕ) → result ≡ Err (PollFault.OutputFull size) → ⊥ }
    ensures costs { Costs journal (taken_checkpoint heading.now taking.now) (taken_change heading.now taking.now).rows (D.meaning.written disk.old) (D.meaning.written disk.new) }
    ensures cause { HasPollCause result (D.meaning.faults disk.old) (D.meaning.faults disk.new) }
    ensures terms { KeepsTerms D.meaning disk.old disk.new }
{
    disk.sync(alloc, DiskFile::Output)?;
    let next = next_of(heading, taking);
    let journal = put(alloc, disk, journal, &next)?;
    Ok(journal)
}

// What was taken, as the next checkpoint and what of it is new or differs.
fn next_of<'c>(heading: &Heading<'c>, taking: &'c Taking) -> Next<'c>
    ensures checkpoint { checkpoint_of_parts result.checkpoint ≡ taken_checkpoint heading.now taking.now }
    ensures change { change_of_next result ≡ taken_change heading.now taking.now }
{
    Next {
        checkpoint: CheckpointParts {
            eras: heading.eras,
            output_length: taking.end,
            observed: heading.observed,
            next_id: taking.tracker.len() as u32 + 1,
            rows: taking.tracker.as_slice(),
        },
        changed: taking.changed.as_slice(),
    }
}

/// The same texts.
pub(crate) fn copy_eras(alloc: Global, eras: &Eras) -> Result<Eras, AllocError>
    ensures { IfOk result (λ copy. copy ≡ eras.now) }
{
    let mut texts = Vec::new(alloc);
    for text in eras.as_slice() {
        texts.push(Bytes::from_slice(alloc, text.as_slice())?)?;
    }
    Ok(Eras::new(texts))
}
