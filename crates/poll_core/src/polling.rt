// One poll: a walk, a pass over its paths, and what it changed, kept.
ghost use Rattle.std.specs.Prelude.{◌≡◌, ◌⊎◌, ℕ, ◌≤◌, ◌^◌, List, length, Contains, Err, IsTrue, IfOk, OnOk};
ghost use Rattle.checkpoint_journal.specs.Written.{IsWorn};
ghost use Rattle.file_pass.specs.DiskTerms.{KeepsDisk};
ghost use Rattle.file_pass.specs.Fed.{poll_of};
ghost use Rattle.file_pass.specs.Moment.{meanings, moment, taking_at};
ghost use Rattle.file_pass.specs.PassCause.{HasPassCause};
ghost use Rattle.file_pass.specs.Sane.{AreSaneRows};
ghost use Rattle.file_tracker.specs.Limits.{row_limit};
ghost use Rattle.outside.specs.Crash.{Passes};
ghost use Rattle.outside.specs.World.{Told};
ghost use Rattle.outside.specs.declared.disk.DiskFile.{DiskFile};
ghost use Rattle.pipeline.specs.Parts.{settings_of};
ghost use Rattle.poll_core.specs.Inner.Begun.{IsBegun};
ghost use Rattle.poll_core.specs.IsSession.{IsSession};
ghost use Rattle.poll_core.specs.LeavesTree.{LeavesTree};
ghost use Rattle.poll_core.specs.Overflows.{Overflows};
ghost use Rattle.poll_core.specs.Inner.Passed.{Passed, PassFills};
ghost use Rattle.poll_core.specs.PollCause.{HasPollCause};
ghost use Rattle.poll_core.specs.Polled.{HasToKeep, MayGain, Polled, Stays};
ghost use Rattle.poll_core.specs.SessionParts.{journal_of_session, rules_of_session, stamp_at};
ghost use Rattle.poll_core.specs.Since.{KeepsStandingSince};
ghost use Rattle.poll_core.specs.StandsOn.{StandsOn};
ghost use Rattle.settings_text.specs.Limits.{KeepsLimits};
ghost use Rattle.slot_store.specs.Counted.{DoneFewer};
ghost use Rattle.slot_store.specs.Frame.{last_number};
ghost use Rattle.slot_store.specs.OnlyRead.{KeepsTerms};
ghost use Rattle.standing.specs.AreRules.{AreRules};
ghost use Rattle.state_codec.specs.Rules.{IsShortText};

use crate::heading::Heading;
use crate::laws::settings_give_one_set_of_rules;
use crate::saving::{keep, kept_time};
use crate::session::last_text;
use crate::{PollFault, Session, Summary};
use entry_model::Text;
use file_pass::{Counts, PassFault, Setup, Taking, take_all};
use file_tracker::Tracker;
use outside::{Disk, Tree};
use pipeline::Pipeline;
use pipeline::laws::a_pipeline_is_rules;
use settings_text::laws::settings_keep_limits;
use std::alloc::{AllocError, Global};
use tree_walk::{Walk, paths};

impl Session {
    /// Looks at all files that are to be read, reads on what they have more, and puts the lines of it behind the output.
    /// Then the output is synced, and the checkpoint follows it. Where nothing changed, nothing is written.
    ///
    /// The session stands on the disk, as after [`Session::open`]. A poll that is refused gives it up; the next one is opened
    /// on the disk again. `Disk` comes only where a call on the disk failed in this poll, `OutputFull` where the output with the
    /// next line would be longer than its limit, `Worn` where something is to be kept and no sequence number is left for it.
    pub fn poll<T: Tree, D: Disk>(
        self,
        alloc: Global,
        tree: &mut T,
        disk: &mut D,
    ) -> Result<(Session, Summary), PollFault>
        requires session { IsSession self }
        requires stands { StandsOn D.meaning.images self disk.old }
        ensures session { IfOk result (λ done. IsSession done.0) }
        ensures ok { IfOk result (λ done. Polled (meanings T.meaning D.meaning) self done.0 done.1 (moment tree.old disk.old) (moment tree.new disk.new)) }
        ensures crash { Passes D.meaning.images (Stays self) disk.old disk.new ⊎ MayGain (meanings T.meaning D.meaning) self (moment tree.old disk.old) (moment tree.new disk.new) }
        ensures early { DoneFewer 4 (D.meaning.done disk.old) (D.meaning.done disk.new) → Passes D.meaning.images (Stays self) disk.old disk.new }
        ensures standing { Told (KeepsStandingSince D.meaning.images (rules_of_session self) disk.old disk.new) (T.meaning.world tree.old) (T.meaning.world tree.new) }
        ensures full { (size : ℕ) → result ≡ Err (PollFault.OutputFull size) → Told (Overflows self size) (T.meaning.world tree.old) (T.meaning.world tree.new) }
        ensures worn { (sequence : ℕ) → result ≡ Err (PollFault.Worn sequence)
            → (sequence ≡ last_number) × IsWorn (journal_of_session self) × HasToKeep T.meaning self tree.old tree.new }
        ensures tree { LeavesTree T.meaning tree.old tree.new }
        ensures cause { HasPollCause result (D.meaning.faults disk.old) (D.meaning.faults disk.new) }
        ensures terms { KeepsTerms D.meaning disk.old disk.new }
    {
        settings_give_one_set_of_rules();
        settings_keep_limits();
        a_pipeline_is_rules(&self.pipeline);
        self.poll_once(alloc, tree, disk)
    }

    fn poll_once<T: Tree, D: Disk>(
        self,
        alloc: Global,
        tree: &mut T,
        disk: &mut D,
    ) -> Result<(Session, Summary), PollFault>
        requires session { IsSession self }
        requires limits { KeepsLimits (settings_of self.pipeline) }
        requires rules { AreRules (rules_of_session self) }
        requires stands { StandsOn D.meaning.images self disk.old }
        ensures session { IfOk result (λ done. IsSession done.0) }
        ensures ok { IfOk result (λ done. Polled (meanings T.meaning D.meaning) self done.0 done.1 (moment tree.old disk.old) (moment tree.new disk.new)) }
        ensures crash { Passes D.meaning.images (Stays self) disk.old disk.new ⊎ MayGain (meanings T.meaning D.meaning) self (moment tree.old disk.old) (moment tree.new disk.new) }
        ensures early { DoneFewer 4 (D.meaning.done disk.old) (D.meaning.done disk.new) → Passes D.meaning.images (Stays self) disk.old disk.new }
        ensures full { (size : ℕ) → result ≡ Err (PollFault.OutputFull size) → Told (Overflows self size) (T.meaning.world tree.old) (T.meaning.world tree.new) }
        ensures worn { (sequence : ℕ) → result ≡ Err (PollFault.Worn sequence)
            → (sequence ≡ last_number) × IsWorn (journal_of_session self) × HasToKeep T.meaning self tree.old tree.new }
        ensures tree { LeavesTree T.meaning tree.old tree.new }
        ensures cause { HasPollCause result (D.meaning.faults disk.old) (D.meaning.faults disk.new) }
        ensures terms { KeepsTerms D.meaning disk.old disk.new }
    {
        let Session {
            pipeline,
            eras,
            limit,
            journal,
            kept,
            observed,
            time,
            tracker,
        } = self;
        let stamp = stamp_of(&pipeline, time);
        let setup = Setup {
            alloc,
            pipeline: &pipeline,
            settings: last_text(&eras),
            era: eras.as_slice().len() as u32,
            observed: stamp,
            first: journal.is_none(),
            limit: limit.max(kept),
        };
        let (walk, taking) = pass(tree, disk, &setup, tracker, kept)?;
        let summary = Summary::of(&walk, &taking);
        let heading = Heading {
            eras: &eras,
            observed: kept_time(&journal, kept, &taking, stamp, observed),
        };
        let observed = heading.observed;
        let journal = keep(alloc, disk, journal, &heading, kept, &taking)?;
        let Taking { tracker, end, .. } = taking;
        let next = Session {
            pipeline,
            eras,
            limit,
            journal,
            kept: end,
            observed,
            time,
            tracker,
        };
        Ok((next, summary))
    }
}

/// The time of lines that are made now, where they have one.
pub(crate) fn stamp_of(pipeline: &Pipeline, time: u64) -> Option<u64>
    ensures { result ≡ stamp_at (settings_of pipeline.now).include_observed_time time }
{
    if pipeline.stamps() { Some(time) } else { None }
}

// Walks the tree and takes the paths that it finds.
fn pass<T: Tree, D: Disk>(
    tree: &mut T,
    disk: &mut D,
    setup: &Setup<'_>,
    rows: Tracker,
    kept: u64,
) -> Result<(Walk, Taking), PassFault>
    requires setup { KeepsLimits (settings_of setup.now.pipeline.now) × (setup.now.limit ≤ 2 ^ 40) }
    requires era { 1 ≤ setup.now.era }
    requires rows { AreSaneRows (poll_of setup.now) kept rows }
    requires few { length rows ≤ row_limit }
    requires within { kept ≤ setup.now.limit }
    requires ends { IsTrue (D.meaning.images.tells disk.old) → length (D.meaning.images.seen disk.old DiskFile.Output) ≡ kept }
    ensures ok { IfOk result (λ found. Passed (meanings T.meaning D.meaning) setup.now found.0
        (record { rows = rows; end = kept; outside = moment tree.old disk.old }) (taking_at found.1 (moment tree.new disk.new))) }
    ensures full { (size : ℕ) → result ≡ Err (PassFault.OutputFull size) → PassFills T.meaning setup.now size
        (record { rows = rows; end = kept; outside = moment tree.old disk.old }) tree.new }
    ensures tree { LeavesTree T.meaning tree.old tree.new }
    ensures disk { KeepsDisk D.meaning kept disk.old disk.new }
    ensures cause { HasPassCause result (D.meaning.faults disk.old) (D.meaning.faults disk.new) }
{
    let globs = setup.pipeline;
    let walk = paths(setup.alloc, tree, globs.include(), globs.exclude())?;
    check_paths(&walk.paths)?;
    let mut taking = begin(setup.alloc, rows, kept)?;
    take_all(tree, disk, setup, &walk.paths, &mut taking)?;
    Ok((walk, taking))
}

// What a pass begins with.
fn begin(alloc: Global, tracker: Tracker, end: u64) -> Result<Taking, AllocError>
    ensures { IfOk result (IsBegun tracker end) }
{
    let changed = vec![in alloc; false; tracker.len()]?;
    Ok(Taking {
        tracker,
        changed,
        end,
        counts: Counts {
            files: 0,
            lines: 0,
            left: 0,
            gone: 0,
            failed: 0,
            compressed: 0,
            shrunk: 0,
            full: 0,
        },
    })
}

// A path of 2^32 bytes or more can't be kept in a row, and no memory is asked for it.
fn check_paths(paths: &[Text]) -> Result<(), AllocError>
    ensures { OnOk result ((path : List ℕ) → Contains paths.now path → IsShortText path) }
{
    for path in paths {
        if !is_short(path) {
            return Err(AllocError);
        }
    }
    Ok(())
}

fn is_short(path: &Text) -> bool
    ensures short { IsTrue result → IsShortText path.now }
    ensures long { IsShortText path.now → IsTrue result }
{
    path.as_str().len() <= u32::MAX as usize
}
