// Other settings are adopted.
ghost use Rattle.std.specs.Prelude.{◌≡◌, ◌≢◌, ◌+◌, ◌≤◌, ℕ, List, Some, false, length, IsTrue, IfOk, IfErr, OnOk};
ghost use Rattle.checkpoint_journal.specs.JournalOf.{HasCheckpoint, HasJournal};
ghost use Rattle.checkpoint_journal.specs.Short.{IsShort};
ghost use Rattle.checkpoint_journal.specs.Written.{IsWorn};
ghost use Rattle.checkpoint_store.specs.Limits.{newest, output_limit};
ghost use Rattle.checkpoint_store.specs.Rules.{IsCheckpoint};
ghost use Rattle.file_pass.specs.Full.{lines_text};
ghost use Rattle.outside.specs.Crash.{Passes};
ghost use Rattle.outside.specs.Image.{Image, Same};
ghost use Rattle.outside.specs.World.{History};
ghost use Rattle.outside.specs.declared.disk.DiskFile.{DiskFile};
ghost use Rattle.poll_core.specs.AdoptCause.{HasAdoptCause, IsOfNext, IsOfKept};
ghost use Rattle.poll_core.specs.AdoptFaults.{IsKeptRefusal, IsNextRefusal, IsUnadopted};
ghost use Rattle.poll_core.specs.Adopting.{IsAdopted, KeepsStandingIn, MayAdopt};
ghost use Rattle.poll_core.specs.Adoption.{HasPut};
ghost use Rattle.poll_core.specs.Calls.{CutsAndSyncs};
ghost use Rattle.poll_core.specs.IsSession.{IsSession};
ghost use Rattle.pipeline.specs.MadeOf.{IsMadeOf};
ghost use Rattle.poll_core.specs.Making.{IsOfFound};
ghost use Rattle.poll_core.specs.Polled.{Steps};
ghost use Rattle.poll_core.specs.Remembers.{GoesOnFrom};
ghost use Rattle.poll_core.specs.SessionParts.{is_first, kept_of, last_text, limit_of, settings_of_session};
ghost use Rattle.poll_core.specs.Settled.{IsSettled};
ghost use Rattle.poll_core.specs.StandsOn.{StandsOn};
ghost use Rattle.poll_core.specs.Unmade.{IsUnmade};
ghost use Rattle.slot_store.specs.Committed.{LeavesOne};
ghost use Rattle.slot_store.specs.OnlyRead.{KeepsTerms};
ghost use Rattle.slot_store.specs.Synced.{EachLeft};
ghost use Rattle.standing.specs.Marks.{Mark};

use crate::adoption::Adoption;
use crate::laws::settings_give_one_set_of_rules;
use crate::making::first_difference;
use crate::opening::settle;
use crate::session::last_text;
use crate::unmade::Unmade;
use crate::{AdoptFault, Adopted, Session};
use checkpoint_journal::{Journal, peek, rewrite};
use checkpoint_store::Checkpoint;
use file_pass::write_behind;
use outside::{Disk, DiskFile};
use pipeline::Pipeline;
use pipeline::laws::a_pipeline_is_rules;
use settings_text::laws::settings_keep_limits;
use settings_text::read;
use std::alloc::Global;

impl Session {
    /// Has the settings of a text follow those that the disk keeps. Of each file that is known the last part ends where it was read
    /// up to, the lines of what its operators held back are put behind the output, and the next part begins there, under the new
    /// settings. Where the settings of the text are in force already, nothing but what stands behind the journal and behind the
    /// output that is kept is cut off, as at [`Session::open`]. `limit` is the greatest length of the output in bytes.
    ///
    /// At each moment a crash leaves the checkpoint that stood and what it keeps, or the new one and the lines beside it. A refusal
    /// of the settings, and one of what stands on the disk, leaves all files as they are.
    pub fn adopt<D: Disk>(
        alloc: Global,
        disk: &mut D,
        settings: &[u8],
        limit: u64,
    ) -> Result<Adopted, AdoptFault>
        requires { limit ≤ output_limit }
        ensures adopted { IfOk result (λ adopted. EachLeft D.meaning.images disk.new (IsAdopted settings.now limit adopted (D.meaning.images.seen disk.old))) }
        ensures one { OnOk result (LeavesOne D.meaning.images disk.new) }
        ensures of_next { IfErr result (IsNextRefusal settings.now) }
        ensures before_the_disk { IfErr result (λ fault. IsOfNext fault → disk.new ≡ disk.old) }
        ensures of_kept { IfErr result (λ fault. IsTrue (D.meaning.images.tells disk.old) → IsOfKept fault
            → IsUnadopted settings.now limit (D.meaning.images.seen disk.old) fault) }
        ensures untouched { IfErr result (λ fault. IsOfKept fault → Passes D.meaning.images Same disk.old disk.new
            × (D.meaning.images.seen disk.new ≡ D.meaning.images.seen disk.old)) }
        ensures crash { Passes D.meaning.images (MayAdopt settings.now limit) disk.old disk.new }
        ensures in_force { (before : Checkpoint) → IsTrue (D.meaning.images.tells disk.old) → HasCheckpoint (Some before) (D.meaning.images.seen disk.old)
            → last_text before.eras ≡ settings.now → CutsAndSyncs 7 D.meaning disk.old disk.new }
        ensures standing { (history : History) → KeepsStandingIn D.meaning.images history disk.old disk.new }
        ensures cause { HasAdoptCause result (D.meaning.faults disk.old) (D.meaning.faults disk.new) }
        ensures terms { KeepsTerms D.meaning disk.old disk.new }
    {
        settings_give_one_set_of_rules();
        settings_keep_limits();
        let next = next_pipeline(alloc, settings)?;
        a_pipeline_is_rules(&next);
        let session = Session::kept_on(alloc, disk, limit)?;
        session.take_up(alloc, disk, &next, settings)
    }

    // The session that goes on from what the disk has, under the settings that it keeps. What a crash leaves is settled first.
    fn kept_on<D: Disk>(alloc: Global, disk: &mut D, limit: u64) -> Result<Session, AdoptFault>
        requires { limit ≤ output_limit }
        ensures session { IfOk result IsSession }
        ensures limit { IfOk result (λ session. limit_of session ≡ limit) }
        ensures stood { IfOk result (λ session. is_first session ≡ false) }
        ensures goes_on { IfOk result (λ session. IsTrue (D.meaning.images.tells disk.old)
            → GoesOnFrom session (D.meaning.images.seen disk.old)) }
        ensures settled { OnOk result (IsSettled D.meaning.images disk.new) }
        ensures late { IfErr result (λ fault. IsOfNext fault → ⊥) }
        ensures of_kept { IfErr result (λ fault. IsTrue (D.meaning.images.tells disk.old) → IsOfKept fault
            → (text : List ℕ) (most : ℕ) → IsUnadopted text most (D.meaning.images.seen disk.old) fault) }
        ensures crash { Passes D.meaning.images Same disk.old disk.new }
        ensures seen { D.meaning.images.seen disk.new ≡ D.meaning.images.seen disk.old }
        ensures cause { HasAdoptCause result (D.meaning.faults disk.old) (D.meaning.faults disk.new) }
        ensures calls { CutsAndSyncs 3 D.meaning disk.old disk.new }
    {
        let stood = stood_on(alloc, disk)?;
        Session::of_stood(alloc, limit, stood)
    }

    // The session that goes on from what was found, under the settings that are kept.
    fn of_stood(alloc: Global, limit: u64, stood: Stood) -> Result<Session, AdoptFault>
        requires limit { limit ≤ output_limit }
        requires lawful { IsCheckpoint newest stood.checkpoint }
        requires short { IsShort stood.journal }
        ensures session { IfOk result IsSession }
        ensures limit { IfOk result (λ session. limit_of session ≡ limit) }
        ensures found { IfOk result (IsOfFound (Some (stood.journal, stood.checkpoint))) }
        ensures enough { IfOk result (λ session. kept_of session ≤ stood.size) }
        ensures late { IfErr result (λ fault. IsOfNext fault → ⊥) }
        ensures of_kept { IfErr result (λ fault. IsOfKept fault → (image : Image DiskFile) → HasJournal stood.journal stood.checkpoint image
            → stood.size ≡ length (image DiskFile.Output) → (text : List ℕ) (most : ℕ) → IsUnadopted text most image fault) }
        ensures cause { (count : ℕ) → HasAdoptCause result count count }
    {
        let Stood {
            journal,
            checkpoint,
            size,
        } = stood;
        let pipeline = kept_pipeline(alloc, last_text(&checkpoint.eras))?;
        let foreign = pipeline.first_foreign(alloc, checkpoint.rows.as_slice())?;
        match foreign {
            Some(at) => return Err(AdoptFault::CheckpointBad { at }),
            None => {}
        }
        if size < checkpoint.output_length {
            return Err(AdoptFault::OutputShort {
                kept: checkpoint.output_length,
                found: size,
            });
        }
        let session = Session::of_checkpoint(alloc, pipeline, limit, journal, checkpoint)?;
        Ok(session)
    }

    // Has the settings of a text follow those of the session, which goes on from what the disk has.
    fn take_up<D: Disk>(
        &self,
        alloc: Global,
        disk: &mut D,
        next: &Pipeline,
        settings: &[u8],
    ) -> Result<Adopted, AdoptFault>
        requires session { IsSession self.now }
        requires stood { is_first self.now ≡ false }
        requires made { IsMadeOf settings.now next.now }
        requires settled { IsSettled D.meaning.images disk.old }
        requires goes_on { IsTrue (D.meaning.images.tells disk.old) → GoesOnFrom self.now (D.meaning.images.seen disk.old) }
        ensures adopted { IfOk result (λ adopted. EachLeft D.meaning.images disk.new (IsAdopted settings.now (limit_of self.now) adopted (D.meaning.images.seen disk.old))) }
        ensures one { OnOk result (LeavesOne D.meaning.images disk.new) }
        ensures late { IfErr result (λ fault. IsOfNext fault → ⊥) }
        ensures of_kept { IfErr result (λ fault. IsTrue (D.meaning.images.tells disk.old) → IsOfKept fault
            → IsUnadopted settings.now (limit_of self.now) (D.meaning.images.seen disk.old) fault) }
        ensures untouched { IfErr result (λ fault. IsOfKept fault → disk.new ≡ disk.old) }
        ensures crash { Passes D.meaning.images (MayAdopt settings.now (limit_of self.now)) disk.old disk.new }
        ensures in_force { settings_of_session self.now ≡ settings.now → CutsAndSyncs 4 D.meaning disk.old disk.new }
        ensures cause { HasAdoptCause result (D.meaning.faults disk.old) (D.meaning.faults disk.new) }
        ensures terms { KeepsTerms D.meaning disk.old disk.new }
    {
        match first_difference(last_text(&self.eras), settings) {
            None => {
                self.cut_behind(alloc, disk)?;
                Ok(self.as_it_is())
            }
            Some(_) => self.take_up_other(alloc, disk, next, settings),
        }
    }

    // Has the settings of another text follow those of the session, which goes on from what the disk has.
    fn take_up_other<D: Disk>(
        &self,
        alloc: Global,
        disk: &mut D,
        next: &Pipeline,
        settings: &[u8],
    ) -> Result<Adopted, AdoptFault>
        requires session { IsSession self.now }
        requires stood { is_first self.now ≡ false }
        requires made { IsMadeOf settings.now next.now }
        requires other { settings_of_session self.now ≢ settings.now }
        requires settled { IsSettled D.meaning.images disk.old }
        requires goes_on { IsTrue (D.meaning.images.tells disk.old) → GoesOnFrom self.now (D.meaning.images.seen disk.old) }
        ensures adopted { IfOk result (λ adopted. EachLeft D.meaning.images disk.new (IsAdopted settings.now (limit_of self.now) adopted (D.meaning.images.seen disk.old))) }
        ensures one { OnOk result (LeavesOne D.meaning.images disk.new) }
        ensures late { IfErr result (λ fault. IsOfNext fault → ⊥) }
        ensures of_kept { IfErr result (λ fault. IsTrue (D.meaning.images.tells disk.old) → IsOfKept fault
            → IsUnadopted settings.now (limit_of self.now) (D.meaning.images.seen disk.old) fault) }
        ensures untouched { IfErr result (λ fault. IsOfKept fault → disk.new ≡ disk.old) }
        ensures crash { Passes D.meaning.images (MayAdopt settings.now (limit_of self.now)) disk.old disk.new }
        ensures cause { HasAdoptCause result (D.meaning.faults disk.old) (D.meaning.faults disk.new) }
        ensures terms { KeepsTerms D.meaning disk.old disk.new }
    {
        let adoption = self.adoption(alloc, next, settings)?;
        self.cut_behind(alloc, disk)?;
        self.put_adoption(alloc, disk, &adoption)?;
        Ok(adoption.told())
    }

    // Puts the lines of an adoption behind the output, and its checkpoint beside the one that stands.
    fn put_adoption<D: Disk>(
        &self,
        alloc: Global,
        disk: &mut D,
        adoption: &Adoption,
    ) -> Result<(), AdoptFault>
        requires stood { is_first self.now ≡ false }
        requires lawful { IsCheckpoint newest adoption.now.checkpoint }
        requires not_worn { IsWorn self.now.journal → ⊥ }
        requires ends { self.now.kept + length adoption.now.lines.items ≤ output_limit }
        requires stands { StandsOn D.meaning.images self.now disk.old }
        ensures put { OnOk result (EachLeft D.meaning.images disk.new (HasPut adoption.now (D.meaning.images.seen disk.old DiskFile.Output))) }
        ensures one { OnOk result (LeavesOne D.meaning.images disk.new) }
        ensures early { IfErr result (λ fault. IsOfNext fault → ⊥) }
        ensures late { IfErr result (λ fault. IsOfKept fault → ⊥) }
        ensures crash { (added : List Mark) → adoption.now.lines.items ≡ lines_text added
            → Passes D.meaning.images (Steps self.now adoption.now.checkpoint added) disk.old disk.new }
        ensures cause { HasAdoptCause result (D.meaning.faults disk.old) (D.meaning.faults disk.new) }
        ensures terms { KeepsTerms D.meaning disk.old disk.new }
    {
        write_behind(alloc, disk, self.kept, &adoption.lines)?;
        disk.sync(alloc, DiskFile::Output)?;
        let _journal = rewrite(alloc, self.journal, disk, &adoption.checkpoint.parts())?;
        Ok(())
    }
}

// What stands on a disk: the journal that counts and its checkpoint, and the length of the output in bytes.
#[derive(Drop)]
struct Stood {
    journal: Journal,
    checkpoint: Checkpoint,
    size: u64,
}

// What stands on the disk. What a crash leaves is settled first.
fn stood_on<D: Disk>(alloc: Global, disk: &mut D) -> Result<Stood, AdoptFault>
    ensures found { IfOk result (λ stood. IsTrue (D.meaning.images.tells disk.old)
        → HasJournal stood.journal stood.checkpoint (D.meaning.images.seen disk.old)) }
    ensures size { IfOk result (λ stood. IsTrue (D.meaning.images.tells disk.old)
        → stood.size ≡ length (D.meaning.images.seen disk.old DiskFile.Output)) }
    ensures lawful { IfOk result (λ stood. IsCheckpoint newest stood.checkpoint) }
    ensures short { IfOk result (λ stood. IsShort stood.journal) }
    ensures settled { OnOk result (IsSettled D.meaning.images disk.new) }
    ensures late { IfErr result (λ fault. IsOfNext fault → ⊥) }
    ensures of_kept { IfErr result (λ fault. IsTrue (D.meaning.images.tells disk.old) → IsOfKept fault
        → (text : List ℕ) (most : ℕ) → IsUnadopted text most (D.meaning.images.seen disk.old) fault) }
    ensures crash { Passes D.meaning.images Same disk.old disk.new }
    ensures seen { D.meaning.images.seen disk.new ≡ D.meaning.images.seen disk.old }
    ensures cause { HasAdoptCause result (D.meaning.faults disk.old) (D.meaning.faults disk.new) }
    ensures calls { CutsAndSyncs 3 D.meaning disk.old disk.new }
{
    settle(alloc, disk)?;
    let found = peek(alloc, disk)?;
    match found {
        Some((journal, checkpoint)) => {
            let size = disk.length(DiskFile::Output)?;
            Ok(Stood {
                journal,
                checkpoint,
                size,
            })
        }
        None => Err(AdoptFault::NothingKept),
    }
}

// What the settings that are to be adopted ask for.
fn next_pipeline(alloc: Global, settings: &[u8]) -> Result<Pipeline, AdoptFault>
    ensures made { IfOk result (IsMadeOf settings.now) }
    ensures refusal { IfErr result (IsNextRefusal settings.now) }
    ensures early { IfErr result (λ fault. IsOfKept fault → ⊥) }
    ensures cause { (count : ℕ) → HasAdoptCause result count count }
{
    match pipeline_for(alloc, settings) {
        Ok(pipeline) => Ok(pipeline),
        Err(Unmade::Settings(fault)) => Err(AdoptFault::Settings(fault)),
        Err(Unmade::Build(fault)) => Err(AdoptFault::Build(fault)),
        Err(Unmade::Memory) => Err(AdoptFault::Memory),
    }
}

// What the settings that are kept ask for.
fn kept_pipeline(alloc: Global, settings: &[u8]) -> Result<Pipeline, AdoptFault>
    ensures made { IfOk result (IsMadeOf settings.now) }
    ensures refusal { IfErr result (IsKeptRefusal settings.now) }
    ensures cause { (count : ℕ) → HasAdoptCause result count count }
{
    match pipeline_for(alloc, settings) {
        Ok(pipeline) => Ok(pipeline),
        Err(Unmade::Settings(fault)) => Err(AdoptFault::KeptSettings(fault)),
        Err(Unmade::Build(fault)) => Err(AdoptFault::Kept(fault)),
        Err(Unmade::Memory) => Err(AdoptFault::Memory),
    }
}

// What the settings of a text ask for.
fn pipeline_for(alloc: Global, settings: &[u8]) -> Result<Pipeline, Unmade>
    ensures made { IfOk result (IsMadeOf settings.now) }
    ensures unmade { IfErr result (IsUnmade settings.now) }
{
    settings_keep_limits();
    let settings = read(alloc, settings)?;
    let pipeline = Pipeline::build(alloc, settings)?;
    Ok(pipeline)
}
