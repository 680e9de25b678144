// Sessions of what a disk has.
ghost use Rattle.std.specs.Prelude.{◌≡◌, ℕ, ◌≤◌, IsTrue, IfOk, IfErr, OnOk};
ghost use Rattle.checkpoint_store.specs.Limits.{output_limit};
ghost use Rattle.outside.specs.Count.{HasCause};
ghost use Rattle.outside.specs.Crash.{Passes, IsDurable};
ghost use Rattle.outside.specs.Image.{Same};
ghost use Rattle.poll_core.specs.Calls.{CutsAndSyncs};
ghost use Rattle.poll_core.specs.IsSession.{IsSession};
ghost use Rattle.pipeline.specs.MadeOf.{IsMadeOf};
ghost use Rattle.poll_core.specs.OpenCause.{HasOpenCause, IsOfSettings, IsOfContents};
ghost use Rattle.poll_core.specs.OpenFaults.{IsSettingsRefusal, IsRefused};
ghost use Rattle.poll_core.specs.Remembers.{GoesOnFrom};
ghost use Rattle.poll_core.specs.Reopens.{Reopens};
ghost use Rattle.poll_core.specs.SessionParts.{checkpoint_of_session, settings_of_session, time_of_session};
ghost use Rattle.poll_core.specs.Settled.{IsSettled};
ghost use Rattle.poll_core.specs.StandsOn.{StandsOn};

use crate::{OpenFault, Session};
use checkpoint_journal::peek;
use outside::{CallFault, Disk, DiskFile};
use pipeline::Pipeline;
use settings_text::laws::settings_keep_limits;
use settings_text::read;
use std::alloc::Global;

impl Session {
    /// The session of these settings that goes on from what the disk has. `limit` is the greatest length of the output.
    ///
    /// The settings are read and what they ask for is made before any call on the disk. Both slots and the output are
    /// synced before a slot is chosen, so that nothing which an earlier run left unsynced can come back. A refusal of what
    /// stands on the disk leaves all files as they are. Then what stands behind the journal is cut off, and what stands
    /// behind the output that is kept.
    pub fn open<D: Disk>(
        alloc: Global,
        disk: &mut D,
        settings: &[u8],
        limit: u64,
    ) -> Result<Session, OpenFault>
        requires { limit ≤ output_limit }
        ensures session { IfOk result IsSession }
        ensures settings { IfOk result (λ session. settings_of_session session ≡ settings.now) }
        ensures limit { IfOk result (λ session. session.limit ≡ limit) }
        ensures time { IfOk result (λ session. time_of_session session ≡ (checkpoint_of_session session).observed) }
        ensures goes_on { IfOk result (λ session. IsTrue (D.meaning.images.tells disk.old)
            → GoesOnFrom session (D.meaning.images.seen disk.old)) }
        ensures stands { IfOk result (λ session. StandsOn D.meaning.images session disk.new) }

        ensures of_settings { IfErr result (IsSettingsRefusal settings.now) }
        ensures of_contents { IfErr result (λ fault. IsTrue (D.meaning.images.tells disk.old) → IsOfContents fault
            → IsRefused settings.now (D.meaning.images.seen disk.old) fault) }
        ensures before_the_disk { IfErr result (λ fault. IsOfSettings fault → disk.new ≡ disk.old) }
        ensures untouched { IfErr result (λ fault. IsOfContents fault → Passes D.meaning.images Same disk.old disk.new
            × (D.meaning.images.seen disk.new ≡ D.meaning.images.seen disk.old)) }

        ensures crash { Passes D.meaning.images Reopens disk.old disk.new }
        ensures seen { IsTrue (D.meaning.images.tells disk.old)
            → Reopens (D.meaning.images.seen disk.old) (D.meaning.images.seen disk.new) }
        ensures cause { HasOpenCause result (D.meaning.faults disk.old) (D.meaning.faults disk.new) }
        ensures calls { CutsAndSyncs 7 D.meaning disk.old disk.new }
    {
        let pipeline = pipeline_of(alloc, settings)?;
        let session = Session::found_on(alloc, disk, pipeline, settings, limit)?;
        session.cut_behind(alloc, disk)?;
        Ok(session)
    }

    // The session that goes on from what the disk has. What a crash leaves is settled first.
    fn found_on<D: Disk>(
        alloc: Global,
        disk: &mut D,
        pipeline: Pipeline,
        settings: &[u8],
        limit: u64,
    ) -> Result<Session, OpenFault>
        requires made { IsMadeOf settings.now pipeline }
        requires limit { limit ≤ output_limit }
        ensures session { IfOk result IsSession }
        ensures settings { IfOk result (λ session. settings_of_session session ≡ settings.now) }
        ensures limit { IfOk result (λ session. session.limit ≡ limit) }
        ensures time { IfOk result (λ session. time_of_session session ≡ (checkpoint_of_session session).observed) }
        ensures goes_on { IfOk result (λ session. IsTrue (D.meaning.images.tells disk.old)
            → GoesOnFrom session (D.meaning.images.seen disk.old)) }
        ensures settled { OnOk result (IsSettled D.meaning.images disk.new) }
        ensures late { IfErr result (λ fault. IsOfSettings fault → ⊥) }
        ensures of_contents { IfErr result (λ fault. IsTrue (D.meaning.images.tells disk.old) → IsOfContents fault
            → IsRefused settings.now (D.meaning.images.seen disk.old) fault) }
        ensures crash { Passes D.meaning.images Same disk.old disk.new }
        ensures seen { D.meaning.images.seen disk.new ≡ D.meaning.images.seen disk.old }
        ensures cause { HasOpenCause result (D.meaning.faults disk.old) (D.meaning.faults disk.new) }
        ensures calls { CutsAndSyncs 3 D.meaning disk.old disk.new }
    {
        settle(alloc, disk)?;
        let found = peek(alloc, disk)?;
        let session = Session::of_found(alloc, pipeline, settings, limit, found)?;
        let size = disk.length(DiskFile::Output)?;
        if size < session.kept {
            return Err(OpenFault::OutputShort {
                kept: session.kept,
                found: size,
            });
        }
        Ok(session)
    }
}

/// What the settings of a text ask for, or the one refusal of them with which [`Session::open`] begins.
pub fn pipeline_of(alloc: Global, settings: &[u8]) -> Result<Pipeline, OpenFault>
    ensures made { IfOk result (IsMadeOf settings.now) }
    ensures refusal { IfErr result (IsSettingsRefusal settings.now) }
    ensures early { IfErr result (λ fault. IsOfContents fault → ⊥) }
    ensures cause { (count : ℕ) → HasOpenCause result count count }
{
    settings_keep_limits();
    let settings = read(alloc, settings)?;
    let pipeline = Pipeline::build(alloc, settings)?;
    Ok(pipeline)
}

/// Syncs all files that the agent writes.
pub(crate) fn settle<D: Disk>(alloc: Global, disk: &mut D) -> Result<(), CallFault>
    ensures settled { OnOk result (IsSettled D.meaning.images disk.new) }
    ensures crash { Passes D.meaning.images Same disk.old disk.new }
    ensures seen { D.meaning.images.seen disk.new ≡ D.meaning.images.seen disk.old }
    ensures cause { HasCause result (D.meaning.faults disk.old) (D.meaning.faults disk.new) }
    ensures calls { CutsAndSyncs 3 D.meaning disk.old disk.new }
{
    sync(alloc, disk, DiskFile::SlotA)?;
    sync(alloc, disk, DiskFile::SlotB)?;
    sync(alloc, disk, DiskFile::Output)?;
    Ok(())
}

// Syncs one file.
fn sync<D: Disk>(alloc: Global, disk: &mut D, file: DiskFile) -> Result<(), CallFault>
    ensures durable { OnOk result (IsDurable D.meaning.images file disk.new) }
    ensures crash { Passes D.meaning.images Same disk.old disk.new }
    ensures seen { D.meaning.images.seen disk.new ≡ D.meaning.images.seen disk.old }
    ensures cause { HasCause result (D.meaning.faults disk.old) (D.meaning.faults disk.new) }
    ensures calls { CutsAndSyncs 1 D.meaning disk.old disk.new }
{
    disk.sync(alloc, file)?;
    Ok(())
}
