// A session of a checkpoint that was found.
ghost use Rattle.std.specs.Prelude.{◌≡◌, ◌≤◌, [], ◌∷◌, Some, IfOk, IfErr, IfSome, IfNone, OnOk};
ghost use Rattle.checkpoint_journal.specs.Short.{IsShort};
ghost use Rattle.checkpoint_store.specs.Rules.{IsCheckpoint};
ghost use Rattle.checkpoint_store.specs.Limits.{newest, output_limit};
ghost use Rattle.pipeline.specs.AsRules.{rules_of};
ghost use Rattle.poll_core.specs.Differs.{DiffersAt};
ghost use Rattle.poll_core.specs.IsSession.{IsSession};
ghost use Rattle.pipeline.specs.MadeOf.{IsMadeOf};
ghost use Rattle.poll_core.specs.Making.{IsOfFound, IsUnfit, IsRejected};
ghost use Rattle.poll_core.specs.SessionParts.{checkpoint_of_session, last_text, settings_of_session, time_of_session};
ghost use Rattle.standing.specs.Rows.{KeepStates};

use crate::session::last_text;
use crate::{OpenFault, Session};
use checkpoint_journal::Journal;
use checkpoint_store::{Checkpoint, Eras};
use file_tracker::{Bytes, Tracker};
use pipeline::Pipeline;
use std::alloc::{AllocError, Global};

impl Session {
    /// The session that goes on from a journal and its checkpoint, or from nothing.
    pub(crate) fn of_found(
        alloc: Global,
        pipeline: Pipeline,
        settings: &[u8],
        limit: u64,
        found: Option<(Journal, Checkpoint)>,
    ) -> Result<Session, OpenFault>
        requires made { IsMadeOf settings.now pipeline }
        requires limit { limit ≤ output_limit }
        requires lawful { IfSome found (λ found. IsCheckpoint newest found.1) }
        requires short { IfSome found (λ found. IsShort found.0) }
        ensures session { IfOk result IsSession }
        ensures settings { IfOk result (λ session. settings_of_session session ≡ settings.now) }
        ensures limit { IfOk result (λ session. session.limit ≡ limit) }
        ensures time { IfOk result (λ session. time_of_session session ≡ (checkpoint_of_session session).observed) }
        ensures found { IfOk result (IsOfFound found) }
        ensures rejected { IfErr result (IsRejected settings.now (rules_of settings.now pipeline) found) }
    {
        match found {
            None => Ok(Session {
                pipeline,
                eras: one_era(alloc, settings)?,
                limit,
                journal: None,
                kept: 0,
                observed: 0,
                time: 0,
                tracker: Tracker::new(alloc),
            }),
            Some((journal, checkpoint)) => {
                check(alloc, &pipeline, settings, &checkpoint)?;
                let session = Session::of_checkpoint(alloc, pipeline, limit, journal, checkpoint)?;
                Ok(session)
            }
        }
    }

    /// The session that goes on from a journal and its checkpoint, of whose last settings the operators are.
    pub(crate) fn of_checkpoint(
        alloc: Global,
        pipeline: Pipeline,
        limit: u64,
        journal: Journal,
        checkpoint: Checkpoint,
    ) -> Result<Session, AllocError>
        requires made { IsMadeOf (last_text checkpoint.eras) pipeline }
        requires states { KeepStates (rules_of (last_text checkpoint.eras) pipeline) checkpoint.rows }
        requires limit { limit ≤ output_limit }
        requires lawful { IsCheckpoint newest checkpoint }
        requires short { IsShort journal }
        ensures session { IfOk result IsSession }
        ensures limit { IfOk result (λ session. session.limit ≡ limit) }
        ensures time { IfOk result (λ session. time_of_session session ≡ (checkpoint_of_session session).observed) }
        ensures found { IfOk result (IsOfFound (Some (journal, checkpoint))) }
    {
        let tracker = checkpoint.rows.into_tracker(alloc)?;
        Ok(Session {
            pipeline,
            eras: checkpoint.eras,
            limit,
            journal: Some(journal),
            kept: checkpoint.output_length,
            observed: checkpoint.observed,
            time: checkpoint.observed,
            tracker,
        })
    }
}

// These settings alone.
fn one_era(alloc: Global, settings: &[u8]) -> Result<Eras, AllocError>
    ensures { IfOk result (λ eras. eras ≡ settings.now ∷ []) }
{
    let mut texts = Vec::new(alloc);
    texts.push(Bytes::from_slice(alloc, settings)?)?;
    Ok(Eras::new(texts))
}

// The checkpoint is of this text, and these operators can go on from its rows.
fn check(
    alloc: Global,
    pipeline: &Pipeline,
    settings: &[u8],
    checkpoint: &Checkpoint,
) -> Result<(), OpenFault>
    requires { IsCheckpoint newest checkpoint.now }
    ensures text { OnOk result (last_text checkpoint.now.eras ≡ settings.now) }
    ensures states { OnOk result (KeepStates (rules_of settings.now pipeline.now) checkpoint.now.rows) }
    ensures unfit { IfErr result (IsUnfit settings.now (rules_of settings.now pipeline.now) checkpoint.now) }
{
    if let Some(at) = first_difference(last_text(&checkpoint.eras), settings) {
        return Err(OpenFault::SettingsChanged { at });
    }
    let foreign = pipeline.first_foreign(alloc, checkpoint.rows.as_slice())?;
    match foreign {
        Some(at) => Err(OpenFault::CheckpointBad { at }),
        None => Ok(()),
    }
}

/// The first place at which two texts differ, where nothing stands past the end of a text.
pub(crate) fn first_difference(one: &[u8], other: &[u8]) -> Option<u64>
    ensures same { IfNone result (one.now ≡ other.now) }
    ensures differs { IfSome result (DiffersAt one.now other.now) }
{
    let shorter = one.len().min(other.len());
    for place in 0..shorter {
        if one[place] != other[place] {
            return Some(place as u64);
        }
    }
    if one.len() == other.len() {
        None
    } else {
        Some(shorter as u64)
    }
}
