// The operators of all eras.
ghost use Rattle.std.specs.Prelude.{◌≤◌, ◌↔◌, IsTrue, length, IfOk, IfErr};
ghost use Rattle.checkpoint_store.specs.Limits.{newest};
ghost use Rattle.checkpoint_store.specs.Rules.{IsCheckpoint};
ghost use Rattle.folder_audit.specs.KeptFiles.{IsLast};
ghost use Rattle.pipeline.specs.MadeOf.{IsMadeOf};
ghost use Rattle.folder_audit.specs.Made.{ArePipesOf};
ghost use Rattle.folder_audit.specs.Refusals.{Flush, IsFirstRefused, IsRefusedText};
ghost use Rattle.folder_audit.specs.Inner.Steps.{AreOperators, IsUnfit};

use crate::fault::AuditFault;
use checkpoint_store::{Checkpoint, Eras};
use pipeline::{BuildFault, Pipeline};
use settings_text::laws::settings_keep_limits;
use settings_text::{SettingsFault, read};
use std::alloc::Global;

/// The operators of each era of a checkpoint, of which each row keeps a state of the last ones.
pub(crate) fn operators_of(
    alloc: Global,
    checkpoint: &Checkpoint,
) -> Result<Vec<Pipeline>, AuditFault>
    requires { IsCheckpoint newest checkpoint.now }
    ensures operators { IfOk result (λ pipes. AreOperators checkpoint.now pipes.items) }
    ensures unfit { IfErr result (IsUnfit checkpoint.now) }
{
    let pipes = pipelines_of(alloc, &checkpoint.eras)?;
    let foreign = last_of(&pipes).first_foreign(alloc, checkpoint.rows.as_slice())?;
    match foreign {
        Some(at) => Err(AuditFault::CheckpointBad { at }),
        None => Ok(pipes),
    }
}

// The operators of each era, in turn, or why those of the first one that is refused can't be made.
fn pipelines_of(alloc: Global, eras: &Eras) -> Result<Vec<Pipeline>, AuditFault>
    ensures made { IfOk result (λ pipes. ArePipesOf eras.now pipes.items) }
    ensures refused { IfErr result (IsFirstRefused eras.now) }
{
    let mut pipes = Vec::new(alloc);
    for text in eras.as_slice() {
        pipes.push(pipeline_of(alloc, text.as_slice())?)?;
    }
    Ok(pipes)
}

// What the settings of a text ask for.
fn pipeline_of(alloc: Global, text: &[u8]) -> Result<Pipeline, AuditFault>
    ensures made { IfOk result (IsMadeOf text.now) }
    ensures refused { IfErr result (IsRefusedText text.now) }
{
    settings_keep_limits();
    let settings = match read(alloc, text) {
        Ok(settings) => settings,
        Err(SettingsFault::Memory) => return Err(AuditFault::Memory),
        Err(fault) => return Err(AuditFault::KeptSettings(fault)),
    };
    match Pipeline::build(alloc, settings) {
        Ok(pipeline) => Ok(pipeline),
        Err(BuildFault::Memory) => Err(AuditFault::Memory),
        Err(fault) => Err(AuditFault::KeptBuild(fault)),
    }
}

/// The operators of the last era.
pub(crate) fn last_of(pipes: &[Pipeline]) -> &Pipeline
    requires { 1 ≤ length pipes.now }
    ensures { IsLast pipes.now result.now }
{
    &pipes[pipes.len() - 1]
}

/// Whether some of them flush what waits.
pub(crate) fn flush(pipes: &[Pipeline]) -> bool
    ensures { IsTrue result ↔ Flush pipes.now }
{
    for pipe in pipes {
        if pipe.flush_after() > 0 {
            return true;
        }
    }
    false
}
