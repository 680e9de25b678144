// Whole lives, as scripts.
ghost use Rattle.std.specs.Prelude.{◌≡◌, IfOk, IfErr, OnOk};
ghost use Rattle.lifetimes.specs.Ended.{IsEnding, IsScriptFault};
ghost use Rattle.lifetimes.specs.Inner.Past.{CantOpenBy};
ghost use Rattle.pipeline.specs.MadeOf.{HasRules};
ghost use Rattle.standing.specs.AreRules.{AreRules};
ghost use Rattle.standing.specs.Rules.{Rules};

use crate::life::Life;
use crate::{Ending, Event, ScriptFault};
use pipeline::laws::a_pipeline_is_rules;
use poll_core::pipeline_of;
use settings_text::laws::settings_keep_limits;
use std::alloc::Global;

/// Plays a script with these settings, from an empty world, an empty disk and no session. The output may get 2^40 bytes long.
///
/// A poll whose output would get longer leaves no session, and the script goes on. A fault names the first event that can't
/// come; settings that are refused are told before the first event.
pub fn run_script(alloc: Global, settings: &[u8], script: &[Event]) -> Result<Ending, ScriptFault>
    ensures ending { IfOk result (λ ending. IsEnding settings.now script.now ending) }
    ensures fault { IfErr result (λ fault. IsScriptFault settings.now script.now fault) }
{
    try_settings(alloc, settings)?;
    let mut life = Life::new(alloc)?;
    let mut marks = Vec::new(alloc);
    for (at, event) in script.iter().enumerate() {
        life.come(alloc, settings, event, at)?;
        marks.push(life.tree.events())?;
    }
    Ok(life.ending(marks))
}

// The settings are refused before the first event, or never.
fn try_settings(alloc: Global, settings: &[u8]) -> Result<(), ScriptFault>
    ensures ok { OnOk result ((rules : Rules) × HasRules settings.now rules × AreRules rules) }
    ensures refusal { IfErr result (λ fault. CantOpenBy settings.now fault) }
{
    settings_keep_limits();
    let pipeline = pipeline_of(alloc, settings)?;
    a_pipeline_is_rules(&pipeline);
    Ok(())
}
