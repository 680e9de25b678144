// Openings in a script.
ghost use Rattle.std.specs.Prelude.{◌≡◌, ◌<◌, IfOk, IfErr, IfSome, OnOk};
ghost use Rattle.lifetimes.specs.Inner.Answered.{opened_of};
ghost use Rattle.lifetimes.specs.Inner.Past.{CantOpenBy, Failures, IsDiskAt, IsReady, Opens, Past, dropped};
ghost use Rattle.lifetimes.specs.Stopped.{IsStopped, halt_of};
ghost use Rattle.mem_world.specs.MemDisk.{disk_images};
ghost use Rattle.outside.specs.Count.{last_count};
ghost use Rattle.outside.specs.Crash.{Passes};
ghost use Rattle.pipeline.specs.MadeOf.{HasRules};
ghost use Rattle.poll_core.specs.Reopens.{Reopens};
ghost use Rattle.standing.specs.Rules.{Rules};

use crate::ScriptFault;
use crate::devices::disk_keeps_its_terms;
use crate::stopping::{Stopping, crash};
use checkpoint_store::OUTPUT_LIMIT;
use mem_world::MemDisk;
use poll_core::laws::{a_sound_image_is_opened, settings_give_one_set_of_rules};
use poll_core::{OpenFault, Session};
use std::alloc::Global;

// A session on what the disk has, or none where a call on the disk failed. The failures that it didn't reach are dropped.
pub(crate) fn open(
    alloc: Global,
    disk: &mut MemDisk,
    settings: &[u8],
) -> Result<Option<Session>, ScriptFault>
    ensures ready { IfOk result (λ opened. IfSome opened (λ session. IsReady session disk.new)) }
    ensures opened { IfOk result (λ opened. (rules : Rules) (past : Past) (failures : Failures) → HasRules settings.now rules
        → IsDiskAt rules past failures disk.old → failures.most < last_count → Opens rules failures opened) }
    ensures disk { OnOk result ((rules : Rules) (past : Past) (failures : Failures) → IsDiskAt rules past failures disk.old
        → IsDiskAt rules past (dropped failures) disk.new) }
    ensures crash { Passes disk_images Reopens disk.old disk.new }
    ensures cant { IfErr result (λ fault. (rules : Rules) (past : Past) (failures : Failures) → HasRules settings.now rules
        → IsDiskAt rules past failures disk.old → CantOpenBy settings.now fault) }
{
    settings_give_one_set_of_rules();
    a_sound_image_is_opened();
    let opened = Session::open(alloc, disk, settings, OUTPUT_LIMIT);
    disk_keeps_its_terms(disk);
    disk.clear_plans();
    opened_of(opened)
}

// An opening that is refused ends the script, but where a call on the disk failed.
fn opened_of(opened: Result<Session, OpenFault>) -> Result<Option<Session>, ScriptFault>
    ensures { result ≡ opened_of opened }
{
    match opened {
        Ok(session) => Ok(Some(session)),
        Err(OpenFault::Disk) => Ok(None),
        Err(fault) => Err(fault.into()),
    }
}

// Whatever the opening answers, a crash ends it.
pub(crate) fn open_stopped(
    alloc: Global,
    disk: &mut MemDisk,
    settings: &[u8],
    stopping: Stopping,
) -> Result<(), ScriptFault>
    ensures disk { OnOk result ((rules : Rules) (past : Past) (failures : Failures) → IsDiskAt rules past failures disk.old
        → IsDiskAt rules past (dropped failures) disk.new) }
    ensures stopped { OnOk result (IsStopped (halt_of stopping) disk.old disk.new) }
    ensures memory { IfErr result (λ fault. fault ≡ ScriptFault.Memory) }
{
    disk.fuse(stopping.calls);
    match Session::open(alloc, disk, settings, OUTPUT_LIMIT) {
        Ok(_) => {}
        Err(OpenFault::Memory) => return Err(ScriptFault::Memory),
        Err(_) => {}
    }
    disk_keeps_its_terms(disk);
    crash(alloc, disk, stopping.outcome)?;
    Ok(())
}
