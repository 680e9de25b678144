// The session of a command.
ghost use Rattle.std.specs.Prelude.{◌≡◌, IsTrue, IfOk, IfErr};
ghost use Rattle.outside.specs.Crash.{Passes};
ghost use Rattle.outside.specs.Image.{Same};
ghost use Rattle.poll_core.specs.OpenCause.{HasOpenCause};
ghost use Rattle.poll_core.specs.Reopens.{Reopens};
ghost use Rattle.settings_text.specs.Grammar as grammar;
ghost use Rattle.slot_store.specs.OnlyRead.{OnlyRead};
ghost use Rattle.agent_commands.specs.Grows.{GrowsBy};
ghost use Rattle.agent_commands.specs.Opens.{IsOpeningFault, IsRefusal, IsSettingsFault, Opens};

use checkpoint_store::OUTPUT_LIMIT;
use outside::{Disk, DiskFile};
use poll_core::{OpenFault, Session};
use settings_text::{MAX_LENGTH, SettingsFault};
use slot_store::fill;
use std::alloc::Global;

/// The session of the settings file that goes on from what the disk has.
pub fn open_session<D: Disk>(alloc: Global, disk: &mut D) -> Result<Session, OpenFault>
    ensures ok { IfOk result (λ session. Opens D.meaning.images session disk.old disk.new) }
    ensures fault { IfErr result (IsOpeningFault D.meaning.images disk.old) }
    ensures untouched { IfErr result (λ fault. IsRefusal fault → Passes D.meaning.images Same disk.old disk.new) }
    ensures crash { Passes D.meaning.images Reopens disk.old disk.new }
    ensures cause { HasOpenCause result (D.meaning.faults disk.old) (D.meaning.faults disk.new) }
{
    let settings = read_settings(alloc, disk)?;
    let session = Session::open(alloc, disk, &settings, OUTPUT_LIMIT)?;
    Ok(session)
}

/// The bytes of the settings file. Where it is longer than settings may be, it isn't read.
pub fn read_settings<D: Disk>(alloc: Global, disk: &mut D) -> Result<Vec<u8>, OpenFault>
    ensures ok { IfOk result (λ settings. IsTrue (D.meaning.images.tells disk.old) → settings.items ≡ D.meaning.images.seen disk.old DiskFile.Settings) }
    ensures fault { IfErr result (IsSettingsFault D.meaning.images disk.old) }
    ensures cause { HasOpenCause result (D.meaning.faults disk.old) (D.meaning.faults disk.new) }
    ensures only_read { OnlyRead D.meaning disk.old disk.new }
{
    let size = disk.length(DiskFile::Settings)?;
    if size > MAX_LENGTH as u64 {
        return Err(OpenFault::Settings(SettingsFault::TooLong { length: size }));
    }
    let mut settings = vec![in alloc; 0; size as usize]?;
    let count = fill(disk, DiskFile::Settings, 0, &mut settings)?;
    settings.truncate(count);
    Ok(settings)
}
