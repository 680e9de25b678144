// What waits at the end of a file, and when it is flushed.
ghost use Rattle.std.specs.Prelude.{◌≡◌, ◌+◌, ◌<◌, ◌≤◌, ◌^◌, ℕ, [], length, Err, IsTrue, OnOk};
ghost use Rattle.outside.specs.declared.disk.DiskFile.{DiskFile};
ghost use Rattle.file_pass.specs.DiskTerms.{Appends, KeepsDisk};
ghost use Rattle.file_pass.specs.Fed.{poll_of, IsSane, feeding_row, rules_in};
ghost use Rattle.file_pass.specs.Flushed.{is_waiting, lines_looked, look_of, looks_on, rest_lines, row_looked, with_rest};
ghost use Rattle.file_pass.specs.Full.{Crosses, lines_text};
ghost use Rattle.file_pass.specs.PassCause.{HasPassCause};
ghost use Rattle.pipeline.specs.Parts.{HaveKinds, settings_of};
ghost use Rattle.settings_text.specs.Limits.{KeepsLimits};

use crate::ending::Ending;
use crate::fault::PassFault;
use crate::feeding::{Feeding, MOST_TAKEN};
use crate::output::append;
use crate::setup::Setup;
use idle_flush::look;
use outside::Disk;
use pipeline::laws::a_row_is_flushed_by_the_rules;
use std::alloc::AllocError;

/// Whether what waits of a file may be flushed that has this size and was read from the offset on: it was read to its end, and
/// the settings ask for it.
pub(crate) fn may_flush(setup: &Setup<'_>, size: u64, offset: u64, ending: Ending) -> bool
    requires { offset ≤ 2 ^ 62 }
    ensures { result ≡ looks_on (rules_in setup.now) size ending offset }
{
    if setup.pipeline.flush_after() == 0 {
        return false;
    }
    match ending {
        Ending::Whole => size <= offset + MOST_TAKEN,
        Ending::Failed => false,
        Ending::Shrunk => false,
    }
}

/// Remembers a look at a file that was read to its end, and flushes what waits of it where the look says so.
pub(crate) fn look_on<D: Disk>(
    disk: &mut D,
    setup: &Setup<'_>,
    feeding: &mut Feeding,
    end: &mut u64,
) -> Result<(), PassFault>
    requires limit { setup.now.limit ≤ 2 ^ 40 }
    requires asked { 1 ≤ (rules_in setup.now).flush_after }
    requires sane { IsSane setup.now feeding.old end.old }
    requires size { feeding.old.offset + length feeding.old.carried.items ≤ 2 ^ 62 }
    requires none { (rules_in setup.now).cuts feeding.old.carried.items ≡ [] }
    requires ends { IsTrue (D.meaning.images.tells disk.old) → length (D.meaning.images.seen disk.old DiskFile.Output) ≡ end.old }
    ensures row { OnOk result (feeding_row feeding.new ≡ row_looked (rules_in setup.now) (feeding.old.offset + length feeding.old.carried.items) feeding.old.carried.items (feeding_row feeding.old)) }
    ensures ok { OnOk result (Appends D.meaning (lines_text (lines_looked (poll_of setup.now) (feeding.old.offset + length feeding.old.carried.items) feeding.old.carried.items (feeding_row feeding.old))) end.old end.new disk.old disk.new) }
    ensures flushed { OnOk result (feeding.new.flushed ≡ (look_of (rules_in setup.now) (feeding.old.offset + length feeding.old.carried.items) (feeding_row feeding.old)).1) }
    ensures few { OnOk result (feeding.new.state.records + feeding.old.offset ≤ feeding.old.state.records + feeding.new.offset) }
    ensures sane { OnOk result (IsSane setup.now feeding.new end.new) }
    ensures full { (full : ℕ) → result ≡ Err (PassFault.OutputFull full)
        → Crosses setup.now.limit end.old (lines_looked (poll_of setup.now) (feeding.old.offset + length feeding.old.carried.items) feeding.old.carried.items (feeding_row feeding.old)) full }
    ensures disk { KeepsDisk D.meaning end.old disk.old disk.new }
    ensures cause { HasPassCause result (D.meaning.faults disk.old) (D.meaning.faults disk.new) }
{
    let size = feeding.offset + feeding.carried.len() as u64;
    let pending = waits(setup, feeding);
    let (idle, flushes) = look(feeding.idle, size, pending, setup.pipeline.flush_after());
    feeding.idle = idle;
    feeding.flushed = flushes;
    if flushes {
        flush(disk, setup, feeding, end)?;
    }
    Ok(())
}

// Whether bytes of the file wait, or its operators hold something back.
fn waits(setup: &Setup<'_>, feeding: &Feeding) -> bool
    requires { HaveKinds setup.now.pipeline.now feeding.now.state.states.items }
    ensures { result ≡ is_waiting (rules_in setup.now) (feeding.now.offset + length feeding.now.carried.items) (feeding_row feeding.now) }
{
    a_row_is_flushed_by_the_rules(setup.pipeline);
    if !feeding.carried.is_empty() {
        return true;
    }
    !setup.pipeline.is_fresh(&feeding.state)
}

// Takes what waits as the last bytes of its file, closes the operators, and puts the lines of both behind the output.
fn flush<D: Disk>(
    disk: &mut D,
    setup: &Setup<'_>,
    feeding: &mut Feeding,
    end: &mut u64,
) -> Result<(), PassFault>
    requires limit { setup.now.limit ≤ 2 ^ 40 }
    requires sane { IsSane setup.now feeding.old end.old }
    requires size { feeding.old.offset + length feeding.old.carried.items ≤ 2 ^ 62 }
    requires none { (rules_in setup.now).cuts feeding.old.carried.items ≡ [] }
    requires ends { IsTrue (D.meaning.images.tells disk.old) → length (D.meaning.images.seen disk.old DiskFile.Output) ≡ end.old }
    ensures row { OnOk result (feeding_row feeding.new ≡ with_rest (rules_in setup.now) (feeding.old.offset + length feeding.old.carried.items) feeding.old.carried.items (feeding_row feeding.old)) }
    ensures ok { OnOk result (Appends D.meaning (lines_text (rest_lines (poll_of setup.now) feeding.old.carried.items (feeding_row feeding.old))) end.old end.new disk.old disk.new) }
    ensures flushed { feeding.new.flushed ≡ feeding.old.flushed }
    ensures few { OnOk result (feeding.new.state.records + feeding.old.offset ≤ feeding.old.state.records + feeding.new.offset) }
    ensures sane { OnOk result (IsSane setup.now feeding.new end.new) }
    ensures full { (full : ℕ) → result ≡ Err (PassFault.OutputFull full)
        → Crosses setup.now.limit end.old (rest_lines (poll_of setup.now) feeding.old.carried.items (feeding_row feeding.old)) full }
    ensures disk { KeepsDisk D.meaning end.old disk.old disk.new }
    ensures cause { HasPassCause result (D.meaning.faults disk.old) (D.meaning.faults disk.new) }
{
    let mut lines = Vec::new(setup.alloc);
    finish(setup, feeding, &mut lines)?;
    append(setup.alloc, disk, setup.limit, &lines, end)?;
    Ok(())
}

// Takes what waits as the last bytes of its file, and closes the operators.
fn finish(setup: &Setup<'_>, feeding: &mut Feeding, lines: &mut Vec<u8>) -> Result<(), AllocError>
    requires states { HaveKinds setup.now.pipeline.now feeding.old.state.states.items }
    requires few { (feeding.old.state.records ≤ feeding.old.offset) × (feeding.old.state.lines ≤ 2 ^ 40) }
    requires size { feeding.old.offset + length feeding.old.carried.items ≤ 2 ^ 62 }
    requires cuts { (rules_in setup.now).cuts feeding.old.carried.items ≡ [] }
    requires none { lines.old.items ≡ [] }
    ensures row { OnOk result (feeding_row feeding.new ≡ with_rest (rules_in setup.now) (feeding.old.offset + length feeding.old.carried.items) feeding.old.carried.items (feeding_row feeding.old)) }
    ensures lines { OnOk result (lines.new.items ≡ lines_text (rest_lines (poll_of setup.now) feeding.old.carried.items (feeding_row feeding.old))) }
    ensures idle { feeding.new.idle ≡ feeding.old.idle }
    ensures flushed { feeding.new.flushed ≡ feeding.old.flushed }
    ensures states { OnOk result (HaveKinds setup.now.pipeline.now feeding.new.state.states.items) }
    ensures records { OnOk result (feeding.new.state.records + feeding.old.offset ≤ feeding.old.state.records + feeding.new.offset) }
    ensures many { OnOk result (feeding.new.state.lines ≤ feeding.old.state.lines + length lines.new.items) }
{
    a_row_is_flushed_by_the_rules(setup.pipeline);
    let path = feeding.path.as_str();
    setup.pipeline.finish(
        setup.alloc,
        &mut feeding.state,
        feeding.id,
        path,
        setup.observed,
        &feeding.carried,
        lines,
    )?;
    feeding.offset += feeding.carried.len() as u64;
    feeding.carried.clear();
    Ok(())
}
