// Joining entries, as operators do that hold groups.
ghost use Rattle.std.specs.Prelude.{◌≡◌, ◌++◌, OnOk, IfOk, option_map};
ghost use Rattle.entry_model.specs.LogRecord.{log_record};
ghost use Rattle.op_kinds.specs.Inner.Applied.{IsApplied, effect};
ghost use Rattle.op_kinds.specs.Grouping.{arrival, joined_in};
ghost use Rattle.op_kinds.specs.Kept as kept;
ghost use Rattle.op_kinds.specs.Kept.{open_groups};
ghost use Rattle.op_kinds.specs.Operator.{on_one_port, with_groups};
ghost use Rattle.recombine.specs.Recombined.{entries_of};
ghost use Rattle.recombine.specs.Stepped.{seen};

use crate::action::Applied;
use crate::{OpState, Record};
use entry_model::{Entry, Text};
use recombine::{Groups, Recombine, StepFault};
use std::alloc::{AllocError, Global};

/// Joins an entry of a source, which is marked or not, with those of the open groups: puts out what is sent on for it, and
/// changes what is kept.
pub(crate) fn join(
    alloc: Global,
    recombine: &Recombine,
    state: &mut OpState,
    mark: bool,
    source: &Text,
    entry: Entry,
    out: &mut Vec<(u16, Record)>,
) -> Result<Applied, AllocError>
    ensures { IfOk result (IsApplied (option_map with_groups (joined_in recombine.now (open_groups state.old) (arrival source.now mark (log_record entry)))) (log_record entry)
        (effect state.old state.new out.old.items out.new.items)) }
{
    let mut opened = state.take_groups(alloc);
    let mut sent = Vec::new(alloc);
    match recombine.step(alloc, &mut opened, mark, source, entry, &mut sent) {
        Ok(()) => {
            *state = OpState::with_groups(opened);
            put_out(alloc, sent, out)?;
            Ok(Applied::Done)
        }
        Err(StepFault::NotText { entry }) => given_back(alloc, state, opened, entry),
        Err(StepFault::TooDeep { entry }) => given_back(alloc, state, opened, entry),
        Err(StepFault::Memory) => Err(AllocError),
    }
}

/// Holds the groups again that were taken, and gives an entry back.
fn given_back(
    alloc: Global,
    state: &mut OpState,
    opened: Groups,
    entry: Entry,
) -> Result<Applied, AllocError>
    ensures kept { state.new ≡ kept.with_groups state.old opened }
    ensures given { IfOk result (λ applied. applied ≡ Applied.Faulty (log_record entry)) }
{
    state.put_groups(opened);
    Ok(Applied::Faulty(Record::new(alloc, entry)?))
}

/// Ends all open groups, and puts out what they make.
pub(crate) fn close(
    alloc: Global,
    recombine: &Recombine,
    state: &mut OpState,
    out: &mut Vec<(u16, Record)>,
) -> Result<(), AllocError>
    ensures { OnOk result (out.new.items ≡ out.old.items ++ on_one_port (entries_of recombine.now (open_groups state.old))) }
{
    let mut opened = state.take_groups(alloc);
    let mut sent = Vec::new(alloc);
    recombine.close(alloc, &mut opened, &mut sent)?;
    put_out(alloc, sent, out)
}

/// Puts entries out on the one port.
pub(crate) fn put_out(
    alloc: Global,
    entries: Vec<Entry>,
    out: &mut Vec<(u16, Record)>,
) -> Result<(), AllocError>
    ensures { OnOk result (out.new.items ≡ out.old.items ++ on_one_port (seen entries.items)) }
{
    for entry in entries {
        out.push((0, Record::new(alloc, entry)?))?;
    }
    Ok(())
}
