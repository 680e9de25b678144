// What the operators keep of a file, as its row has it.
ghost use Rattle.std.specs.Prelude.{◌≡◌, ◌<◌, ◌^◌, length, IfOk, OnOk};
ghost use Rattle.file_pass.specs.Fed.{rules_in};
ghost use Rattle.op_kinds.specs.StateTexts.{state_text};
ghost use Rattle.file_pass.specs.Sane.{FreshFits};
ghost use Rattle.pipeline.specs.Parts.{HaveKinds};

use crate::setup::Setup;
use file_tracker::Bytes;
use pipeline::FileState;
use pipeline::laws::a_row_tells_its_state;
use std::alloc::AllocError;

/// The most bytes that a row's state may have.
const MOST_BYTES: usize = 0xffff_ffff;

/// The bytes that spell what the operators keep. More than a row may have find no memory.
pub(crate) fn spelled(setup: &Setup<'_>, state: &FileState) -> Result<Bytes, AllocError>
    requires { HaveKinds setup.now.pipeline.now state.now.states.items }
    ensures text { IfOk result (λ bytes. bytes ≡ state_text state.now.states.items) }
    ensures short { IfOk result (λ bytes. length bytes < 2 ^ 32) }
{
    let mut bytes = Vec::new(setup.alloc);
    setup.pipeline.save(setup.alloc, state, &mut bytes)?;
    if bytes.len() > MOST_BYTES {
        return Err(AllocError);
    }
    Ok(Bytes::new(bytes))
}

/// The bytes that spell what the operators keep before the first entry.
pub(crate) fn first_spelled(setup: &Setup<'_>) -> Result<Bytes, AllocError>
    ensures text { IfOk result (λ bytes. bytes ≡ (rules_in setup.now).fresh) }
    ensures fits { OnOk result (FreshFits setup.now) }
{
    a_row_tells_its_state(setup.pipeline);
    let state = setup.pipeline.fresh(setup.alloc)?;
    spelled(setup, &state)
}
