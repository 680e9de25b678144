// States that are kept from one run to the next.
ghost use Rattle.std.specs.Prelude.{◌≡◌, ◌++◌, OnOk, IfOk, IfErr};
ghost use Rattle.op_kinds.specs.StateTexts.{Tells};
ghost use Rattle.op_kinds.specs.States.{states_spelling, Spell, IsRefused};
ghost use Rattle.pipeline.specs.Parts.{HaveKinds};
ghost use Rattle.pipeline.specs.RowStates.{IsStateOf};

use crate::{FileState, Pipeline};
use op_kinds::{restore_state, save_state};
use state_codec::CodecFault;
use std::alloc::{AllocError, Global};

impl Pipeline {
    /// Appends the bytes that spell what the operators keep of a file: those that [`Pipeline::restore`] reads.
    pub fn save(
        &self,
        alloc: Global,
        state: &FileState,
        out: &mut Vec<u8>,
    ) -> Result<(), AllocError>
        requires { HaveKinds self.now state.now.states.items }
        ensures ok { OnOk result (out.new.items ≡ out.old.items ++ states_spelling state.now.states.items) }
        ensures spelled { OnOk result (Spell self.now.graph (states_spelling state.now.states.items) state.now.states.items) }
        ensures tells { OnOk result (Tells self.now.graph (states_spelling state.now.states.items) state.now.states.items) }
    {
        save_state(alloc, &state.states, out)?;
        let _written = out.as_slice();
        Ok(())
    }

    /// The state of a file of which so many tokens were taken, which gave so many lines, and left what the bytes spell, all
    /// of them. Malformed at the first byte, number or text with which no spelling of what these operators keep goes on, also
    /// where bytes are left over, or at the end where more is missing.
    pub fn restore(
        &self,
        alloc: Global,
        records: u64,
        lines: u64,
        bytes: &[u8],
    ) -> Result<FileState, CodecFault>
        ensures ok { IfOk result (IsStateOf self.now records lines bytes.now) }
        ensures spelled { IfOk result (λ state. Spell self.now.graph bytes.now state.states.items) }
        ensures kinds { IfOk result (λ state. HaveKinds self.now state.states.items) }
        ensures fault { IfErr result (IsRefused self.now.graph bytes.now) }
    {
        let states = restore_state(alloc, self.graph.nodes(), bytes)?;
        Ok(FileState {
            records,
            lines,
            states,
        })
    }
}
