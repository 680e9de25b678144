// What operators keep, as bytes and back.
ghost use Rattle.std.specs.Prelude.{◌≡◌, ◌≤◌, ◌++◌, length, OnOk, IfOk, IfErr};
ghost use Rattle.op_kinds.specs.States.{states_spelling, HaveSpellings, Spell, IsRefused, kept_at};
ghost use Rattle.recombine.specs.Inner.Told.{Finds};

use crate::{AnyOp, OpState};
use graph_core::NodeSpec;
use recombine::restore;
use state_codec::CodecFault;
use std::alloc::{AllocError, Global};

/// Appends what the operators keep, in their order: the bytes that [`restore_state`] reads. A text of 2^32 bytes or more
/// finds no memory.
pub fn save_state(alloc: Global, states: &[OpState], out: &mut Vec<u8>) -> Result<(), AllocError>
    ensures ok { OnOk result (out.new.items ≡ out.old.items ++ states_spelling states.now) }
    ensures lawful { OnOk result (HaveSpellings states.now) }
{
    for state in states {
        state.save(alloc, out)?;
    }
    Ok(())
}

/// What these operators kept, of the bytes that spell it, all of them. Malformed at the first byte, number or text with which
/// no spelling of what they keep goes on, also where bytes are left over, or at the end where more is missing: as
/// [`recombine::restore`] tells it of the groups of each operator in turn.
pub fn restore_state(
    alloc: Global,
    nodes: &[NodeSpec<AnyOp>],
    bytes: &[u8],
) -> Result<Vec<OpState>, CodecFault>
    ensures ok { IfOk result (λ states. Spell nodes.now bytes.now states.items) }
    ensures fault { IfErr result (IsRefused nodes.now bytes.now) }
{
    let mut states = Vec::new(alloc);
    let mut at = 0;
    for node in nodes {
        let (state, next) = restored(alloc, node.op.has_groups(), bytes, at)?;
        if states.push(state).is_err() {
            return Err(CodecFault::Memory);
        }
        at = next;
    }
    if at < bytes.len() {
        return Err(CodecFault::Malformed { at });
    }
    Ok(states)
}

/// What an operator keeps that holds groups, or another, at a place, and the place behind it.
fn restored(
    alloc: Global,
    holds_groups: bool,
    bytes: &[u8],
    at: usize,
) -> Result<(OpState, usize), CodecFault>
    requires { at ≤ length bytes.now }
    ensures { Finds (λ state. state) (kept_at holds_groups) bytes.now at result }
{
    if !holds_groups {
        return Ok((OpState::nothing(), at));
    }
    let (groups, next) = restore(alloc, bytes, at)?;
    Ok((OpState::with_groups(groups), next))
}
