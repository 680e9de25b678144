// What a node emits, as calls of its targets.
ghost use Rattle.std.specs.Prelude.{◌≡◌, [], ◌∷◌, ◌++◌, map, slice_index_or, Some, IfOk, OnOk};
ghost use Rattle.graph_core.specs.Traces as traces;
ghost use Rattle.graph_core.specs.Traces.{calls_of_targets, calls_of_emissions, calls_of_trace, next_state, state_after};

use crate::call::Call;
use graph_core::{NodeSpec, Step, Target};
use std::alloc::{AllocError, Global};
use std::collections::VecDeque;

/// An address with one number more.
fn under(alloc: Global, at: &[usize], place: usize) -> Result<Vec<usize>, AllocError>
    ensures { IfOk result (λ address. address.items ≡ at.now ++ place ∷ []) }
{
    let mut address = Vec::from_slice(alloc, at)?;
    address.push(place)?;
    Ok(address)
}

/// Adds the call of the target at this place that gets an item.
fn add_call<I: Drop>(
    alloc: Global,
    to: Target,
    at: &[usize],
    place: usize,
    item: I,
    calls: &mut Vec<Call<I>>,
) -> Result<(), AllocError>
    ensures { OnOk result (calls.new.items ≡ calls.old.items ++ (record { to = to; at = at.now ++ place ∷ []; item = Some item }) ∷ []) }
{
    let at = under(alloc, at, place)?;
    calls.push(Call {
        to,
        at,
        item: Some(item),
    })?;
    Ok(())
}

/// Adds the calls of an item that was emitted at this address; the last target gets the item itself.
#[tactic(auto, using(crate::proofs::Adding::targets_step, crate::proofs::Adding::targets_end))]
fn add_targets<O: Step>(
    op: &O,
    alloc: Global,
    targets: &[Target],
    at: &[usize],
    item: O::Item,
    calls: &mut Vec<Call<O::Item>>,
) -> Result<(), AllocError>
    ensures { OnOk result (calls.new.items ≡ calls.old.items ++ calls_of_targets targets.now at.now 0 item) }
{
    let Some((last, others)) = targets.split_last() else {
        return Ok(());
    };
    for (place, to) in others.iter().enumerate() {
        let copy = op.copy(alloc, &item)?;
        add_call(alloc, *to, at, place, copy, calls)?;
    }
    add_call(alloc, *last, at, others.len(), item, calls)
}

/// Adds those of an item that was emitted on a port; a port without targets leads nowhere.
fn add_emission<O: Step>(
    node: &NodeSpec<O>,
    alloc: Global,
    port: u16,
    at: &[usize],
    item: O::Item,
    calls: &mut Vec<Call<O::Item>>,
) -> Result<(), AllocError>
    ensures { let targets = slice_index_or (map (λ port. port.items) node.now.ports.items) port [] in
        OnOk result (calls.new.items ≡ calls.old.items ++ calls_of_targets targets at.now 0 item) }
{
    match node.ports.get(port as usize) {
        Some(targets) => add_targets(&node.op, alloc, targets, at, item, calls),
        None => Ok(()),
    }
}

/// Adds those of all that a node emitted at its call at this address.
fn add_emissions<O: Step>(
    node: &NodeSpec<O>,
    alloc: Global,
    at: &[usize],
    emitted: Vec<(u16, O::Item)>,
    calls: &mut Vec<Call<O::Item>>,
) -> Result<(), AllocError>
    ensures { OnOk result (calls.new.items ≡ calls.old.items ++ calls_of_emissions (map (λ port. port.items) node.now.ports.items) at.now 0 emitted.items) }
{
    let mut left = VecDeque::from(emitted);
    let mut place = 0;
    'emitting: while let Some((port, item)) = left.pop_front() {
        let address = under(alloc, at, place)?;
        add_emission(node, alloc, port, &address, item, calls)?;
        place += 1;
    }
    Ok(())
}

/// The operator takes an item, and what it emits is the answer.
fn take_item<O: Step>(
    op: &O,
    alloc: Global,
    state: &mut O::State,
    item: O::Item,
) -> Result<Vec<(u16, O::Item)>, AllocError>
    ensures state { OnOk result (state.new ≡ (O.behavior op.now).after state.old item) }
    ensures said { IfOk result (λ emitted. emitted.items ≡ (O.behavior op.now).emitted state.old item) }
{
    let mut emitted = Vec::new(alloc);
    op.step(alloc, state, item, &mut emitted)?;
    Ok(emitted)
}

/// The operator is closed, and what it emits is the answer.
fn take_close<O: Step>(
    op: &O,
    alloc: Global,
    state: &mut O::State,
) -> Result<Vec<(u16, O::Item)>, AllocError>
    ensures state { OnOk result (state.new ≡ (O.behavior op.now).first) }
    ensures said { IfOk result (λ emitted. emitted.items ≡ (O.behavior op.now).closed state.old) }
{
    let mut emitted = Vec::new(alloc);
    op.close(alloc, state, &mut emitted)?;
    Ok(emitted)
}

/// The operator takes what a call hands over: its state moves on, and what it emits is the answer.
fn take_call<O: Step>(
    op: &O,
    alloc: Global,
    state: &mut O::State,
    item: Option<O::Item>,
) -> Result<Vec<(u16, O::Item)>, AllocError>
    ensures state { OnOk result (state.new ≡ next_state (Some (O.behavior op.now)) state.old item) }
    ensures said { IfOk result (λ emitted. emitted.items ≡ traces.said (Some (O.behavior op.now)) state.old item) }
{
    match item {
        Some(item) => take_item(op, alloc, state, item),
        None => take_close(op, alloc, state),
    }
}

/// The node takes all calls of its trace, and the calls that it makes are added.
pub(crate) fn take_trace<O: Step>(
    node: &NodeSpec<O>,
    alloc: Global,
    state: &mut O::State,
    mut trace: VecDeque<Call<O::Item>>,
    calls: &mut Vec<Call<O::Item>>,
) -> Result<(), AllocError>
    ensures state { OnOk result (state.new ≡ state_after (Some (O.behavior node.now.op)) state.old trace.items) }
    ensures calls { OnOk result (calls.new.items ≡ calls.old.items
        ++ calls_of_trace (Some (O.behavior node.now.op)) (map (λ port. port.items) node.now.ports.items) state.old trace.items) }
{
    'taking: while let Some(call) = trace.pop_front() {
        let (at, item) = call.into_parts();
        let emitted = take_call(&node.op, alloc, state, item)?;
        add_emissions(node, alloc, &at, emitted, calls)?;
    }
    Ok(())
}
