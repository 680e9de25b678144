// Nodes, one after another, each with all its calls.
ghost use Rattle.std.specs.Prelude.{◌≡◌, ◌<◌, [], ◌∷◌, ◌++◌, length, IfOk, OnOk};
ghost use Rattle.graph_core.specs.Closing.{closing_order};
ghost use Rattle.graph_core.specs.Traces.{network_of, calls_to, calls_from};
ghost use Rattle.graph_core.specs.Wiring.{wiring_of, edges_of};
ghost use Rattle.graph_core.specs.Wiring as wiring;
ghost use Rattle.whole_runs.specs.Inner.Serving.{calls_not_to, taken_by, states_behind, calls_behind, states_in_order, calls_in_order};

use crate::ascending::sorted;
use crate::call::Call;
use crate::deliver::take_trace;
use graph_core::{Graph, Step, Target};
use std::alloc::{AllocError, Global};
use std::collections::VecDeque;

fn same_target(to: Target, other: Target) -> bool
    ensures { result ≡ wiring.same_target to other }
{
    match to {
        Target::Node(node) => match other {
            Target::Node(next) => node == next,
            Target::Out => false,
        },
        Target::Out => match other {
            Target::Node(_next) => false,
            Target::Out => true,
        },
    }
}

/// Puts the call to those of the target, or to the others.
#[tactic(auto, using(crate::proofs::Adding::own_in, crate::proofs::Adding::own_out, crate::proofs::Adding::other_in, crate::proofs::Adding::other_out))]
fn put<I: Drop>(
    to: Target,
    call: Call<I>,
    own: &mut VecDeque<Call<I>>,
    others: &mut Vec<Call<I>>,
) -> Result<(), AllocError>
    ensures own { OnOk result (own.new.items ≡ own.old.items ++ calls_to to (call ∷ [])) }
    ensures others { OnOk result (others.new.items ≡ others.old.items ++ calls_not_to to (call ∷ [])) }
{
    if same_target(to, call.to()) {
        own.push_back(call)?;
        return Ok(());
    }
    others.push(call)?;
    Ok(())
}

/// The calls of one target, and the others.
#[tactic(auto, using(crate::proofs::Adding::own_more, crate::proofs::Adding::others_more))]
pub(crate) fn parted<I: Drop>(
    alloc: Global,
    to: Target,
    calls: Vec<Call<I>>,
) -> Result<(VecDeque<Call<I>>, Vec<Call<I>>), AllocError>
    ensures own { IfOk result (λ parts. parts.0.items ≡ calls_to to calls.items) }
    ensures others { IfOk result (λ parts. parts.1.items ≡ calls_not_to to calls.items) }
{
    let mut own = VecDeque::new(alloc);
    let mut others = Vec::new(alloc);
    for call in calls {
        put(to, call, &mut own, &mut others)?;
    }
    Ok((own, others))
}

/// The node takes these calls, and the calls that it makes are added.
fn take_at<O: Step>(
    graph: &Graph<O>,
    alloc: Global,
    node: u16,
    states: &mut Vec<O::State>,
    trace: VecDeque<Call<O::Item>>,
    calls: &mut Vec<Call<O::Item>>,
) -> Result<(), AllocError>
    requires node { node < length graph.now }
    requires states { length states.old.items ≡ length graph.now }
    ensures kept { length states.new.items ≡ length states.old.items }
    ensures states { OnOk result (states.new.items ≡ taken_by (network_of O.behavior graph.now) node states.old.items trace.items) }
    ensures calls { OnOk result (calls.new.items ≡ calls.old.items ++ calls_from (network_of O.behavior graph.now) states.old.items node trace.items) }
{
    let operator = &graph.nodes()[node as usize];
    take_trace(operator, alloc, &mut states[node as usize], trace, calls)
}

/// The node takes its calls, and the calls that it makes stand behind the others.
fn serve<O: Step>(
    graph: &Graph<O>,
    alloc: Global,
    node: u16,
    states: &mut Vec<O::State>,
    calls: Vec<Call<O::Item>>,
) -> Result<Vec<Call<O::Item>>, AllocError>
    requires node { node < length graph.now }
    requires states { length states.old.items ≡ length graph.now }
    ensures kept { length states.new.items ≡ length states.old.items }
    ensures states { OnOk result (states.new.items ≡ states_behind (network_of O.behavior graph.now) node states.old.items calls.items) }
    ensures calls { IfOk result (λ left. left.items ≡ calls_behind (network_of O.behavior graph.now) node states.old.items calls.items) }
{
    let (own, mut left) = parted(alloc, Target::Node(node), calls)?;
    let trace = sorted(alloc, own)?;
    take_at(graph, alloc, node, states, trace, &mut left)?;
    Ok(left)
}

/// Each node takes its calls, in closing order. What is left are the calls of no node.
pub(crate) fn serve_all<O: Step>(
    graph: &Graph<O>,
    order: &[u16],
    alloc: Global,
    states: &mut Vec<O::State>,
    mut calls: Vec<Call<O::Item>>,
) -> Result<Vec<Call<O::Item>>, AllocError>
    requires order { order.now ≡ closing_order (edges_of (wiring_of graph.now)) }
    requires states { length states.old.items ≡ length graph.now }
    ensures kept { length states.new.items ≡ length states.old.items }
    ensures states { let order = closing_order (edges_of (wiring_of graph.now)) in
        OnOk result (states.new.items ≡ states_in_order (network_of O.behavior graph.now) order states.old.items calls.items) }
    ensures calls { let order = closing_order (edges_of (wiring_of graph.now)) in
        IfOk result (λ left. left.items ≡ calls_in_order (network_of O.behavior graph.now) order states.old.items calls.items) }
{
    for node in order {
        let left = serve(graph, alloc, *node, states, calls)?;
        calls = left;
    }
    Ok(calls)
}
