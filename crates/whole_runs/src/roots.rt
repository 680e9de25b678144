// The calls with which a run begins.
ghost use Rattle.std.specs.Prelude.{◌≡◌, if◌then◌else◌, List, [], ◌∷◌, ◌++◌, length, IfOk, OnOk};
ghost use Rattle.graph_core.specs.Traces as traces;
ghost use Rattle.graph_core.specs.Traces.{network_of, inputs};
ghost use Rattle.graph_core.specs.Closing.{closing_order};
ghost use Rattle.graph_core.specs.Wiring.{wiring_of, edges_of};
ghost use Rattle.graph_core.specs.Wiring as wiring;
ghost use Rattle.whole_runs.specs.Requests.{Request, requests, closings_of};

use crate::call::Call;
use graph_core::{Graph, Step, Target};
use std::alloc::{AllocError, Global};

/// Where inputs go: to the first node, or out where there is none.
#[tactic(auto, using(crate::proofs::Adding::entry_none, crate::proofs::Adding::entry_some))]
fn entry_of<O: Step>(graph: &Graph<O>) -> Target
    ensures { result ≡ wiring.entry_of (wiring_of graph.now) }
{
    if graph.nodes().is_empty() {
        return Target::Out;
    }
    Target::Node(0)
}

/// Adds a call whose address is its place in the list.
fn add<I: Drop>(
    alloc: Global,
    calls: &mut Vec<Call<I>>,
    to: Target,
    item: Option<I>,
) -> Result<(), AllocError>
    ensures { OnOk result (calls.new.items ≡ calls.old.items ++ (record { to = to; at = length calls.old.items ∷ []; item = item }) ∷ []) }
{
    let mut at = Vec::new(alloc);
    at.push(calls.len())?;
    calls.push(Call { to, at, item })?;
    Ok(())
}

#[tactic(auto, using(crate::proofs::Adding::inputs_step))]
fn add_inputs<O: Step>(
    graph: &Graph<O>,
    alloc: Global,
    items: Vec<O::Item>,
) -> Result<Vec<Call<O::Item>>, AllocError>
    ensures { IfOk result (λ calls. calls.items ≡ traces.numbered 0 (inputs (network_of O.behavior graph.now) items.items)) }
{
    let entry = entry_of(graph);
    let mut calls = Vec::new(alloc);
    for item in items {
        add(alloc, &mut calls, entry, Some(item))?;
    }
    Ok(calls)
}

/// Adds the closing calls of these nodes behind calls whose addresses are their places.
fn add_closings<I: Drop>(
    alloc: Global,
    order: &[u16],
    calls: &mut Vec<Call<I>>,
) -> Result<(), AllocError>
    ensures { OnOk result ((earlier : List (Request I)) → calls.old.items ≡ traces.numbered 0 earlier
        → calls.new.items ≡ traces.numbered 0 (earlier ++ closings_of order.now)) }
{
    for node in order {
        add(alloc, calls, Target::Node(*node), None)?;
    }
    Ok(())
}

/// The nodes that a run closes: all of them, or none.
fn closed_nodes(order: &[u16], closed: bool) -> &[u16]
    ensures { result.now ≡ (if closed then order.now else []) }
{
    if closed {
        return order;
    }
    &order[..0]
}

/// The inputs, and behind them the closing call of each node where the run is closed.
pub(crate) fn roots<O: Step>(
    graph: &Graph<O>,
    order: &[u16],
    alloc: Global,
    items: Vec<O::Item>,
    closed: bool,
) -> Result<Vec<Call<O::Item>>, AllocError>
    requires { order.now ≡ closing_order (edges_of (wiring_of graph.now)) }
    ensures { IfOk result (λ calls. calls.items ≡ traces.numbered 0 (requests (network_of O.behavior graph.now) items.items closed)) }
{
    let mut calls = add_inputs(graph, alloc, items)?;
    let nodes = closed_nodes(order, closed);
    add_closings(alloc, nodes, &mut calls)?;
    Ok(calls)
}
