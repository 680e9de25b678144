//! The graph, gone through depth first.

ghost use Rattle.std.specs.Prelude.{◌≡◌, ℕ, ◌<◌, [], ◌∷◌, ◌++◌, List, length, map, slice_index_or, Some, None, IfOk, OnOk, IfSome, IfNone, OnSome, vec_len};
ghost use Rattle.graph_core.specs.declared.Target.TheVariants.{Node};
ghost use Rattle.graph_core.specs.Wiring.{wiring_of, edges_of, ports_of, Has};
ghost use Rattle.graph_core.specs.Closing.{closing_order, CallersFirst};
ghost use Rattle.graph_core.specs.Traces.{network_of, inputs, closings};
ghost use Rattle.graph_core.specs.Inner.Walk.{deliveries, owed, stepped, sent, Walk, LeadsOn, IsOnlyTarget};

use super::{Graph, NodeSpec, Step, Target};
use std::alloc::{AllocError, Global};
use std::collections::VecDeque;
use std::mem;

/// Adds the item to the queue once for each target; the last target gets the item itself.
fn hand_to_each<O: Step>(
    op: &O,
    alloc: Global,
    targets: &[Target],
    item: O::Item,
    queue: &mut VecDeque<(Target, O::Item)>,
) -> Result<(), AllocError>
    ensures { OnOk result (queue.new.items ≡ queue.old.items ++ map (λ to. (to, item)) targets.now) }
{
    let Some((last, others)) = targets.split_last() else {
        return Ok(());
    };
    for to in others {
        let copy = op.copy(alloc, &item)?;
        queue.push_back((*to, copy))?;
    }
    queue.push_back((*last, item))?;
    Ok(())
}

/// Adds an item that was emitted on a port; a port without targets leads nowhere.
fn hand_on<O: Step>(
    node: &NodeSpec<O>,
    alloc: Global,
    port: u16,
    item: O::Item,
    queue: &mut VecDeque<(Target, O::Item)>,
) -> Result<(), AllocError>
    ensures { let targets = slice_index_or (map (λ port. port.items) node.now.ports.items) port [] in
        OnOk result (queue.new.items ≡ queue.old.items ++ map (λ to. (to, item)) targets) }
{
    match node.ports.get(port as usize) {
        Some(targets) => hand_to_each(&node.op, alloc, targets, item, queue),
        None => Ok(()),
    }
}

/// The items that emissions hand on, each with its target, in the order of the calls.
fn deliveries_of<O: Step>(
    node: &NodeSpec<O>,
    alloc: Global,
    said: Vec<(u16, O::Item)>,
) -> Result<VecDeque<(Target, O::Item)>, AllocError>
    ensures { IfOk result (λ queue. queue.items ≡ deliveries (map (λ port. port.items) node.now.ports.items) said.items) }
{
    let mut queue = VecDeque::new(alloc);
    for (port, item) in said {
        hand_on(node, alloc, port, item, &mut queue)?;
    }
    Ok(queue)
}

/// The same for a node of the graph.
fn queue_of<O: Step>(
    graph: &Graph<O>,
    alloc: Global,
    node: u16,
    said: Vec<(u16, O::Item)>,
) -> Result<VecDeque<(Target, O::Item)>, AllocError>
    requires { node < length graph.now }
    ensures items { IfOk result (λ queue. queue.items ≡ deliveries (ports_of (wiring_of graph.now) node) said.items) }
    ensures leads { IfOk result (λ queue. (d : _) → Has queue.items d → LeadsOn (edges_of (wiring_of graph.now)) node d.0) }
{
    deliveries_of(&graph.nodes[node as usize], alloc, said)
}

/// The node takes an item: its state moves on, and what it emits goes into the list, which is handed in empty.
#[inline(always)]
fn step_node<O: Step>(
    graph: &Graph<O>,
    alloc: Global,
    node: u16,
    item: O::Item,
    states: &mut Vec<O::State>,
    said: &mut Vec<(u16, O::Item)>,
) -> Result<(), AllocError>
    requires node { node < length graph.now }
    requires states { length states.old.items ≡ length graph.now }
    requires empty { said.old.items ≡ [] }
    ensures kept { length states.new.items ≡ length states.old.items }
    ensures state { OnOk result (states.new.items ≡ stepped (network_of O.behavior graph.now) states.old.items node (Some item)) }
    ensures said { let ports = ports_of (wiring_of graph.now) node in
        OnOk result (owed (deliveries ports said.new.items) ≡ sent (network_of O.behavior graph.now) states.old.items node (Some item)) }
{
    let operator = &graph.nodes[node as usize].op;
    operator.step(alloc, &mut states[node as usize], item, said)
}

/// Hands on what the node said, one target's whole effect before the next.
fn deliver_all<O: Step>(
    graph: &Graph<O>,
    alloc: Global,
    node: u16,
    said: Vec<(u16, O::Item)>,
    states: &mut Vec<O::State>,
    out: &mut Vec<O::Item>,
) -> Result<(), AllocError>
    requires node { node < length graph.now }
    requires states { length states.old.items ≡ length graph.now }
    ensures kept { length states.new.items ≡ length states.old.items }
    ensures walks { let requests = owed (deliveries (ports_of (wiring_of graph.now) node) said.items) in
        OnOk result (Walk (network_of O.behavior graph.now) states.old.items out.old.items requests states.new.items out.new.items) }
{
    let mut queue = queue_of(graph, alloc, node, said)?;
    while let Some((to, item)) = queue.pop_front() {
        match to {
            Target::Out => out.push(item)?,
            Target::Node(next) => {
                let mut said = Vec::new(alloc);
                step_node(graph, alloc, next, item, states, &mut said)?;
                deliver_all(graph, alloc, next, said, states, out)?;
            }
        }
    }
    Ok(())
}

/// The port of what was said, where that is one item.
fn sole_port<I>(said: &[(u16, I)]) -> Option<u16>
    ensures { IfSome result (λ port. (item : I) × (said.now ≡ (port, item) ∷ [])) }
{
    match said {
        [(port, _)] => Some(*port),
        _ => None,
    }
}

/// The target of a port that has one.
fn sole_target<O>(node: &NodeSpec<O>, port: u16) -> Option<Target>
    ensures { IfSome result (λ to. slice_index_or (map (λ port. port.items) node.now.ports.items) port [] ≡ to ∷ []) }
{
    match node.ports.get(port as usize) {
        Some(targets) => match targets.as_slice() {
            [to] => Some(*to),
            _ => None,
        },
        None => None,
    }
}

fn only_target<O: Step>(node: &NodeSpec<O>, said: &[(u16, O::Item)]) -> Option<Target>
    ensures { IfSome result (IsOnlyTarget (map (λ port. port.items) node.now.ports.items) said.now) }
{
    match sole_port(said) {
        Some(port) => sole_target(node, port),
        None => None,
    }
}

/// Takes what was said, with its target, where that is one item for one target.
fn take_only<O: Step>(
    node: &NodeSpec<O>,
    said: &mut Vec<(u16, O::Item)>,
) -> Option<(Target, O::Item)>
    ensures only { IfSome result (λ d. deliveries (map (λ port. port.items) node.now.ports.items) said.old.items ≡ d ∷ []) }
    ensures taken { OnSome result (said.new.items ≡ []) }
    ensures none { IfNone result (said.new.items ≡ said.old.items) }
{
    let Some(to) = only_target(node, said) else {
        return None;
    };
    match said.pop() {
        Some((_, item)) => Some((to, item)),
        None => None,
    }
}

/// The same for a node of the graph.
fn single_of<O: Step>(
    graph: &Graph<O>,
    node: u16,
    said: &mut Vec<(u16, O::Item)>,
) -> Option<(Target, O::Item)>
    requires { node < length graph.now }
    ensures only { IfSome result (λ d. deliveries (ports_of (wiring_of graph.now) node) said.old.items ≡ d ∷ []) }
    ensures leads { IfSome result (λ d. LeadsOn (edges_of (wiring_of graph.now)) node d.0) }
    ensures taken { OnSome result (said.new.items ≡ []) }
    ensures none { IfNone result (said.new.items ≡ said.old.items) }
{
    take_only(&graph.nodes[node as usize], said)
}

/// One call of a node with an item, and all that follows from it. The list has what one call emits: as long as that is one
/// item for one target, no other memory is taken.
fn call<O: Step>(
    graph: &Graph<O>,
    alloc: Global,
    mut node: u16,
    mut item: O::Item,
    states: &mut Vec<O::State>,
    said: &mut Vec<(u16, O::Item)>,
    out: &mut Vec<O::Item>,
) -> Result<(), AllocError>
    requires node { node < length graph.now }
    requires states { length states.old.items ≡ length graph.now }
    requires empty { said.old.items ≡ [] }
    ensures kept { length states.new.items ≡ length states.old.items }
    ensures walks { OnOk result (Walk (network_of O.behavior graph.now) states.old.items out.old.items ((Node node, Some item) ∷ []) states.new.items out.new.items) }
    ensures empty { OnOk result (said.new.items ≡ []) }
{
    'follow: loop {
        step_node(graph, alloc, node, item, states, said)?;
        let Some((to, single)) = single_of(graph, node, said) else {
            let all = mem::replace(said, Vec::new(alloc));
            return deliver_all(graph, alloc, node, all, states, out);
        };
        match to {
            Target::Out => {
                out.push(single)?;
                return Ok(());
            }
            Target::Node(next) => {
                node = next;
                item = single;
            }
        }
    }
}

/// An input, and all that follows from it; without nodes it goes out.
pub(super) fn enter<O: Step>(
    graph: &Graph<O>,
    alloc: Global,
    item: O::Item,
    states: &mut Vec<O::State>,
    said: &mut Vec<(u16, O::Item)>,
    out: &mut Vec<O::Item>,
) -> Result<(), AllocError>
    requires states { length states.old.items ≡ length graph.now }
    requires empty { said.old.items ≡ [] }
    ensures kept { length states.new.items ≡ length states.old.items }
    ensures ordered { CallersFirst (edges_of (wiring_of graph.now)) [] (closing_order (edges_of (wiring_of graph.now))) }
    ensures walks { let network = network_of O.behavior graph.now in
        OnOk result (Walk network states.old.items out.old.items (inputs network (item ∷ [])) states.new.items out.new.items) }
    ensures empty { OnOk result (said.new.items ≡ []) }
{
    if graph.nodes.is_empty() {
        out.push(item)?;
        return Ok(());
    }
    call(graph, alloc, 0, item, states, said, out)
}

/// The node is closed: it goes back to its start state, and what it emits is the answer.
fn close_node<O: Step>(
    graph: &Graph<O>,
    alloc: Global,
    node: u16,
    states: &mut Vec<O::State>,
) -> Result<Vec<(u16, O::Item)>, AllocError>
    requires node { node < length graph.now }
    requires states { length states.old.items ≡ length graph.now }
    ensures kept { length states.new.items ≡ length states.old.items }
    ensures state { OnOk result (states.new.items ≡ stepped (network_of O.behavior graph.now) states.old.items node None) }
    ensures said { let ports = ports_of (wiring_of graph.now) node in
        IfOk result (λ said. owed (deliveries ports said.items) ≡ sent (network_of O.behavior graph.now) states.old.items node None) }
{
    let mut said = Vec::new(alloc);
    let operator = &graph.nodes[node as usize].op;
    operator.close(alloc, &mut states[node as usize], &mut said)?;
    Ok(said)
}

/// One closing call of a node, and all that follows from it.
fn close_one<O: Step>(
    graph: &Graph<O>,
    alloc: Global,
    node: u16,
    states: &mut Vec<O::State>,
    out: &mut Vec<O::Item>,
) -> Result<(), AllocError>
    requires node { node < length graph.now }
    requires states { length states.old.items ≡ length graph.now }
    ensures kept { length states.new.items ≡ length states.old.items }
    ensures walks { OnOk result (Walk (network_of O.behavior graph.now) states.old.items out.old.items ((Node node, None) ∷ []) states.new.items out.new.items) }
{
    let said = close_node(graph, alloc, node, states)?;
    deliver_all(graph, alloc, node, said, states, out)
}

/// Closes each node, in closing order.
pub(super) fn close_all<O: Step>(
    graph: &Graph<O>,
    alloc: Global,
    states: &mut Vec<O::State>,
    out: &mut Vec<O::Item>,
) -> Result<(), AllocError>
    requires { length states.old.items ≡ length graph.now }
    ensures kept { length states.new.items ≡ length states.old.items }
    ensures ordered { CallersFirst (edges_of (wiring_of graph.now)) [] (closing_order (edges_of (wiring_of graph.now))) }
    ensures walks { let network = network_of O.behavior graph.now in
        OnOk result (Walk network states.old.items out.old.items (closings network) states.new.items out.new.items) }
{
    let order = graph.order.as_slice();
    for node in order {
        close_one(graph, alloc, *node, states, out)?;
    }
    Ok(())
}
