//! The checks of `Graph::build`, on the targets of each node.

ghost use Rattle.std.specs.Prelude.{◌≡◌, slice_get, ℕ, ◌<◌, ◌≤◌, [], ◌∷◌, ◌++◌, List, length, map, MatchBool, IfOk, IfErr, OnOk, IfSome, IfNone, MatchOption, not, ◌||◌, ◌&&◌};
ghost use Rattle.graph_core.specs.declared.Target.TheVariants.{Node};
ghost use Rattle.graph_core.specs.Wiring.{wiring_of, edges_of, targets_of, same_target, Has};
ghost use Rattle.graph_core.specs.Closing.{closing_order, is_listed, is_ready, next_ready};
ghost use Rattle.graph_core.specs.Inner.Reach.{lists_of, is_past, add_target, add_targets, reached, capped_sum, capped_counts};
ghost use Rattle.graph_core.specs.Faults.{IsLeast, LeadsPast, LeadsNowherePast, Reaches, HasNoCycle, routes_from_first, IsAccepted, IsCause};
ghost use Rattle.graph_core.specs.Inner.Walk.{IsBuilt};
ghost use Rattle.std.specs.List.{flat_map, list_any};

use super::{GraphFault, NodeSpec, Target};
use std::alloc::{AllocError, Global};

/// The greatest number of routes that is counted.
const MOST_ROUTES: u16 = 1025;

/// All targets of a node, its ports in order.
fn targets_of_node<O>(node: &NodeSpec<O>, alloc: Global) -> Result<Vec<Target>, AllocError>
    ensures { IfOk result (λ targets. targets.items ≡ flat_map (λ port. port) (map (λ port. port.items) node.now.ports.items)) }
{
    let mut targets = Vec::new(alloc);
    for port in &node.ports {
        targets.extend_from_slice(port)?;
    }
    Ok(targets)
}

/// The targets of each node.
pub(super) fn edges_of_nodes<O>(
    alloc: Global,
    nodes: &[NodeSpec<O>],
) -> Result<Vec<Vec<Target>>, AllocError>
    ensures { IfOk result (λ edges. lists_of edges.items ≡ edges_of (wiring_of nodes.now)) }
{
    let mut edges = Vec::new(alloc);
    for node in nodes {
        edges.push(targets_of_node(node, alloc)?)?;
    }
    Ok(edges)
}

/// Whether a target is past a list of so many nodes.
fn is_past(to: Target, count: usize) -> bool
    ensures { result ≡ is_past count to }
{
    match to {
        Target::Node(node) => count <= node as usize,
        Target::Out => false,
    }
}

/// Whether one of the targets is.
fn leads_past(targets: &[Target], count: usize) -> bool
    ensures { result ≡ list_any (is_past count) targets.now }
{
    targets.iter().any(|to| is_past(*to, count))
}

/// The least node with a target past the list.
pub(super) fn least_past(edges: &[Vec<Target>]) -> Option<u16>
    requires { length edges.now ≤ 64 }
    ensures { MatchOption result (LeadsNowherePast (lists_of edges.now)) (IsLeast (LeadsPast (lists_of edges.now))) }
{
    for (node, targets) in edges.iter().enumerate() {
        if leads_past(targets, edges.len()) {
            return Some(node as u16);
        }
    }
    None
}

/// Adds a target that is a node, unless it is there.
fn add_target(seen: &mut Vec<u16>, to: Target) -> Result<(), AllocError>
    ensures { OnOk result (seen.new.items ≡ add_target seen.old.items to) }
{
    if let Target::Node(node) = to {
        if !seen.contains(&node) {
            seen.push(node)?;
        }
    }
    Ok(())
}

/// Adds the nodes among the targets that aren't there yet.
fn add_targets(seen: &mut Vec<u16>, targets: &[Target]) -> Result<(), AllocError>
    ensures { OnOk result (seen.new.items ≡ add_targets seen.old.items targets.now) }
{
    for to in targets {
        add_target(seen, *to)?;
    }
    Ok(())
}

/// Adds the targets of a node.
fn add_targets_of(seen: &mut Vec<u16>, edges: &[Vec<Target>], node: u16) -> Result<(), AllocError>
    ensures { OnOk result (seen.new.items ≡ add_targets seen.old.items (targets_of (lists_of edges.now) node)) }
{
    match edges.get(node as usize) {
        Some(targets) => add_targets(seen, targets),
        None => Ok(()),
    }
}

/// The node at a place.
fn node_at(seen: &[u16], place: usize) -> Option<u16>
    ensures { result ≡ slice_get seen.now place }
{
    seen.get(place).copied()
}

/// The nodes that a node reaches.
fn reached_from(alloc: Global, edges: &[Vec<Target>], node: u16) -> Result<Vec<u16>, AllocError>
    ensures { IfOk result (λ seen. seen.items ≡ reached (lists_of edges.now) node) }
{
    let mut seen = Vec::new(alloc);
    add_targets_of(&mut seen, edges, node)?;
    for place in 0..edges.len() {
        let Some(next) = node_at(&seen, place) else {
            break;
        };
        add_targets_of(&mut seen, edges, next)?;
    }
    Ok(seen)
}

/// The least node that reaches itself.
pub(super) fn least_on_cycle(
    alloc: Global,
    edges: &[Vec<Target>],
) -> Result<Option<u16>, AllocError>
    requires few { length edges.now ≤ 64 }
    requires within { LeadsNowherePast (lists_of edges.now) }
    ensures { IfOk result (λ found. MatchOption found (HasNoCycle (lists_of edges.now)) (IsLeast (λ v. Reaches (lists_of edges.now) v v))) }
{
    for start in 0..edges.len() {
        let seen = reached_from(alloc, edges, start as u16)?;
        if seen.contains(&(start as u16)) {
            return Ok(Some(start as u16));
        }
    }
    Ok(None)
}

/// Whether a target is the node.
fn is_node(to: Target, node: u16) -> bool
    ensures { result ≡ same_target (Node node) to }
{
    match to {
        Target::Node(other) => node == other,
        Target::Out => false,
    }
}

/// Whether the node is among the targets.
fn calls(targets: &[Target], node: u16) -> bool
    ensures { result ≡ list_any (same_target (Node node)) targets.now }
{
    targets.iter().any(|to| is_node(*to, node))
}

/// Whether the node isn't among the caller's targets, or the caller is listed.
fn is_settled(targets: &[Target], listed: &[u16], caller: u16, node: u16) -> bool
    ensures { result ≡ not (list_any (same_target (Node node)) targets.now) || is_listed listed.now caller }
{
    !calls(targets, node) || listed.contains(&caller)
}

/// Whether all callers of the node are listed.
fn is_ready(edges: &[Vec<Target>], listed: &[u16], node: u16) -> bool
    requires { length edges.now ≤ 64 }
    ensures { result ≡ is_ready (lists_of edges.now) listed.now node }
{
    for (caller, targets) in edges.iter().enumerate() {
        if !is_settled(targets, listed, caller as u16, node) {
            return false;
        }
    }
    true
}

/// Whether the node comes next: it isn't listed, and all its callers are.
fn is_next(edges: &[Vec<Target>], listed: &[u16], node: u16) -> bool
    requires { length edges.now ≤ 64 }
    ensures { result ≡ not (is_listed listed.now node) && is_ready (lists_of edges.now) listed.now node }
{
    !listed.contains(&node) && is_ready(edges, listed, node)
}

/// The least node that comes next.
fn next_ready(edges: &[Vec<Target>], listed: &[u16]) -> Option<u16>
    requires { length edges.now ≤ 64 }
    ensures { result ≡ next_ready (lists_of edges.now) listed.now }
{
    for node in 0..edges.len() {
        if is_next(edges, listed, node as u16) {
            return Some(node as u16);
        }
    }
    None
}

/// The nodes in closing order.
pub(super) fn closing_order(alloc: Global, edges: &[Vec<Target>]) -> Result<Vec<u16>, AllocError>
    requires { length edges.now ≤ 64 }
    ensures { IfOk result (λ order. order.items ≡ closing_order (lists_of edges.now)) }
{
    let mut order = Vec::new(alloc);
    for _step in 0..edges.len() {
        let Some(node) = next_ready(edges, &order) else {
            break;
        };
        order.push(node)?;
    }
    Ok(order)
}

/// How many routes lead on from these targets, counted up to the greatest number.
fn routes_through(targets: &[Target], counts: &[u16]) -> u16
    ensures { result ≡ capped_sum counts.now 0 targets.now }
{
    let mut total: u16 = 0;
    for to in targets {
        let more = match to {
            Target::Out => 1,
            Target::Node(node) => counts.get(*node as usize).copied().unwrap_or(0),
        };
        total = total.saturating_add(more).min(MOST_ROUTES);
    }
    total
}

/// The routes from each node through at most one node more.
fn next_counts(alloc: Global, edges: &[Vec<Target>], counts: &[u16]) -> Result<Vec<u16>, AllocError>
    ensures { IfOk result (λ next. next.items ≡ map (λ targets. capped_sum counts.now 0 targets) (lists_of edges.now)) }
{
    let mut next = Vec::new(alloc);
    for targets in edges {
        next.push(routes_through(targets, counts))?;
    }
    Ok(next)
}

/// The routes from each node to the output, counted up to the greatest number.
pub(super) fn route_counts(alloc: Global, edges: &[Vec<Target>]) -> Result<Vec<u16>, AllocError>
    ensures { IfOk result (λ counts. counts.items ≡ capped_counts (lists_of edges.now) (length edges.now)) }
{
    let mut counts = vec![in alloc; 0; edges.len()]?;
    for _step in 0..edges.len() {
        counts = next_counts(alloc, edges, &counts)?;
    }
    Ok(counts)
}

/// Whether more routes than are allowed lead from the first node to the output.
fn has_too_many_routes(alloc: Global, edges: &[Vec<Target>]) -> Result<bool, AllocError>
    ensures { let routes = routes_from_first (lists_of edges.now) in
        IfOk result (λ many. MatchBool many (1024 < routes) (routes ≤ 1024)) }
{
    let counts = route_counts(alloc, edges)?;
    let routes = routes_through(&[Target::Node(0)], &counts);
    Ok(routes > 1024)
}

/// The closing order, or why there is none.
pub(super) fn order_of(alloc: Global, edges: &[Vec<Target>]) -> Result<Vec<u16>, GraphFault>
    requires { length edges.now ≤ 64 }
    ensures accepted { IfOk result (λ order. IsAccepted (lists_of edges.now) × IsBuilt (lists_of edges.now) order.items) }
    ensures refused { IfErr result (IsCause (lists_of edges.now)) }
{
    if let Some(node) = least_past(edges) {
        return Err(GraphFault::NoSuchNode { node });
    }
    if let Some(node) = least_on_cycle(alloc, edges)? {
        return Err(GraphFault::Cycle { node });
    }
    if has_too_many_routes(alloc, edges)? {
        return Err(GraphFault::TooManyPaths);
    }
    Ok(closing_order(alloc, edges)?)
}
