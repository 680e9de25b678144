// Where operators send.
ghost use Rattle.std.specs.Prelude.{◌≡◌, ◌≤◌, ◌<◌, ◌+◌, [], ◌∷◌, ◌++◌, length, map, IfOk};
ghost use Rattle.pipeline.specs.Listed.{AreOperators};
ghost use Rattle.pipeline.specs.Wired as spec;
ghost use Rattle.pipeline.specs.Wired.{AreNodes, ids_of, ports_for, default_ports, target_named, targets_named};

use entry_model::Text;
use graph_core::{NodeSpec, Target};
use indexmap::IndexSet;
use op_kinds::AnyOp;
use settings_text::{OpKind, OpSpec, RouteSpec, Texts};
use std::alloc::{AllocError, Global};
use std::collections::VecDeque;

/// The nodes of the operators, which have these ids in this order.
pub(crate) fn wired(
    alloc: Global,
    specs: &[OpSpec],
    ids: &IndexSet<&str>,
    mut ops: VecDeque<AnyOp>,
) -> Result<Vec<NodeSpec<AnyOp>>, AllocError>
    requires few { length specs.now ≤ 64 }
    requires ids { map (λ id. id.now) ids.now.keys ≡ ids_of specs.now }
    requires ops { AreOperators specs.now ops.items }
    ensures { IfOk result (λ nodes. AreNodes specs.now nodes.items) }
{
    let mut nodes = Vec::new(alloc);
    'wiring: while let Some(op) = ops.pop_front() {
        let place = nodes.len();
        let ports = ports_of(alloc, ids, place, &specs[place])?;
        nodes.push(NodeSpec { op, ports })?;
    }
    Ok(nodes)
}

fn ports_of(
    alloc: Global,
    ids: &IndexSet<&str>,
    place: usize,
    spec: &OpSpec,
) -> Result<Vec<Vec<Target>>, AllocError>
    requires few { length ids.now.keys ≤ 64 }
    requires within { place < length ids.now.keys }
    ensures { IfOk result (λ ports. map (λ port. port.items) ports.items
        ≡ ports_for (map (λ id. id.now) ids.now.keys) place spec.now.output spec.now.kind) }
{
    match &spec.kind {
        OpKind::Router { routes, default } => router_ports(alloc, ids, routes.as_slice(), default),
        _ => {
            let mut ports = Vec::new(alloc);
            ports.push(output_targets(alloc, ids, place, &spec.output)?)?;
            Ok(ports)
        }
    }
}

fn router_ports(
    alloc: Global,
    ids: &IndexSet<&str>,
    routes: &[RouteSpec],
    default: &Option<Texts>,
) -> Result<Vec<Vec<Target>>, AllocError>
    requires few { length ids.now.keys ≤ 64 }
    ensures { IfOk result (λ ports. map (λ port. port.items) ports.items
        ≡ map (λ route. targets_named (map (λ id. id.now) ids.now.keys) route.output) routes.now
        ++ default_ports (map (λ id. id.now) ids.now.keys) default.now) }
{
    let mut ports = Vec::new(alloc);
    for route in routes {
        ports.push(targets_of(alloc, ids, route.output.as_slice())?)?;
    }
    if let Some(names) = default {
        ports.push(targets_of(alloc, ids, names.as_slice())?)?;
    }
    Ok(ports)
}

fn output_targets(
    alloc: Global,
    ids: &IndexSet<&str>,
    place: usize,
    output: &Option<Texts>,
) -> Result<Vec<Target>, AllocError>
    requires few { length ids.now.keys ≤ 64 }
    requires within { place < length ids.now.keys }
    ensures { IfOk result (λ targets. targets.items
        ≡ spec.output_targets (map (λ id. id.now) ids.now.keys) place output.now) }
{
    match output {
        Some(names) => targets_of(alloc, ids, names.as_slice()),
        None => {
            let mut targets = Vec::new(alloc);
            targets.push(next_target(ids.len(), place))?;
            Ok(targets)
        }
    }
}

fn targets_of(
    alloc: Global,
    ids: &IndexSet<&str>,
    names: &[Text],
) -> Result<Vec<Target>, AllocError>
    requires { length ids.now.keys ≤ 64 }
    ensures { IfOk result (λ targets. targets.items ≡ targets_named (map (λ id. id.now) ids.now.keys) names.now) }
{
    let mut targets = Vec::new(alloc);
    for name in names {
        targets.push(target_of(ids, name.as_str()))?;
    }
    Ok(targets)
}

/// The operator with this id, or a node past the list, which the graph refuses.
fn target_of(ids: &IndexSet<&str>, name: &str) -> Target
    requires { length ids.now.keys ≤ 64 }
    ensures { result ≡ target_named (map (λ id. id.now) ids.now.keys) name.now }
{
    let place = ids.get_index_of(name).unwrap_or(ids.len());
    Target::Node(place as u16)
}

/// The next of so many operators, and behind the last one the output.
fn next_target(count: usize, place: usize) -> Target
    requires { place < count × count ≤ 64 }
    ensures { result ≡ spec.next_target count place }
{
    if place + 1 < count {
        Target::Node((place + 1) as u16)
    } else {
        Target::Out
    }
}
