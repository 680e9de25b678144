//! What a graph of operators makes of a whole list of items, node by node.
//!
//! `graph_core` goes through a graph depth first, one item at a time. Here the same is found out another way, the way in which
//! its definition is written: all calls of a node are brought together, put in the order of their addresses and served in one go,
//! and what the node emits are further calls, of nodes that come later. Nodes are taken in closing order, so that a node's
//! callers come before it.
//!
//! **The contract for the layer above.** [`run`] leaves the states and gives the items that `graph_core`'s definition of traces
//! gives for the inputs, and for the closing calls where these are asked for (`Served`). So it agrees with `Graph::push` and
//! `Graph::close`, with which it shares no code but that of the operators.
//!
//! A run holds the calls of a whole list in memory at a time. It takes time in proportion to the calls and the length of their
//! addresses, and, where the calls of a node don't come in order, to the logarithm of their number.
#![tactic(auto)]

ghost use Rattle.std.specs.Prelude.{◌≡◌, [], length, IfOk};
ghost use Rattle.graph_core.specs.Closing.{closing_order};
ghost use Rattle.graph_core.specs.Wiring.{wiring_of, edges_of};
ghost use Rattle.graph_core.specs.Traces.{network_of, Served};
ghost use Rattle.whole_runs.specs.Requests.{requests};

mod ascending;
mod call;
mod deliver;
mod roots;
mod serve;

use graph_core::laws::list_callers_first;
use graph_core::{Graph, Step, Target};
use std::alloc::{AllocError, Global};

/// The items that come out for a list of inputs from these states, which move on; where it is `closed`, each node is closed
/// behind them. `states` has the state of each node. After want of memory nothing is said of what the states hold.
pub fn run<O: Step>(
    graph: &Graph<O>,
    order: &[u16],
    alloc: Global,
    states: &mut Vec<O::State>,
    items: Vec<O::Item>,
    closed: bool,
) -> Result<Vec<O::Item>, AllocError>
    requires order { order.now ≡ closing_order (edges_of (wiring_of graph.now)) }
    requires states { length states.old.items ≡ length graph.now }
    ensures kept { length states.new.items ≡ length states.old.items }
    ensures served { let network = network_of O.behavior graph.now in
        IfOk result (λ out. Served network states.old.items [] (requests network items.items closed) states.new.items out.items) }
{
    list_callers_first(graph);
    let calls = roots::roots(graph, order, alloc, items, closed)?;
    let left = serve::serve_all(graph, order, alloc, states, calls)?;
    let (out, _others) = serve::parted(alloc, Target::Out, left)?;
    let trace = ascending::sorted(alloc, out)?;
    call::items_of(alloc, trace)
}
