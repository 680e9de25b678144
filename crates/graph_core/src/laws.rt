//! Laws of the definitions, for every built graph. The functions do nothing; their clauses are the laws.

ghost use Rattle.std.specs.Prelude.{◌≡◌, ◌≤◌, ℕ, [], ◌++◌, Bool, List, map, Option, Some, length, slice_get};
ghost use Rattle.graph_core.specs.Behavior.{Behavior, KeepsSort};
ghost use Rattle.graph_core.specs.declared.Target.{Target};
ghost use Rattle.graph_core.specs.Wiring.{wiring_of, edges_of};
ghost use Rattle.graph_core.specs.Faults.{route_count};
ghost use Rattle.graph_core.specs.Closing.{closing_order, CallersFirst};
ghost use Rattle.graph_core.specs.Traces.{network_of, calls_for, calls_to, trace, numbered, states_after, outputs, inputs, closings, Served, Call};
ghost use Rattle.graph_core.specs.Runs.{IsRun};

use super::{Graph, Step};

/// The closing order has every node once, after all its callers.
pub fn list_callers_first<O: Step>(graph: &Graph<O>)
    ensures { let edges = edges_of (wiring_of graph.now) in
        CallersFirst edges [] (closing_order edges) }
{
    let _order = &graph.order;
}

/// No route has more nodes than the graph: counting through more gives no more.
pub fn count_all_routes<O: Step>(graph: &Graph<O>)
    ensures { let edges = edges_of (wiring_of graph.now) in
        (steps : ℕ) → length edges ≤ steps → (to : Target) → route_count edges steps to ≡ route_count edges (length edges) to }
{
    let _order = &graph.order;
}

/// Before any request the states and the output stand for no inputs.
pub fn begin<O: Step>(graph: &Graph<O>)
    ensures { let network = network_of O.behavior graph.now in
        (from : List O.State) (before : List O.Item) → Served network from before (inputs network []) from before }
{
    let _order = &graph.order;
}

/// Requests after requests go on from the states that those leave, and add to what those put out.
pub fn go_on<O: Step>(graph: &Graph<O>)
    ensures states { let network = network_of O.behavior graph.now in
        (from : List O.State) (earlier later : List (Target × Option O.Item))
        → states_after network from (earlier ++ later) ≡ states_after network (states_after network from earlier) later }
    ensures items { let network = network_of O.behavior graph.now in
        (from : List O.State) (earlier later : List (Target × Option O.Item))
        → outputs network from (earlier ++ later) ≡ outputs network from earlier ++ outputs network (states_after network from earlier) later }
{
    let _order = &graph.order;
}

/// What inputs put out is a prefix of what they and more inputs do, and of what the closed run does.
pub fn keep_prefix<O: Step>(graph: &Graph<O>)
    ensures more_inputs { let network = network_of O.behavior graph.now in
        (from : List O.State) (items more : List O.Item)
        → (rest : List O.Item) × (outputs network from (inputs network (items ++ more)) ≡ outputs network from (inputs network items) ++ rest) }
    ensures closed_run { let network = network_of O.behavior graph.now in
        (from : List O.State) (items : List O.Item)
        → (rest : List O.Item) × (outputs network from (inputs network items ++ closings network) ≡ outputs network from (inputs network items) ++ rest) }
{
    let _order = &graph.order;
}

/// The relation without an order of nodes: there is a run, and every run has the traces of the definition.
pub fn determine_runs<O: Step>(graph: &Graph<O>)
    ensures some_run { let network = network_of O.behavior graph.now in
        (from : List O.State) (requests : List (Target × Option O.Item))
        → (calls : List (Call O.Item)) × IsRun network from (numbered 0 requests) calls }
    ensures every_run { let network = network_of O.behavior graph.now in
        (from : List O.State) (requests : List (Target × Option O.Item)) (calls : List (Call O.Item))
        → IsRun network from (numbered 0 requests) calls
        → (to : Target) → calls_to to calls ≡ trace to (calls_for network from requests) }
{
    let _order = &graph.order;
}

/// What each operator's steps keep of its state, the states keep over any requests: where each operator begins with a state
/// of its sort and has one of its sort behind each item, the states stay of the operators' sorts.
pub fn keep_sorts<O: Step>(graph: &Graph<O>)
    ensures { let network = network_of O.behavior graph.now in
        (sort : O.State → Bool) (sorts : List Bool)
        → ((node : ℕ) (wanted : Bool) (behavior : Behavior O.State O.Item) → slice_get sorts node ≡ Some wanted → slice_get network.behaviors node ≡ Some behavior → KeepsSort sort wanted behavior)
        → (from : List O.State) → map sort from ≡ sorts
        → (requests : List (Target × Option O.Item)) → map sort (states_after network from requests) ≡ sorts }
{
    let _order = &graph.order;
}
