//! A graph of operators, each with a state of its own, through which items are pushed one at a time.
//!
//! An operator is any type that implements [`Step`]: a function of its state and an item, which emits
//! items on numbered ports. [`Graph::build`] takes a list of nodes, each an operator with the targets of
//! its ports, and refuses a target past the list, a cycle, and more than 1,024 routes from the first node
//! to the output. [`Graph::push`] hands one item to the first node and follows every emission depth
//! first: it goes to its port's targets in listed order, and one target's whole effect comes before the
//! next. [`Graph::close`] closes each node once, callers before the nodes that they call, so that what an
//! operator holds back comes out, and leaves every state the start state.
//!
//! **The contract for the layer above.** What comes out is defined on whole lists of items, node by node,
//! in `specs/Traces.antt`: each call has an address, a node's trace is all calls to it by address, and what
//! a node emits is the fold of its behavior over its trace. `Served network from before requests after out`
//! says that the states `after` and the output `out` are what these traces give for the requests, from the
//! states `from` and the output `before` on. Every push turns `Served` for some inputs into `Served` for
//! those and one more, and the close turns it into `Served` for the closed run. So over a list of pushes
//! from the start states the output is the trace of the output. [`laws`] has what holds of the definition
//! itself: the prefix law, and a relation without any order of nodes that determines the same traces.
//!
//! A push costs in proportion to the calls that it makes. An item goes to its last target without a copy.
#![tactic(auto)]

ghost use Rattle.std.specs.Prelude.{◌≡◌, ℕ, ◌≤◌, [], ◌∷◌, ◌++◌, List, length, IfOk, IfErr, OnOk};
ghost use Rattle.graph_core.specs.Wiring.{wiring_of, edges_of};
ghost use Rattle.graph_core.specs.Closing.{closing_order};
ghost use Rattle.graph_core.specs.Faults.{IsAccepted, IsCause};
ghost use Rattle.graph_core.specs.Traces.{network_of, start_states, inputs, closings, Served};

mod build;
pub mod laws;
mod walk;

use std::alloc::{AllocError, Global};
use std::marker::Model;
use thiserror::Error;

/// An operator: a function of its state and an item.
///
/// `behavior` is what it does, as functions. The laws are that each emission is on a port below
/// `port_count`. Each call that takes an allocator may answer want of memory, and then nothing is said of
/// the state and of what was emitted.
pub trait Step {
    ghost use Rattle.std.specs.Prelude.{◌≡◌, ℕ, ◌<◌, ◌++◌, IfOk, OnOk, All};
    ghost use Rattle.graph_core.specs.Behavior.{Behavior};

    type Item: Drop;

    type State: Drop;

    ghost port_count: { Self → ℕ };

    ghost behavior: { Self → Behavior Self.State Self.Item };

    /// How many ports the operator emits on.
    fn ports(&self) -> u16
        ensures { result ≡ port_count self.now };

    /// The start state.
    fn start(&self, alloc: Global) -> Result<Self::State, AllocError>
        ensures { IfOk result (λ state. state ≡ (behavior self.now).first) };

    /// A copy that equals the item.
    fn copy(&self, alloc: Global, item: &Self::Item) -> Result<Self::Item, AllocError>
        ensures { IfOk result (λ copy. copy ≡ item.now) };

    /// Takes an item, and adds what it emits to `out`, each item with its port.
    fn step(
        &self,
        alloc: Global,
        state: &mut Self::State,
        item: Self::Item,
        out: &mut Vec<(u16, Self::Item)>,
    ) -> Result<(), AllocError>
        ensures state { OnOk result (state.new ≡ (behavior self.now).after state.old item) }
        ensures emits { OnOk result (out.new.items ≡ out.old.items ++ (behavior self.now).emitted state.old item) };

    /// Ends a run: adds what is emitted then to `out`, and goes back to the start state.
    fn close(
        &self,
        alloc: Global,
        state: &mut Self::State,
        out: &mut Vec<(u16, Self::Item)>,
    ) -> Result<(), AllocError>
        ensures state { OnOk result (state.new ≡ (behavior self.now).first) }
        ensures emits { OnOk result (out.new.items ≡ out.old.items ++ (behavior self.now).closed state.old) };

    ghost emits_in_ports: { (op : Self) (state : Self.State) (item : Self.Item) → All (λ e. e.0 < port_count op) ((behavior op).emitted state item) };

    ghost closes_in_ports: { (op : Self) (state : Self.State) → All (λ e. e.0 < port_count op) ((behavior op).closed state) };
}

/// Where a port leads: to a node, by its place in the list, or out of the graph.
#[derive(Clone, Copy, Debug, PartialEq, Eq)]
pub enum Target {
    Node(u16),
    Out,
}

/// An operator and the targets of each of its ports, in the order in which they are served. What is
/// emitted on a port past the list, or on one without targets, goes nowhere.
#[derive(Drop)]
pub struct NodeSpec<O> {
    pub op: O,
    pub ports: Vec<Vec<Target>>,
}

/// Why nodes make no graph. A node is named by its place in the list.
#[derive(Clone, Copy, Debug, PartialEq, Eq, Error)]
pub enum GraphFault {
    /// The least node with a target past the list.
    #[error("node {node} has a target that is not there")]
    NoSuchNode { node: u16 },
    /// Every target is there, and this is the least node that reaches itself.
    #[error("node {node} is on a cycle")]
    Cycle { node: u16 },
    /// There is no cycle, and more than 1,024 routes lead from the first node out of the graph.
    #[error("there are more than 1024 routes through the graph")]
    TooManyPaths,
    /// Memory ran out.
    #[error("out of memory")]
    Memory,
}

impl From<AllocError> for GraphFault {
    ghost use Rattle.std.specs.Prelude.{◌≡◌};
    ghost use Rattle.graph_core.specs.declared.GraphFault.TheVariants.{Memory};

    ghost from_gives = { λ _ fault. fault ≡ Memory };

    fn from(_error: AllocError) -> GraphFault {
        GraphFault::Memory
    }
}

/// Nodes without a cycle. A clause sees the list of its nodes.
#[derive(Drop)]
pub struct Graph<O> {
    nodes: Vec<NodeSpec<O>>,
    order: Vec<u16>,
}

impl<O> Model for Graph<O> {
    ghost use Rattle.std.specs.Prelude.{List};
    ghost use Rattle.graph_core.specs.declared.NodeSpec.{NodeSpec};

    ghost Value = { List (NodeSpec O) };

    ghost use Rattle.graph_core.specs.Wiring.{wiring_of, edges_of};
    ghost use Rattle.graph_core.specs.Inner.Walk.{IsBuilt};

    ghost view = { λ graph. graph.nodes.items };

    ghost invariant = { λ graph. IsBuilt (edges_of (wiring_of graph.nodes.items)) graph.order.items };
}

impl<O: Drop> Graph<O> {
    /// The graph of these nodes, or the first of its faults, in the order of [`GraphFault`].
    pub fn build(alloc: Global, nodes: Vec<NodeSpec<O>>) -> Result<Graph<O>, GraphFault>
        requires { length nodes.items ≤ 64 }
        ensures accepted { IfOk result (λ graph. (graph ≡ nodes.items) × IsAccepted (edges_of (wiring_of nodes.items))) }
        ensures refused { IfErr result (IsCause (edges_of (wiring_of nodes.items))) }
    {
        let edges = build::edges_of_nodes(alloc, &nodes)?;
        let order = build::order_of(alloc, &edges)?;
        Ok(Graph { nodes, order })
    }
}

impl<O: Step> Graph<O> {
    /// Hands the item to the first node, or to `out` where there is none, and follows all that comes of
    /// it. `states` has the state of each node. After want of memory nothing is said of what the states
    /// and the output hold.
    pub fn push(
        &self,
        alloc: Global,
        states: &mut Vec<O::State>,
        item: O::Item,
        out: &mut Vec<O::Item>,
    ) -> Result<(), AllocError>
        requires { length states.old.items ≡ length self.now }
        ensures kept { length states.new.items ≡ length states.old.items }

        // One input, from the states handed in.
        ensures served { let network = network_of O.behavior self.now in
            OnOk result (Served network states.old.items out.old.items (inputs network (item ∷ [])) states.new.items out.new.items) }

        // One input more, where the states and the output stand for earlier ones.
        ensures one_more { let network = network_of O.behavior self.now in
            OnOk result ((from : List O.State) (before earlier : List O.Item)
            → Served network from before (inputs network earlier) states.old.items out.old.items
            → Served network from before (inputs network (earlier ++ item ∷ [])) states.new.items out.new.items) }
    {
        self.push_by(alloc, states, item, &mut Vec::new(alloc), out)
    }

    /// As [`push`](Graph::push), with a list for what a node emits, which is empty before and after. A caller that keeps it
    /// from push to push saves its memory: where each node emits one item for one target, nothing else is taken.
    pub fn push_by(
        &self,
        alloc: Global,
        states: &mut Vec<O::State>,
        item: O::Item,
        emitted: &mut Vec<(u16, O::Item)>,
        out: &mut Vec<O::Item>,
    ) -> Result<(), AllocError>
        requires states { length states.old.items ≡ length self.now }
        requires empty { emitted.old.items ≡ [] }
        ensures kept { length states.new.items ≡ length states.old.items }
        ensures empty { OnOk result (emitted.new.items ≡ []) }
        ensures served { let network = network_of O.behavior self.now in
            OnOk result (Served network states.old.items out.old.items (inputs network (item ∷ [])) states.new.items out.new.items) }
        ensures one_more { let network = network_of O.behavior self.now in
            OnOk result ((from : List O.State) (before earlier : List O.Item)
            → Served network from before (inputs network earlier) states.old.items out.old.items
            → Served network from before (inputs network (earlier ++ item ∷ [])) states.new.items out.new.items) }
    {
        walk::enter(self, alloc, item, states, emitted, out)
    }

    /// Closes each node once: again and again the least one that isn't closed and all of whose callers
    /// are. What a node emits then goes to its targets as in a push. After want of memory nothing is said
    /// of what the states and the output hold.
    pub fn close(
        &self,
        alloc: Global,
        states: &mut Vec<O::State>,
        out: &mut Vec<O::Item>,
    ) -> Result<(), AllocError>
        requires { length states.old.items ≡ length self.now }
        ensures kept { length states.new.items ≡ length states.old.items }

        // The closing calls, from the states handed in.
        ensures served { let network = network_of O.behavior self.now in
            OnOk result (Served network states.old.items out.old.items (closings network) states.new.items out.new.items) }

        // The closed run, where the states and the output stand for earlier inputs.
        ensures closed_run { let network = network_of O.behavior self.now in
            OnOk result ((from : List O.State) (before earlier : List O.Item)
            → Served network from before (inputs network earlier) states.old.items out.old.items
            → Served network from before (inputs network earlier ++ closings network) states.new.items out.new.items) }
        ensures fresh { OnOk result (states.new.items ≡ start_states (network_of O.behavior self.now)) }
    {
        walk::close_all(self, alloc, states, out)
    }

    /// The places of the nodes in the order in which [`close`](Graph::close) closes them.
    pub fn closing(&self) -> &[u16]
        ensures { result.now ≡ closing_order (edges_of (wiring_of self.now)) }
    {
        self.order.as_slice()
    }

    /// The nodes, as they were handed in.
    pub fn nodes(&self) -> &[NodeSpec<O>]
        ensures { result.now ≡ self.now }
    {
        &self.nodes
    }
}
