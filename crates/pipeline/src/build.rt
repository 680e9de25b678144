// Pipelines of settings.
ghost use Rattle.std.specs.Prelude.{◌≡◌, ◌≤◌, ◌<◌, ℕ, [], length, map, OnOk, IfOk, IfErr};
ghost use Rattle.graph_core.specs.Traces.{network_of, start_states};
ghost use Rattle.op_kinds.specs.Operator.{behavior_of};
ghost use Rattle.op_kinds.specs.States.{states_spelling};
ghost use Rattle.pipeline.specs.BuildFaults.{AreCompilable, IsBuildFault, IsOperatorFault, IsFineAt, refusal};
ghost use Rattle.pipeline.specs.Globs.{ArePatterns};
ghost use Rattle.pipeline.specs.GraphOutput.{StandsFor};
ghost use Rattle.pipeline.specs.Listed.{AreOperators};
ghost use Rattle.pipeline.specs.Parts.{settings_of, network, node_count, HaveKinds};
ghost use Rattle.pipeline.specs.RowStates.{IsStateOf};
ghost use Rattle.pipeline.specs.Splitters.{HasPattern};
ghost use Rattle.pipeline.specs.Wired.{AreNodes, IsNetwork, ids_of};
ghost use Rattle.settings_text.specs.Limits.{KeepsLimits};

use crate::globs::globs_of;
use crate::splitter::Splitter;
use crate::wiring::wired;
use crate::{BuildFault, FileState, Pipeline};
use glob_match::Glob;
use graph_core::{Graph, GraphFault, NodeSpec, Step, laws as graph};
use indexmap::IndexSet;
use op_kinds::{AnyOp, OpCause, compile};
use settings_text::{OpSpec, Settings};
use std::alloc::{AllocError, Global};
use std::collections::VecDeque;

impl Pipeline {
    /// The operators, each of which sends to those that its output names, or to the next one.
    pub fn build(alloc: Global, settings: Settings) -> Result<Pipeline, BuildFault>
        requires { KeepsLimits settings }
        ensures settings { IfOk result (λ pipeline. settings_of pipeline ≡ settings) }
        ensures network { IfOk result (λ pipeline. IsNetwork settings.operators (network pipeline)) }
        ensures include { IfOk result (λ pipeline. ArePatterns settings.include pipeline.include.items) }
        ensures exclude { IfOk result (λ pipeline. ArePatterns settings.exclude pipeline.exclude.items) }
        ensures multiline { OnOk result (HasPattern settings.multiline) }
        ensures fault { IfErr result (IsBuildFault settings) }
    {
        let include = globs_of(alloc, false, settings.include.as_slice())?;
        let exclude = globs_of(alloc, true, settings.exclude.as_slice())?;
        let splitter = Splitter::new(alloc, &settings.multiline)?;
        let graph = graph_of(alloc, settings.operators.as_slice())?;
        Ok(Pipeline {
            settings,
            include,
            exclude,
            splitter,
            graph,
        })
    }

    pub fn settings(&self) -> &Settings
        ensures { result.now ≡ settings_of self.now }
    {
        &self.settings
    }

    /// The globs of the files that are read.
    pub fn include(&self) -> &[Glob]
        ensures { result.now ≡ self.now.include.items }
    {
        &self.include
    }

    /// The globs of the files that are passed over, though an include matches them.
    pub fn exclude(&self) -> &[Glob]
        ensures { result.now ≡ self.now.exclude.items }
    {
        &self.exclude
    }

    /// The operators, with where each of them sends.
    pub fn graph(&self) -> &Graph<AnyOp>
        ensures { result.now ≡ self.now.graph }
    {
        &self.graph
    }

    /// Whether each line has the time at which it was made.
    pub fn stamps(&self) -> bool
        ensures { result ≡ (settings_of self.now).include_observed_time }
    {
        self.settings.include_observed_time
    }

    /// At which quiet look at a file what waits of it is flushed, or 0 for never.
    pub fn flush_after(&self) -> u32
        ensures { result ≡ (settings_of self.now).flush_after_polls }
    {
        self.settings.flush_after_polls
    }

    /// The state of a file of which nothing was taken.
    pub fn fresh(&self, alloc: Global) -> Result<FileState, AllocError>
        ensures stands { IfOk result (λ state. (path : _) → StandsFor (settings_of self.now) (network self.now) path [] state) }
        ensures many { IfOk result (λ state. length state.states.items ≡ node_count self.now) }
        ensures kinds { IfOk result (λ state. HaveKinds self.now state.states.items) }
        ensures counts { IfOk result (λ state. (state.records ≡ 0) × (state.lines ≡ 0)) }
        ensures spelled { IfOk result (IsStateOf self.now 0 0 (states_spelling (start_states (network self.now)))) }
    {
        graph::begin(&self.graph);
        let mut states = Vec::new(alloc);
        for node in self.graph.nodes() {
            states.push(node.op.start(alloc)?)?;
        }
        Ok(FileState {
            records: 0,
            lines: 0,
            states,
        })
    }
}

// The operators as their outputs wire them, or their first fault.
fn graph_of(alloc: Global, specs: &[OpSpec]) -> Result<Graph<AnyOp>, BuildFault>
    requires few { length specs.now ≤ 64 }
    requires compilable { AreCompilable specs.now }
    ensures network { IfOk result (λ graph. IsNetwork specs.now (network_of behavior_of graph)) }
    ensures fault { IfErr result (IsOperatorFault specs.now) }
{
    let nodes = nodes_of(alloc, specs)?;
    match Graph::build(alloc, nodes) {
        Ok(graph) => Ok(graph),
        Err(GraphFault::Memory) => Err(BuildFault::Memory),
        Err(fault) => Err(BuildFault::Graph(fault)),
    }
}

// The nodes of the operators, or the first fault among these.
fn nodes_of(alloc: Global, specs: &[OpSpec]) -> Result<Vec<NodeSpec<AnyOp>>, BuildFault>
    requires few { length specs.now ≤ 64 }
    requires compilable { AreCompilable specs.now }
    ensures nodes { IfOk result (λ nodes. AreNodes specs.now nodes.items) }
    ensures fine { OnOk result ((k : ℕ) → k < length specs.now → IsFineAt specs.now k) }
    ensures fault { IfErr result (IsOperatorFault specs.now) }
{
    let mut ids = IndexSet::new(alloc);
    let ops = ops_of(alloc, specs, &mut ids)?;
    Ok(wired(alloc, specs, &ids, ops)?)
}

// The operators, and their ids, which are none to begin with. Or the first fault among them.
fn ops_of<'s>(
    alloc: Global,
    specs: &'s [OpSpec],
    ids: &mut IndexSet<&'s str>,
) -> Result<VecDeque<AnyOp>, BuildFault>
    requires none { ids.old.keys ≡ [] }
    requires compilable { AreCompilable specs.now }
    ensures ids { OnOk result (map (λ id. id.now) ids.new.keys ≡ ids_of specs.now) }
    ensures ops { IfOk result (λ ops. AreOperators specs.now ops.items) }
    ensures fine { OnOk result ((k : ℕ) → k < length specs.now → IsFineAt specs.now k) }
    ensures fault { IfErr result (IsOperatorFault specs.now) }
{
    let mut ops = VecDeque::new(alloc);
    for (place, spec) in specs.iter().enumerate() {
        if !ids.insert(spec.id.as_str())? {
            return Err(BuildFault::SameId {
                place: place as u64,
            });
        }
        match compile(alloc, spec) {
            Ok(op) => ops.push_back(op)?,
            Err(cause) => return Err(refusal(place, cause)),
        }
    }
    Ok(ops)
}

fn refusal(place: usize, cause: OpCause) -> BuildFault
    ensures { result ≡ refusal place cause }
{
    match cause {
        OpCause::Memory => BuildFault::Memory,
        _ => BuildFault::Operator {
            place: place as u64,
            cause,
        },
    }
}
