// Why there is no pipeline, in words.
use graph_core::GraphFault;
use op_kinds::OpCause;
use pipeline::BuildFault;
use std::alloc::{AllocError, Global};

pub fn refusal(alloc: Global, fault: BuildFault) -> Result<String, AllocError> {
    match fault {
        BuildFault::Glob {
            exclude: false,
            place,
            at,
        } => format!(in alloc; "Glob include {place} {at}"),
        BuildFault::Glob {
            exclude: true,
            place,
            at,
        } => format!(in alloc; "Glob exclude {place} {at}"),
        BuildFault::Multiline => String::from_str(alloc, "Multiline"),
        BuildFault::SameId { place } => format!(in alloc; "SameId {place}"),
        BuildFault::Operator { place, cause } => operator_refusal(alloc, place, cause),
        BuildFault::Graph(fault) => graph_refusal(alloc, fault),
        BuildFault::Memory => Err(AllocError),
    }
}

fn graph_refusal(alloc: Global, fault: GraphFault) -> Result<String, AllocError> {
    match fault {
        GraphFault::NoSuchNode { node } => format!(in alloc; "Graph no such node {node}"),
        GraphFault::Cycle { node } => format!(in alloc; "Graph cycle {node}"),
        GraphFault::TooManyPaths => String::from_str(alloc, "Graph too many paths"),
        GraphFault::Memory => Err(AllocError),
    }
}

fn operator_refusal(alloc: Global, place: u64, cause: OpCause) -> Result<String, AllocError> {
    match cause {
        OpCause::Path { at } => format!(in alloc; "Operator {place} path {at}"),
        OpCause::Expr { at } => format!(in alloc; "Operator {place} expr {at}"),
        OpCause::Pattern => format!(in alloc; "Operator {place} pattern"),
        OpCause::Layout { at } => format!(in alloc; "Operator {place} layout {at}"),
        OpCause::NoNames => format!(in alloc; "Operator {place} no names"),
        OpCause::Memory => Err(AllocError),
    }
}
