// Calls of a run.
ghost use Rattle.std.specs.Prelude.{◌≡◌, ◌++◌, filter_map, IfOk, OnOk};
ghost use Rattle.std.specs.Option.{option_to_list};

use graph_core::Target;
use std::alloc::{AllocError, Global};
use std::collections::VecDeque;
use std::marker::Model;

/// A call of a node, or an item that goes out. Contracts see it as the call of `graph_core`'s traces.
#[derive(Drop)]
pub(crate) struct Call<I> {
    pub(crate) to: Target,
    /// Where it stands among all calls.
    pub(crate) at: Vec<usize>,
    /// What is handed over; none where the node is closed.
    pub(crate) item: Option<I>,
}

impl<I> Model for Call<I> {
    ghost use Rattle.graph_core.specs.Traces as traces;

    ghost Value = { traces.Call I };

    ghost view = { λ call. record { to = call.to; at = call.at.items; item = call.item } };
}

impl<I> Call<I> {
    pub(crate) fn to(&self) -> Target
        ensures { result ≡ self.now.to }
    {
        self.to
    }

    pub(crate) fn at(&self) -> &[usize]
        ensures { result.now ≡ self.now.at }
    {
        &self.at
    }

    /// Its address, and what it hands over.
    pub(crate) fn into_parts(self) -> (Vec<usize>, Option<I>)
        ensures at { result.0.items ≡ self.at }
        ensures item { result.1 ≡ self.item }
    {
        (self.at, self.item)
    }
}

fn add_item<I: Drop>(items: &mut Vec<I>, item: Option<I>) -> Result<(), AllocError>
    ensures { OnOk result (items.new.items ≡ items.old.items ++ option_to_list item) }
{
    let Some(item) = item else {
        return Ok(());
    };
    items.push(item)?;
    Ok(())
}

/// What the calls hand over.
#[tactic(auto, using(crate::proofs::Adding::handed_more))]
pub(crate) fn items_of<I: Drop>(
    alloc: Global,
    calls: VecDeque<Call<I>>,
) -> Result<Vec<I>, AllocError>
    ensures { IfOk result (λ items. items.items ≡ filter_map (λ call. call.item) calls.items) }
{
    let mut items = Vec::new(alloc);
    for call in calls {
        let (_at, item) = call.into_parts();
        add_item(&mut items, item)?;
    }
    Ok(items)
}
