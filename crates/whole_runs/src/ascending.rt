// Calls in the order of their addresses.
ghost use Rattle.std.specs.Prelude.{◌≡◌, ◌<◌, ◌≤◌, true, false, [], ◌++◌, length, IfOk, IfSome, IfNone};
ghost use Rattle.graph_core.specs.Runs.{IsAscending};
ghost use Rattle.graph_core.specs.Traces as traces;
ghost use Rattle.whole_runs.specs.Inner.TakesFirst.{HasAddress, TakesFirst};
ghost use Rattle.whole_runs.specs.Inner.Turns.{IsFrontsTurn, IsBacksTurn, HaveOneFirst, IsTurn};

use crate::call::Call;
use std::alloc::{AllocError, Global};
use std::collections::VecDeque;

/// Whether an address comes before another: in dictionary order, a prefix first.
fn is_before(at: &[usize], other: &[usize]) -> bool
    ensures { result ≡ traces.is_before at.now other.now }
{
    at.cmp(&other).is_lt()
}

/// The address of the call at a place.
fn address_of<I>(calls: &VecDeque<Call<I>>, place: usize) -> &[usize]
    requires { place < length calls.now.items }
    ensures { HasAddress calls.now.items place result.now }
{
    let call = &calls[place];
    call.at()
}

/// Whether each call comes before the next.
fn is_ascending<I>(calls: &VecDeque<Call<I>>) -> bool
    ensures ascending { result ≡ true → IsAscending calls.now.items }
    ensures several { result ≡ false → 2 ≤ length calls.now.items }
{
    for place in 1..calls.len() {
        let before = address_of(calls, place - 1);
        let here = address_of(calls, place);
        if !is_before(before, here) {
            return false;
        }
    }
    true
}

/// Which of two lists has the first call by address.
#[derive(Clone, Copy)]
enum Turn {
    Front,
    Back,
    /// The first calls of both have one address.
    Both,
}

fn whose_turn<I>(front: &VecDeque<Call<I>>, back: &VecDeque<Call<I>>) -> Turn
    requires front { IsAscending front.now.items }
    requires back { IsAscending back.now.items }
    ensures { IsTurn front.now.items back.now.items result }
{
    let Some(first) = front.front() else {
        return Turn::Back;
    };
    let Some(other) = back.front() else {
        return Turn::Front;
    };
    if is_before(first.at(), other.at()) {
        return Turn::Front;
    }
    if is_before(other.at(), first.at()) {
        return Turn::Back;
    }
    Turn::Both
}

fn take_front<I: Drop>(front: &mut VecDeque<Call<I>>, back: &VecDeque<Call<I>>) -> Option<Call<I>>
    requires front { IsAscending front.old.items }
    requires back { IsAscending back.now.items }
    requires turn { IsFrontsTurn front.old.items back.now.items }
    ensures first { IfSome result (λ call. TakesFirst front.old.items back.now.items call front.new.items back.now.items) }
    ensures none { IfNone result (front.old.items ++ back.now.items ≡ []) }
{
    front.pop_front()
}

fn take_back<I: Drop>(front: &VecDeque<Call<I>>, back: &mut VecDeque<Call<I>>) -> Option<Call<I>>
    requires front { IsAscending front.now.items }
    requires back { IsAscending back.old.items }
    requires turn { IsBacksTurn front.now.items back.old.items }
    ensures first { IfSome result (λ call. TakesFirst front.now.items back.old.items call front.now.items back.new.items) }
    ensures none { IfNone result (front.now.items ++ back.old.items ≡ []) }
{
    back.pop_front()
}

/// Takes the first call of `back`; that of `front`, which has the same address, goes.
fn take_both<I: Drop>(
    front: &mut VecDeque<Call<I>>,
    back: &mut VecDeque<Call<I>>,
) -> Option<Call<I>>
    requires front { IsAscending front.old.items }
    requires back { IsAscending back.old.items }
    requires turn { HaveOneFirst front.old.items back.old.items }
    ensures first { IfSome result (λ call. TakesFirst front.old.items back.old.items call front.new.items back.new.items) }
    ensures none { IfNone result (front.old.items ++ back.old.items ≡ []) }
{
    let _same = front.pop_front();
    back.pop_front()
}

/// Takes the first call of both lists.
fn next_of<I: Drop>(front: &mut VecDeque<Call<I>>, back: &mut VecDeque<Call<I>>) -> Option<Call<I>>
    requires front { IsAscending front.old.items }
    requires back { IsAscending back.old.items }
    ensures first { IfSome result (λ call. TakesFirst front.old.items back.old.items call front.new.items back.new.items) }
    ensures none { IfNone result (front.old.items ++ back.old.items ≡ []) }
{
    match whose_turn(front, back) {
        Turn::Front => take_front(front, back),
        Turn::Back => take_back(front, back),
        Turn::Both => take_both(front, back),
    }
}

/// Two lists in order as one.
fn merged<I: Drop>(
    alloc: Global,
    mut front: VecDeque<Call<I>>,
    mut back: VecDeque<Call<I>>,
) -> Result<VecDeque<Call<I>>, AllocError>
    requires front { IsAscending front.items }
    requires back { IsAscending back.items }
    ensures { IfOk result (λ all. all.items ≡ traces.by_address (front.items ++ back.items)) }
{
    let mut all = VecDeque::new(alloc);
    'merging: while let Some(call) = next_of(&mut front, &mut back) {
        all.push_back(call)?;
    }
    Ok(all)
}

/// The calls by address, each address once. Calls that are in order stay as they are.
pub(crate) fn sorted<I: Drop>(
    alloc: Global,
    mut calls: VecDeque<Call<I>>,
) -> Result<VecDeque<Call<I>>, AllocError>
    ensures { IfOk result (λ all. all.items ≡ traces.by_address calls.items) }
{
    if is_ascending(&calls) {
        return Ok(calls);
    }
    let half = calls.len() / 2;
    let back = calls.split_off(half)?;
    let front = sorted(alloc, calls)?;
    let rest = sorted(alloc, back)?;
    merged(alloc, front, rest)
}
