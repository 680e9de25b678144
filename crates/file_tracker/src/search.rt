// The searches: by the order of the fronts, and row by row.
ghost use Rattle.std.specs.Prelude.{◌≡◌, ◌+◌, ◌*◌, ◌-◌, ◌^◌, ◌<◌, ◌≤◌, ℕ, length, map, take, true, false, slice_index};
ghost use Rattle.std.specs.Cmp.Lexicographic.{slice_cmp};
ghost use Rattle.std.specs.Ordering.{nat_cmp};
ghost use Rattle.file_tracker.specs.Fronts.{begins, fronts_of, front_at};
ghost use Rattle.file_tracker.specs.Places.{place_of};
ghost use Rattle.file_tracker.specs.Order.{ArePlaces, Ascends, StandsBetween};

use crate::{Row, Steps};
use std::cmp::Ordering;
use std::sync::ledger::Ledger;

/// Where a text stands among fronts in order: behind those that are not above it.
#[derive(Clone, Copy)]
pub struct Standing {
    pub index: usize,
    /// The front before that place is how the text begins.
    pub begun: bool,
}

/// How a row's front stands to as many of the text's first bytes: equal where the text begins with it. This is the one
/// step that searches count, and the only way in which they look at a front.
fn compare<L: Ledger>(row: &Row, text: &[u8], steps: &mut Steps<L>) -> Ordering
    ensures value { result ≡ slice_cmp nat_cmp row.now.front (take (length row.now.front) text.now) }
    ensures counted { steps.new ≡ steps.old + 1 }
{
    steps.tick();
    let front = row.front.as_slice();
    let end = front.len().min(text.len());
    front.cmp(&text[..end])
}

/// Where the text stands among the fronts of the rows, the places being in their order.
pub fn search<L: Ledger>(
    rows: &[Row],
    order: &[usize],
    text: &[u8],
    steps: &mut Steps<L>,
) -> Standing
    requires places { ArePlaces (length rows.now) order.now }
    requires ascends { Ascends (fronts_of rows.now) order.now }
    ensures stands { StandsBetween (fronts_of rows.now) order.now text.now result.index result.index result.begun }
    ensures counted { steps.old ≤ steps.new }
    ensures compared { 0 < length order.now → steps.old < steps.new }
    ensures cost { 2 ^ (steps.new - steps.old) ≤ 2 * length order.now + 1 }
{
    let mut low = 0;
    let mut high = order.len();
    let mut begun = false;
    while low < high {
        let middle = low + (high - low) / 2;
        let standing = compare(&rows[order[middle]], text, steps);
        if standing.is_gt() {
            high = middle;
        } else {
            begun = standing.is_eq();
            low = middle + 1;
        }
    }
    Standing { index: low, begun }
}

/// The first row whose front is how the text begins, looked for from the first row on.
pub fn first_begun<L: Ledger>(rows: &[Row], text: &[u8], steps: &mut Steps<L>) -> Option<usize>
    ensures first { result ≡ place_of text.now rows.now }
    ensures counted { steps.old ≤ steps.new }
    ensures compared { 0 < length rows.now → steps.old < steps.new }
{
    for (place, row) in rows.iter().enumerate() {
        if compare(row, text, steps).is_eq() {
            return Some(place);
        }
    }
    None
}
