// The places of the rows in byte order of their fronts, and whether some front is how another begins.
ghost use Rattle.std.specs.Prelude.{◌≡◌, ◌≢◌, ◌+◌, ◌<◌, ◌≤◌, ℕ, length, slice_index, MatchBool, if◌then◌else◌, nat_lt, false, insert};
ghost use Rattle.std.specs.Cmp.Lexicographic.{slice_cmp};
ghost use Rattle.std.specs.Ordering.{nat_cmp, is_gt};
ghost use Rattle.file_tracker.specs.Fronts.{begins, fronts_of, ArePrefixFree};
ghost use Rattle.file_tracker.specs.Order.{front_in, ArePlaces, Ascends, AscendsBefore, StandsBetween};

use crate::search::{Standing, search};
use crate::{Row, Steps};
use std::marker::Brand;
use std::sync::ledger::{Blank, Ledger};

/// Where a front that is to be admitted stands among the others.
pub fn locate(rows: &[Row], order: &[usize], front: &[u8]) -> Standing
    requires places { ArePlaces (length rows.now) order.now }
    requires ascends { Ascends (fronts_of rows.now) order.now }
    ensures { StandsBetween (fronts_of rows.now) order.now front.now result.index result.index result.begun }
{
    locate_from::<Brand>(rows, order, front, Blank::new(1))
}

fn locate_from<L: Ledger>(rows: &[Row], order: &[usize], front: &[u8], blank: Blank) -> Standing
    requires name { blank.name ≡ L.name }
    requires parts { blank.parts ≡ L.parts }
    requires some { 0 < L.parts }
    requires places { ArePlaces (length rows.now) order.now }
    requires ascends { Ascends (fronts_of rows.now) order.now }
    ensures { StandsBetween (fronts_of rows.now) order.now front.now result.index result.index result.begun }
{
    let mut steps = Steps::<L>::new(blank);
    search(rows, order, front, &mut steps)
}

/// Whether the front is how the one at this place of the order begins.
pub fn begins_next(rows: &[Row], order: &[usize], index: usize, front: &[u8]) -> bool
    requires places { ArePlaces (length rows.now) order.now }
    ensures { result ≡ (if nat_lt index (length order.now) then begins front.now (front_in (fronts_of rows.now) order.now index) else false) }
{
    match order.get(index) {
        Some(place) => rows[*place].front.as_slice().starts_with(front),
        None => false,
    }
}

/// Moves the place of a row whose front has grown behind those of lesser fronts.
pub fn settle(rows: &[Row], order: &mut [usize], place: usize)
    requires places { ArePlaces (length rows.now) order.old }
    requires in_range { place < length rows.now }
    requires others { AscendsBefore place 0 (fronts_of rows.now) order.old }
    ensures places { ArePlaces (length rows.now) order.new }
    ensures ascends { Ascends (fronts_of rows.now) order.new }
{
    for index in 1..order.len() {
        if order[index - 1] == place && is_above(&rows[place], &rows[order[index]]) {
            order.swap(index - 1, index);
        }
    }
}

fn is_above(row: &Row, other: &Row) -> bool
    ensures { result ≡ is_gt (slice_cmp nat_cmp row.now.front other.now.front) }
{
    row.front.as_slice().cmp(other.front.as_slice()).is_gt()
}

/// Whether some front is how another begins. One that is stands, in order, directly before one that it begins.
pub fn is_nested(rows: &[Row], order: &[usize]) -> bool
    requires places { ArePlaces (length rows.now) order.now }
    requires ascends { Ascends (fronts_of rows.now) order.now }
    ensures { MatchBool result (¬ ArePrefixFree (fronts_of rows.now)) (ArePrefixFree (fronts_of rows.now)) }
{
    for index in 1..order.len() {
        let front = rows[order[index - 1]].front.as_slice();
        if begins_next(rows, order, index, front) {
            return true;
        }
    }
    false
}
