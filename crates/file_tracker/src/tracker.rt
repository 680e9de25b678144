// The rows of all files that the agent knows.
ghost use Rattle.std.specs.Prelude.{◌≡◌, ℕ, ◌+◌, ◌*◌, ◌-◌, ◌^◌, ◌<◌, ◌≤◌, ◌↔◌, [], ◌∷◌, ◌++◌, length, IsTrue, Some, slice_get, slice_set, IfOk, OnOk, OnErr};
ghost use Rattle.file_tracker.specs.Limits.{row_limit};

use crate::index::{begins_next, is_nested, locate, settle};
use crate::search::{first_begun, search};
use crate::{Bytes, Row, Steps};
use std::alloc::{AllocError, Global};
use std::marker::{Brand, Model};
use std::sync::ledger::{Blank, Ledger};
use thiserror::Error;

/// The most rows that a tracker has.
pub const ROW_LIMIT: usize = 65_536;

/// The constant is the limit that the definitions have.
pub fn constants_are_the_limits()
    ensures { ROW_LIMIT ≡ row_limit }
{}

/// Why a row is not admitted.
#[derive(Clone, Copy, Debug, Error, PartialEq, Eq)]
pub enum AdmitFault {
    #[error("the tracker has {ROW_LIMIT} rows")]
    Full,
    #[error("no memory was left")]
    Memory,
}

/// The rows of all files that the agent knows. Their places count from 0 in the order in which they were admitted.
#[derive(Drop)]
pub struct Tracker {
    rows: Vec<Row>,
    // The places in byte order of their rows' fronts.
    order: Vec<usize>,
    // Some front is how another begins.
    nested: bool,
}

impl Model for Tracker {
    ghost use Rattle.std.specs.Prelude.{List};
    ghost use Rattle.file_tracker.specs.declared.row.Row.{Row};
    ghost use Rattle.file_tracker.specs.Order.{IsKept};

    ghost Value = { List Row };

    ghost view = { λ tracker. tracker.rows.items };

    ghost invariant = { λ tracker. IsKept tracker.rows.items tracker.order.items tracker.nested };
}

impl Tracker {
    ghost use Rattle.file_tracker.specs.declared.row.Row.{Row};
    ghost use Rattle.file_tracker.specs.Fronts.{begins, AreApart};
    ghost use Rattle.file_tracker.specs.Places.{place_of, ChangesAt, HasGone, with_front, with_look, with_progress};

    /// A tracker without rows.
    pub fn new(alloc: Global) -> Tracker
        ensures { result ≡ [] }
    {
        Tracker {
            rows: Vec::new(alloc),
            order: Vec::new(alloc),
            nested: false,
        }
    }

    /// The number of rows.
    pub fn len(&self) -> usize
        ensures value { result ≡ length self.now }
        ensures within { result ≤ row_limit }
    {
        self.rows.len()
    }

    /// Whether there is no row.
    pub fn is_empty(&self) -> bool
        ensures { IsTrue result ↔ (self.now ≡ []) }
    {
        self.rows.is_empty()
    }

    /// The first place whose row's front is how `front` begins.
    pub fn find(&self, front: &[u8]) -> Option<usize>
        ensures { result ≡ place_of front.now self.now }
    {
        self.find_from::<Brand>(front, Blank::new(1))
    }

    /// The same answer, with each comparison of a row's front with `front` counted as a step.
    pub fn find_counted<L: Ledger>(&self, front: &[u8], steps: &mut Steps<L>) -> Option<usize>
        ensures first { result ≡ place_of front.now self.now }
        ensures counted { steps.old ≤ steps.new }
        ensures compared { 0 < length self.now → steps.old < steps.new }
        ensures cost { AreApart self.now → 2 ^ (steps.new - steps.old) ≤ 2 * length self.now + 1 }
    {
        if self.nested {
            return first_begun(&self.rows, front, steps);
        }
        let standing = search(&self.rows, &self.order, front, steps);
        if standing.begun {
            Some(self.order[standing.index - 1])
        } else {
            None
        }
    }

    /// The row at a place.
    pub fn row(&self, place: usize) -> &Row
        requires { place < length self.now }
        ensures { slice_get self.now place ≡ Some result.now }
    {
        &self.rows[place]
    }

    /// The rows in order.
    pub fn as_slice(&self) -> &[Row]
        ensures { result.now ≡ self.now }
    {
        self.rows.as_slice()
    }

    /// Puts a row behind the others, and answers its place. `Full` exactly where there are as many rows as may be.
    ///
    /// What it needs comes from the allocator of the tracker.
    pub fn admit(&mut self, _alloc: Global, row: Row) -> Result<usize, AdmitFault>
        ensures ok { IfOk result (λ place. (place ≡ length self.old) × (self.new ≡ self.old ++ row ∷ [])) }
        ensures full { (result ≡ Err AdmitFault.Full) ↔ (length self.old ≡ row_limit) }
        ensures err { OnErr result (self.new ≡ self.old) }
    {
        let place = self.rows.len();
        if place >= ROW_LIMIT {
            return Err(AdmitFault::Full);
        }
        let front = row.front.as_slice();
        let standing = locate(&self.rows, &self.order, front);
        let begins = begins_next(&self.rows, &self.order, standing.index, front);
        if self.rows.push(row).is_err() {
            return Err(AdmitFault::Memory);
        }
        if self.order.insert(standing.index, place).is_err() {
            self.rows.pop();
            return Err(AdmitFault::Memory);
        }
        self.nested = self.nested || standing.begun || begins;
        Ok(place)
    }

    /// Makes the front of one row longer, as its file has grown.
    pub fn grow_front(
        &mut self,
        alloc: Global,
        place: usize,
        front: &[u8],
    ) -> Result<(), AllocError>
        requires in_range { place < length self.old }
        requires grows { (row : Row) → slice_get self.old place ≡ Some row → IsTrue (begins row.front front.now) }
        ensures ok { OnOk result (ChangesAt self.old place (with_front front.now) self.new) }
        ensures err { OnErr result (self.new ≡ self.old) }
    {
        let grown = Bytes::from_slice(alloc, front)?;
        let row = &mut self.rows[place];
        row.front = grown;
        if self.nested {
            settle(&self.rows, &mut self.order, place);
            self.nested = is_nested(&self.rows, &self.order);
        }
        Ok(())
    }

    /// Notes how far the file of one row was read, and what the operators hold back of it. No number falls.
    pub fn advance(&mut self, place: usize, offset: u64, records: u64, lines: u64, state: Vec<u8>)
        requires in_range { place < length self.old }
        requires rises { (row : Row) → slice_get self.old place ≡ Some row → HasGone row offset records lines }
        ensures { ChangesAt self.old place (with_progress offset records lines state.items) self.new }
    {
        let advanced = &mut self.rows[place];
        advanced.offset = offset;
        advanced.records = records;
        advanced.lines = lines;
        advanced.state = Bytes::new(state);
    }

    /// Notes the length that the file of one row had at a look, and how many looks in a row have found it while something
    /// waited.
    pub fn note(&mut self, place: usize, seen: u64, quiet: u32)
        requires { place < length self.old }
        ensures { ChangesAt self.old place (with_look seen quiet) self.new }
    {
        let noted = &mut self.rows[place];
        noted.seen = seen;
        noted.quiet = quiet;
    }

    fn find_from<L: Ledger>(&self, front: &[u8], blank: Blank) -> Option<usize>
        requires name { blank.name ≡ L.name }
        requires parts { blank.parts ≡ L.parts }
        requires some { 0 < L.parts }
        ensures { result ≡ place_of front.now self.now }
    {
        let mut steps = Steps::<L>::new(blank);
        self.find_counted(front, &mut steps)
    }
}
