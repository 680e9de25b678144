// Rows that contracts see as a list.
ghost use Rattle.std.specs.Prelude.{◌≡◌, ◌≤◌, length, IfOk};
ghost use Rattle.file_tracker.specs.Limits.{row_limit};

use file_tracker::{AdmitFault, Row, Tracker};
use std::alloc::{AllocError, Global};
use std::marker::Model;

/// The rows of a checkpoint or a change, in order.
#[derive(Drop)]
pub struct Rows {
    content: Vec<Row>,
}

impl Model for Rows {
    ghost use Rattle.std.specs.Prelude.{List};
    ghost use Rattle.file_tracker.specs.declared.row.Row.{Row};

    ghost Value = { List Row };

    ghost view = { λ rows. rows.content.items };
}

impl Rows {
    pub fn new(content: Vec<Row>) -> Rows
        ensures { result ≡ content.items }
    {
        Rows { content }
    }

    pub fn as_slice(&self) -> &[Row]
        ensures { result.now ≡ self.now }
    {
        self.content.as_slice()
    }

    pub fn into_vec(self) -> Vec<Row>
        ensures { result.items ≡ self }
    {
        let Rows { content } = self;
        content
    }

    /// The rows as they are searched by fronts.
    pub fn into_tracker(self, alloc: Global) -> Result<Tracker, AllocError>
        requires { length self ≤ row_limit }
        ensures { IfOk result (λ tracker. tracker ≡ self) }
    {
        let mut tracker = Tracker::new(alloc);
        for row in self.into_vec() {
            match tracker.admit(alloc, row) {
                Ok(_) => {}
                Err(AdmitFault::Full) => unreachable!(),
                Err(AdmitFault::Memory) => return Err(AllocError),
            }
        }
        Ok(tracker)
    }
}
