// The ends of a file's parts, seen as a list.
ghost use Rattle.std.specs.Prelude.{◌≡◌, [], ◌∷◌, ◌++◌, IfOk, OnErr, OnOk};

use std::alloc::{AllocError, Global};
use std::fmt;
use std::marker::Model;

/// Where a part of a file ends that was read under settings before the last ones, with all that was made of the file by then.
#[derive(Clone, Copy, Debug, PartialEq, Eq)]
pub struct End {
    /// In bytes from the file's begin.
    pub offset: u64,
    pub records: u64,
    pub lines: u64,
}

/// The ends of all parts of a file but the last, in order.
#[derive(Drop)]
pub struct Ends {
    list: Vec<End>,
}

impl Model for Ends {
    ghost use Rattle.std.specs.Prelude.{List};
    ghost use Rattle.file_tracker.specs.declared.ends.End.{End};

    ghost Value = { List End };

    ghost view = { λ ends. ends.list.items };
}

impl Ends {
    pub fn new(list: Vec<End>) -> Ends
        ensures { result ≡ list.items }
    {
        Ends { list }
    }

    /// Of a file of one part.
    pub fn none(alloc: Global) -> Ends
        ensures { result ≡ [] }
    {
        Ends::new(Vec::new(alloc))
    }

    pub fn as_slice(&self) -> &[End]
        ensures { result.now ≡ self.now }
    {
        self.list.as_slice()
    }

    pub fn copy(&self, alloc: Global) -> Result<Ends, AllocError>
        ensures { IfOk result (λ copy. copy ≡ self.now) }
    {
        Ok(Ends::new(Vec::from_slice(alloc, self.as_slice())?))
    }

    /// Puts an end behind the others.
    pub fn push(&mut self, end: End) -> Result<(), AllocError>
        ensures ok { OnOk result (self.new ≡ self.old ++ end ∷ []) }
        ensures err { OnErr result (self.new ≡ self.old) }
    {
        self.list.push(end)?;
        Ok(())
    }
}

impl fmt::Debug for Ends {
    fn fmt<W: fmt::Write>(&self, f: &mut fmt::Formatter<W>) -> fmt::Result {
        fmt::Debug::fmt(self.as_slice(), f)
    }
}
