// The world of log files.
ghost use Rattle.std.specs.Prelude.{◌≡◌, ◌≤◌, length, IfOk, IfSome};
ghost use Rattle.outside.specs.Count.{HasCause, HasOneCause, last_count};
ghost use Rattle.outside.specs.World.{Told};
ghost use Rattle.outside.specs.Lawful.{TellsLawful};
ghost use Rattle.outside.specs.Plan.{HasFollowed};

use crate::{CallFault, Failed};
use entry_model::Text;
use std::alloc::Global;

/// An open file of a [`Tree`], known by a number.
#[derive(Clone, Copy, Debug, PartialEq, Eq)]
pub struct Handle(pub u64);

/// What a name in a folder stands for.
#[derive(Clone, Copy, Debug, PartialEq, Eq)]
pub enum Kind {
    /// A plain file.
    File,
    Folder,
    /// A symbolic link, a device, a pipe or a socket.
    Other,
}

/// One name of a folder.
#[derive(Debug, PartialEq, Drop)]
pub struct Item {
    /// The last component of the path.
    pub name: Text,
    pub kind: Kind,
}

/// What a folder holds.
#[derive(Debug, PartialEq, Drop)]
pub enum Listed {
    Items {
        items: Vec<Item>,
        /// The number of names that aren't UTF-8.
        unnamed: u32,
    },
    /// No folder has this name.
    Gone,
}

/// What a name led to.
#[derive(Clone, Copy, Debug, PartialEq, Eq)]
pub enum Opened {
    File {
        handle: Handle,
        /// The file's length in bytes when it was opened, or 2^62 where it was longer.
        size: u64,
    },
    /// Nothing has this name.
    Gone,
    /// The name is that of no plain file.
    NotAFile,
}

/// The world of log files, which other processes change between any two calls.
pub trait Tree {
    ghost use Rattle.outside.specs.TreeMeaning.{TreeMeaning};

    ghost meaning: { TreeMeaning Self };

    ghost use Rattle.outside.specs.Listing.{Lists, listed_after, nameless_after};
    ghost use Rattle.outside.specs.Opening.{Opens, IsSize};
    ghost use Rattle.outside.specs.Reading.{Reads, taken_after, widest_after};
    ghost use Rattle.outside.specs.Closing.{Closes};

    /// The names in a folder, in any order, each once. The empty text is the working folder.
    fn list(&mut self, alloc: Global, folder: &str) -> Result<Listed, CallFault>
        ensures history { Told (Lists folder.now result) ((meaning).world self.old) ((meaning).world self.new) }
        ensures cause { HasCause result ((meaning).faults self.old) ((meaning).faults self.new) }
        ensures nameless { (meaning).nameless self.new ≡ nameless_after result ((meaning).nameless self.old) }
        ensures taken { (meaning).taken self.new ≡ (meaning).taken self.old }
        ensures widest { (meaning).widest self.new ≡ (meaning).widest self.old }
        ensures listed { (meaning).listed self.new ≡ listed_after folder.now result ((meaning).listed self.old) }
        ensures plan { (meaning).plan self.new ≡ (meaning).plan self.old }
        ensures bound { (meaning).bound self.new ≡ (meaning).bound self.old };

    /// Opens the plain file of that name, without following a link.
    fn open_file(&mut self, alloc: Global, path: &str) -> Result<Opened, CallFault>
        ensures history { Told (Opens path.now result) ((meaning).world self.old) ((meaning).world self.new) }
        ensures size { IfOk result IsSize }
        ensures cause { HasCause result ((meaning).faults self.old) ((meaning).faults self.new) }
        ensures nameless { (meaning).nameless self.new ≡ (meaning).nameless self.old }
        ensures taken { (meaning).taken self.new ≡ (meaning).taken self.old }
        ensures widest { (meaning).widest self.new ≡ (meaning).widest self.old }
        ensures listed { (meaning).listed self.new ≡ (meaning).listed self.old }
        ensures plan { (meaning).plan self.new ≡ (meaning).plan self.old }
        ensures bound { (meaning).bound self.new ≡ (meaning).bound self.old };

    /// Fills the front of `buf` with the file's bytes from `offset`, and answers how many it gave: none only at
    /// the file's end, or for an empty `buf`. A handle that isn't open stands for an empty file.
    fn read_at(&mut self, handle: Handle, offset: u64, buf: &mut [u8]) -> Result<usize, Failed>
        ensures within { IfOk result (λ count. count ≤ length buf.new) }
        ensures history { Told (Reads handle.0 offset buf.new result) ((meaning).world self.old) ((meaning).world self.new) }
        ensures cause { HasOneCause result ((meaning).faults self.old) ((meaning).faults self.new) }
        ensures nameless { (meaning).nameless self.new ≡ (meaning).nameless self.old }
        ensures taken { (meaning).taken self.new ≡ taken_after result ((meaning).taken self.old) }
        ensures widest { (meaning).widest self.new ≡ widest_after (length buf.new) ((meaning).widest self.old) }
        ensures listed { (meaning).listed self.new ≡ (meaning).listed self.old }
        ensures plan { (meaning).plan self.new ≡ (meaning).plan self.old }
        ensures bound { (meaning).bound self.new ≡ (meaning).bound self.old };

    /// Gives the handle back. One that isn't open is left alone.
    fn close(&mut self, handle: Handle)
        ensures history { Told (Closes handle.0) ((meaning).world self.old) ((meaning).world self.new) }
        ensures cause { (meaning).faults self.new ≡ (meaning).faults self.old }
        ensures nameless { (meaning).nameless self.new ≡ (meaning).nameless self.old }
        ensures taken { (meaning).taken self.new ≡ (meaning).taken self.old }
        ensures widest { (meaning).widest self.new ≡ (meaning).widest self.old }
        ensures listed { (meaning).listed self.new ≡ (meaning).listed self.old }
        ensures plan { (meaning).plan self.new ≡ (meaning).plan self.old }
        ensures bound { (meaning).bound self.new ≡ (meaning).bound self.old };

    /// A told history is lawful.
    ghost lawful: { (tree : Self) → TellsLawful ((meaning).world tree) };

    /// A told plan has been followed.
    ghost followed: { (tree : Self) → HasFollowed ((meaning).plan tree) ((meaning).world tree) };

    ghost in_range: { (tree : Self) → (meaning).faults tree ≤ last_count };

    ghost within_bound: { (tree : Self) → IfSome ((meaning).bound tree) (λ most. (meaning).faults tree ≤ most) };
}
