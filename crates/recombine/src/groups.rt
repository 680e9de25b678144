// The open groups, in the order in which they were opened.
ghost use Rattle.std.specs.Prelude.{◌≡◌, ◌+◌, ◌<◌, ◌≤◌, ◌^◌, ◌↔◌, [], ◌∷◌, ◌++◌, length, IsTrue, OnOk, string_bytes};
ghost use Rattle.entry_model.specs.Lawful.{NestsWithin};
ghost use Rattle.entry_model.specs.LogRecord.{log_record};
ghost use Rattle.state_codec.specs.Limits.{levels};
ghost use Rattle.recombine.specs.Limits.{group_limit, batch_limit};
ghost use Rattle.recombine.specs.Sources.{AreOfOthers};
ghost use Rattle.recombine.specs.Steps.{text_bytes};
ghost use Rattle.recombine.specs.Table.{held_seen, groups_seen, IsOpen, AreOpen, IsFound, IsPlace, Changes, Tells, marks_of, mark_of as mark_of_bytes, with_piece, with_entries, with_base, without};

use crate::group::OpenGroup;
use entry_model::{Entry, Text};
use memchr::memchr;
use std::alloc::{AllocError, Global};
use std::marker::Model;
use std::mem;

/// The open groups of one recombine and one file, in the order in which they were opened. Contracts see them as the list of
/// what they are, so that groups that were restored equal those that were saved.
#[derive(Drop)]
pub struct Groups {
    // Each in a place of its own, so that little is moved where one in front is taken out.
    in_order: Vec<Box<OpenGroup>>,
    // A mark of each source, by which most sources are told apart.
    marks: Vec<u8>,
    // How many bytes their texts have together.
    bytes: usize,
}

impl Model for Groups {
    ghost use Rattle.std.specs.Prelude.{List};
    ghost use Rattle.recombine.specs.Group.{Group, groups_code};

    ghost Value = { List Group };

    ghost coded = { groups_code };

    ghost use Rattle.recombine.specs.Table.{groups_seen, IsTable};

    ghost view = { λ groups. groups_seen groups.in_order.items };

    ghost invariant = { λ groups. IsTable (groups_seen groups.in_order.items) groups.bytes groups.marks.items };
}

impl Groups {
    /// No open groups.
    pub fn new(alloc: Global) -> Groups
        ensures { result ≡ [] }
    {
        Groups {
            in_order: Vec::new(alloc),
            marks: Vec::new(alloc),
            bytes: 0,
        }
    }

    /// Whether no group is open.
    pub fn is_empty(&self) -> bool
        ensures { IsTrue result ↔ (self.now ≡ []) }
    {
        self.in_order.is_empty()
    }

    /// How many groups are open.
    pub(crate) fn len(&self) -> usize
        ensures value { result ≡ length self.now }
        ensures few { result ≤ group_limit }
    {
        self.in_order.len()
    }

    /// How many bytes their texts have together.
    pub(crate) fn bytes(&self) -> usize
        ensures value { result ≡ text_bytes self.now }
        ensures few { length self.now ≤ group_limit }
    {
        self.bytes
    }

    /// The groups, in order.
    pub(crate) fn in_order(&self) -> &[Box<OpenGroup>]
        ensures seen { groups_seen result.now ≡ self.now }
        ensures are_open { AreOpen self.now }
    {
        self.in_order.as_slice()
    }

    /// The place of the group of a source.
    pub(crate) fn place_of(&self, source: &Text) -> Option<usize>
        ensures { IsPlace source.now self.now result }
    {
        place_in(self.in_order.as_slice(), self.marks.as_slice(), source)
    }

    /// How many entries the group at a place has.
    pub(crate) fn entries_at(&self, place: usize) -> u32
        requires { place < length self.now }
        ensures value { Tells self.now place (λ group. group.entries ≡ result) }
        ensures most { result ≤ batch_limit }
    {
        self.in_order[place].entries
    }

    /// Puts a piece behind the text of the group at a place. Where memory runs out all is as it was.
    pub(crate) fn append(&mut self, place: usize, piece: &str) -> Result<(), AllocError>
        requires in_range { place < length self.old }
        requires fits { text_bytes self.old + length piece.now < 2 ^ 64 }
        ensures ok { OnOk result (Changes self.old place (with_piece piece.now) self.new) }
    {
        let group = &mut self.in_order[place];
        group.text.push_str(piece)?;
        self.bytes += piece.len();
        Ok(())
    }

    pub(crate) fn set_entries(&mut self, place: usize, entries: u32)
        requires in_range { place < length self.old }
        requires some { 1 ≤ entries }
        requires most { entries ≤ batch_limit }
        ensures { Changes self.old place (with_entries entries) self.new }
    {
        let group = &mut self.in_order[place];
        group.entries = entries;
    }

    /// Makes another entry the base of the group at a place, and hands the old one out.
    pub(crate) fn set_base(&mut self, place: usize, base: Entry) -> Entry
        requires in_range { place < length self.old }
        requires shallow { NestsWithin levels (log_record base) }
        ensures { Changes self.old place (with_base base) self.new }
    {
        let group = &mut self.in_order[place];
        mem::replace(&mut group.base, base)
    }

    /// Takes the group at a place out.
    pub(crate) fn remove(&mut self, place: usize) -> Box<OpenGroup>
        requires in_range { place < length self.old }
        ensures left { Changes self.old place without self.new }
        ensures taken { Tells self.old place (λ group. group ≡ held_seen result) }
    {
        let _mark = self.marks.remove(place);
        let group = self.in_order.remove(place);
        self.bytes -= group.text.as_str().len();
        group
    }

    /// Puts a group behind the others. Where memory runs out all is as it was.
    pub(crate) fn push(&mut self, group: Box<OpenGroup>) -> Result<(), AllocError>
        requires new { AreOfOthers group.value.source self.old }
        requires is_open { IsOpen (held_seen group) }
        requires few { length self.old < group_limit }
        requires fits { text_bytes self.old + length (string_bytes group.value.text) < 2 ^ 64 }
        ensures { OnOk result (self.new ≡ self.old ++ held_seen group ∷ []) }
    {
        let size = group.text.as_str().len();
        let mark = mark_of(group.source.as_str().as_bytes());
        self.marks.push(mark)?;
        match self.in_order.push(group) {
            Ok(()) => {
                self.bytes += size;
                Ok(())
            }
            Err(_) => {
                let _mark = self.marks.pop();
                Err(AllocError)
            }
        }
    }

    /// Takes all groups out, in order.
    pub(crate) fn take_all(&mut self, alloc: Global) -> Vec<Box<OpenGroup>>
        ensures taken { groups_seen result.items ≡ self.old }
        ensures left { self.new ≡ [] }
    {
        let Groups { in_order, .. } = mem::replace(self, Groups::new(alloc));
        in_order
    }
}

// Where the group of the source is. Sources are compared where their marks are the same, and where no group is open none is looked for.
fn place_in(groups: &[Box<OpenGroup>], marks: &[u8], source: &Text) -> Option<usize>
    requires { marks.now ≡ marks_of (groups_seen groups.now) }
    ensures { IsFound source.now groups.now result }
{
    if groups.is_empty() {
        return None;
    }
    let mark = mark_of(source.as_str().as_bytes());
    let mut from = 0;
    'places: while let Some(step) = memchr(mark, &marks[from..]) {
        let place = from + step;
        if *source == groups[place].source {
            return Some(place);
        }
        from = place + 1;
    }
    None
}

fn mark_of(source: &[u8]) -> u8
    ensures { result ≡ mark_of_bytes source.now }
{
    let mut mark: u32 = 0;
    for byte in source {
        mark = (mark * 31 + *byte as u32) % 256;
    }
    mark as u8
}
