// The history of a world, with its present: names, and the bytes of each file.
ghost use Rattle.std.specs.Prelude.{◌≡◌, ◌+◌, ◌<◌, ◌≤◌, ◌∷◌, ◌==◌, ℕ, length, IsTrue, OnOk, OnErr, IfOk, ◌||◌, vec_len, vec_capacity};
ghost use Rattle.outside.specs.Lawful.{is_lawful, is_free, may_come, IsLawful};
ghost use Rattle.outside.specs.World.{names, bytes, has_name, file_at, was_created, without};
ghost use Rattle.mem_world.specs.TreeRoom.{room_in, empty_world};
ghost use Rattle.mem_world.specs.TreeSpoiled.{cut_to};
ghost use Rattle.mem_world.specs.WorldSteps.{event_of, added_by, makes};
ghost use Rattle.std.specs.List.{list_any};
ghost use Rattle.mem_world.specs.TreeEvents.{event_seen};
ghost use Rattle.outside.specs.Listing.{is_folder, IsListing};
ghost use Rattle.outside.specs.Reading.{bytes_if};

use super::contents::{self, Content, bytes_of};
use super::events::{Ready, Recorded, Seen};
use super::names::{self, Names};
use super::{listing, shorten};
use crate::world::WorldStep;
use entry_model::Text;
use outside::Item;
use std::alloc::{AllocError, Global};
use std::collections::VecDeque;
use std::marker::Model;

#[derive(Drop)]
pub struct Stored {
    // The newest first.
    history: VecDeque<Recorded>,
    names: Names,
    created: Vec<u32>,
    // Of the files that have bytes, or for whose bytes there is room.
    contents: Vec<Content>,
    room: usize,
}

impl Model for Stored {
    ghost use Rattle.mem_world.specs.TreeRoom.{StoredWorld};

    ghost Value = { StoredWorld };

    ghost use Rattle.mem_world.specs.TreeStored.{stored_world, IsStored};

    ghost view = { stored_world };

    ghost invariant = { IsStored };
}

impl Stored {
    pub fn new(alloc: Global) -> Stored
        ensures { result ≡ empty_world }
    {
        Stored {
            history: VecDeque::new(alloc),
            names: VecDeque::new(alloc),
            created: Vec::new(alloc),
            contents: Vec::new(alloc),
            room: 0,
        }
    }

    /// The number of events.
    pub fn len(&self) -> usize
        ensures { result ≡ length self.now.history }
    {
        self.history.len()
    }

    /// The history is lawful.
    pub fn keeps_lawful(&self)
        ensures { IsLawful self.now.history }
    {
        let _room = self.room;
    }

    pub fn is_lawful(&self, step: &WorldStep) -> bool
        ensures { result ≡ is_lawful self.now.history (event_of step.now) }
    {
        match step {
            WorldStep::Create { file, path } => {
                !self.was_created(file.0) && self.is_free(path.as_str().as_bytes())
            }
            WorldStep::Append { file, bytes: _ } => self.has_name(file.0),
            WorldStep::Rename { file, path } => {
                self.has_name(file.0) && self.is_free(path.as_str().as_bytes())
            }
            WorldStep::Remove { file } => self.has_name(file.0),
        }
    }

    fn was_created(&self, file: u32) -> bool
        ensures { result ≡ was_created self.now.history file }
    {
        was_made(self.created.as_slice(), file)
    }

    fn has_name(&self, file: u32) -> bool
        ensures { result ≡ has_name (names self.now.history) file }
    {
        names::has_name(&self.names, file)
    }

    fn is_free(&self, path: &[u8]) -> bool
        ensures { result ≡ is_free (names self.now.history) path.now }
    {
        names::is_free(&self.names, path)
    }

    /// The file of that name.
    pub fn file_at(&self, path: &str) -> Option<u32>
        ensures { result ≡ file_at (names self.now.history) path.now }
    {
        names::file_at(&self.names, path)
    }

    pub fn is_folder(&self, path: &str) -> bool
        ensures { result ≡ is_folder (names self.now.history) path.now }
    {
        names::is_folder(&self.names, path)
    }

    /// The names in a folder.
    pub fn list(&self, alloc: Global, folder: &str) -> Result<Vec<Item>, AllocError>
        requires { IsTrue (is_folder (names self.now.history) folder.now) }
        ensures { IfOk result (λ items. IsListing folder.now items.items self.now.history) }
    {
        listing::list(&self.names, alloc, folder)
    }

    pub fn bytes(&self, file: u32) -> &[u8]
        ensures bytes { result.now ≡ bytes self.now.history file }
        ensures small { length result.now ≤ 4611686018427387904 }
    {
        bytes_of(self.contents.as_slice(), file)
    }

    /// The bytes of a file, where there is one.
    pub fn bytes_if(&self, file: Option<u32>) -> &[u8]
        ensures { result.now ≡ bytes_if self.now.history file }
    {
        match file {
            Some(file) => self.bytes(file),
            None => &[],
        }
    }

    /// Makes room for one more step, and a copy of the name that it gives.
    pub fn make_room(&mut self, alloc: Global, step: WorldStep) -> Result<Ready, AllocError>
        ensures history { self.new.history ≡ self.old.history }
        ensures ready { IfOk result (λ ready. event_of ready.step ≡ event_of step) }
        ensures ok { OnOk result (self.new.room ≡ self.old.room + 1) }
        ensures ok_rooms { OnOk result ((file : ℕ) → room_in self.new.rooms file
            ≡ room_in self.old.rooms file + length (added_by (event_of step) file)) }
        ensures err { OnErr result (self.new.room ≡ self.old.room) }
        ensures err_rooms { OnErr result ((file : ℕ) → room_in self.new.rooms file ≡ room_in self.old.rooms file) }
    {
        let Some(room) = self.room.checked_add(1) else {
            return Err(AllocError);
        };
        let name = match &step {
            WorldStep::Create { file: _, path } | WorldStep::Rename { file: _, path } =>
                path.share()?,
            WorldStep::Append { .. } | WorldStep::Remove { .. } => Text::empty(),
        };
        self.history.reserve(room)?;
        self.names.reserve(room)?;
        self.created.reserve(room)?;
        contents::make_room(&mut self.contents, alloc, &step)?;
        self.room = room;
        Ok(Ready { step, name })
    }

    /// Does the step, for which there is room.
    pub fn play(&mut self, ready: Ready)
        requires lawful { IsTrue (is_lawful self.old.history (event_of ready.step)) }
        requires room { 0 < self.old.room }
        requires rooms { (file : ℕ) → length (added_by (event_of ready.step) file) ≤ room_in self.old.rooms file }
        ensures history { self.new.history ≡ event_of ready.step ∷ self.old.history }
        ensures room { self.new.room + 1 ≡ self.old.room }
        ensures rooms { (file : ℕ) → room_in self.new.rooms file + length (added_by (event_of ready.step) file)
            ≡ room_in self.old.rooms file }
    {
        let Ready { step, name } = ready;
        names::change(&mut self.names, &step, name);
        note_created(&mut self.created, &step);
        contents::grow(&mut self.contents, &step);
        self.room -= 1;
        self.history.push_front_reserved(Recorded::Step(step));
    }

    /// Leaves the file so many bytes, where it has more.
    pub fn cut(&mut self, file: u32, size: usize)
        ensures history { self.new.history ≡ cut_to file size self.old.history }
        ensures room { self.new.room ≡ self.old.room }
        ensures rooms { (other : ℕ) → room_in self.new.rooms other ≡ room_in self.old.rooms other }
    {
        let surplus = self.bytes(file).len().saturating_sub(size);
        shorten::cut(self.history.make_contiguous(), file, size, surplus);
        contents::cut(&mut self.contents, file, size);
    }

    /// Takes down an event of the agent's own.
    pub fn observe(&mut self, seen: Seen) -> Result<(), AllocError>
        requires { IsTrue (may_come self.old.history (event_seen seen)) }
        ensures ok { OnOk result (self.new.history ≡ event_seen seen ∷ self.old.history) }
        ensures err { OnErr result (self.new.history ≡ self.old.history) }
        ensures room { self.new.room ≡ self.old.room }
        ensures rooms { self.new.rooms ≡ self.old.rooms }
    {
        let Some(room) = self.room.checked_add(1) else {
            return Err(AllocError);
        };
        self.history.reserve(room)?;
        self.history.push_front_reserved(Recorded::Own(seen));
        Ok(())
    }
}

fn was_made(created: &[u32], file: u32) -> bool
    ensures { result ≡ list_any (λ number. number == file) created.now }
{
    created.iter().any(|number| *number == file)
}

// Notes the file that the step makes, for which there is room.
fn note_created(created: &mut Vec<u32>, step: &WorldStep)
    requires { vec_len created.old < vec_capacity created.old }
    ensures made { (file : ℕ) → list_any (λ number. number == file) created.new.items
        ≡ (makes (event_of step.now) file || list_any (λ number. number == file) created.old.items) }
    ensures len { vec_len created.new ≤ vec_len created.old + 1 }
    ensures capacity { vec_capacity created.new ≡ vec_capacity created.old }
{
    if let WorldStep::Create { file, path: _ } = step {
        created.push_reserved(file.0);
    }
}
