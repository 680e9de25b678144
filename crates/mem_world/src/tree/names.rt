// The names of files, the newest first.
ghost use Rattle.std.specs.Prelude.{◌≡◌, ◌≤◌, ◌<◌, ◌+◌};
ghost use Rattle.std.specs.List.{list_any};
ghost use Rattle.std.specs.VecDeque.{deque_len, deque_capacity};
ghost use Rattle.outside.specs.Lawful.{is_free, clashes};
ghost use Rattle.outside.specs.Path.{is_below};
ghost use Rattle.outside.specs.Listing.{is_folder};
ghost use Rattle.outside.specs.World.{file_at, has_name, without};
ghost use Rattle.mem_world.specs.TreeNames.{names_of};
ghost use Rattle.mem_world.specs.WorldSteps.{event_of, name_given, names_after};

use super::paths::{clashes, is_below, is_path};
use crate::world::WorldStep;
use entry_model::Text;
use std::collections::VecDeque;

/// The name of a file.
#[derive(Drop)]
pub struct Name {
    pub path: Text,
    pub file: u32,
}

pub type Names = VecDeque<Name>;

pub fn has_name(names: &Names, file: u32) -> bool
    ensures { result ≡ has_name (names_of names.now.items) file }
{
    names.iter().any(|name| name.file == file)
}

pub fn is_free(names: &Names, path: &[u8]) -> bool
    ensures { result ≡ is_free (names_of names.now.items) path.now }
{
    is_path(path) && !is_taken(names, path)
}

fn is_taken(names: &Names, path: &[u8]) -> bool
    ensures { result ≡ list_any (λ name. clashes path.now name.0) (names_of names.now.items) }
{
    names
        .iter()
        .any(|name| clashes(path, name.path.as_str().as_bytes()))
}

/// The file of that name.
pub fn file_at(names: &Names, path: &str) -> Option<u32>
    ensures { result ≡ file_at (names_of names.now.items) path.now }
{
    match names.iter().find(|name| name.path.as_str() == path) {
        Some(name) => Some(name.file),
        None => None,
    }
}

/// Whether the path is that of a folder.
pub fn is_folder(names: &Names, path: &str) -> bool
    ensures { result ≡ is_folder (names_of names.now.items) path.now }
{
    path.is_empty() || path == "/" || is_on_a_path(names, path.as_bytes())
}

fn is_on_a_path(names: &Names, folder: &[u8]) -> bool
    ensures { result ≡ list_any (λ name. is_below folder.now name.0) (names_of names.now.items) }
{
    names
        .iter()
        .any(|name| is_below(folder, name.path.as_str().as_bytes()))
}

/// Names the file as the step does. There is room for one more name.
pub fn change(names: &mut Names, step: &WorldStep, name: Text)
    requires name { name ≡ name_given (event_of step.now) }
    requires room { deque_len names.old < deque_capacity names.old }
    ensures names { names_of names.new.items ≡ names_after (event_of step.now) (names_of names.old.items) }
    ensures len { deque_len names.new ≤ deque_len names.old + 1 }
    ensures capacity { deque_capacity names.new ≡ deque_capacity names.old }
{
    match step {
        WorldStep::Create { file, path: _ } => names.push_front_reserved(Name {
            path: name,
            file: file.0,
        }),
        WorldStep::Append { .. } => {}
        WorldStep::Rename { file, path: _ } => {
            drop_name(names, file.0);
            names.push_front_reserved(Name {
                path: name,
                file: file.0,
            });
        }
        WorldStep::Remove { file } => drop_name(names, file.0),
    }
}

// Takes the file's name away.
fn drop_name(names: &mut Names, file: u32)
    ensures names { names_of names.new.items ≡ without file (names_of names.old.items) }
    ensures len { deque_len names.new ≤ deque_len names.old }
    ensures capacity { deque_capacity names.new ≡ deque_capacity names.old }
{
    names.retain(|name| !(name.file == file));
}
