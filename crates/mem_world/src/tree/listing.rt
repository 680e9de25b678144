// The names in a folder.
ghost use Rattle.std.specs.Prelude.{◌≡◌, ◌≢◌, ◌==◌, ℕ, List, IsTrue, IfOk, MatchOption, Some, is_some};
ghost use Rattle.std.specs.List.{before_first, list_any};
ghost use Rattle.std.specs.Str.{bytes_eq};
ghost use Rattle.outside.specs.Listing.{is_folder, kind_at, path_within};
ghost use Rattle.outside.specs.World.{file_at};
ghost use Rattle.outside.specs.declared.tree.Kind.{Kind};
ghost use Rattle.mem_world.specs.TreeNames.{names_of};
ghost use Rattle.mem_world.specs.TreeListing.{ListsNames};

use super::names::Names;
use super::paths::is_component;
use entry_model::Text;
use outside::{Item, Kind};
use std::alloc::{AllocError, Global};

/// The names in a folder, each once, with their kinds.
pub fn list(names: &Names, alloc: Global, folder: &str) -> Result<Vec<Item>, AllocError>
    requires { IsTrue (is_folder (names_of names.now.items) folder.now) }
    ensures { IfOk result (λ items. ListsNames folder.now items.items (names_of names.now.items)) }
{
    let mut items: Vec<Item> = Vec::new(alloc);
    for place in 0..names.len() {
        let Some(rest) = rest_in(folder, names[place].path.as_str()) else {
            continue;
        };
        let name = first_of(rest);
        if !is_component(name.as_bytes()) {
            continue;
        }
        if has_item(items.as_slice(), name) {
            continue;
        }
        let kind = kind_of(names, folder, name);
        let name = Text::from_str(alloc, name)?;
        items.push(Item { name, kind })?;
    }
    Ok(items)
}

// What follows the folder in the path.
fn rest_in<'a>(folder: &str, path: &'a str) -> Option<&'a str>
    ensures { MatchOption result ((rest : List ℕ) → path.now ≢ path_within folder.now rest)
        (λ rest. path.now ≡ path_within folder.now rest.now) }
{
    if folder.is_empty() {
        Some(path)
    } else if folder == "/" {
        path.strip_prefix('/')
    } else {
        path.strip_prefix(folder)?.strip_prefix('/')
    }
}

// The first component.
fn first_of(path: &str) -> &str
    ensures { result.now ≡ before_first (λ byte. byte == 47) path.now }
{
    match path.split_once('/') {
        Some((first, _)) => first,
        None => path,
    }
}

fn has_item(items: &[Item], name: &str) -> bool
    ensures { result ≡ list_any (λ item. bytes_eq item.name name.now) items.now }
{
    items.iter().any(|item| item.name.as_str() == name)
}

// The kind of a name that some path in the folder begins with.
fn kind_of(names: &Names, folder: &str, name: &str) -> Kind
    ensures { (kind : Kind) → kind_at (names_of names.now.items) (path_within folder.now name.now) ≡ Some kind → result ≡ kind }
{
    if is_file(names, folder, name) {
        Kind::File
    } else {
        Kind::Folder
    }
}

fn is_file(names: &Names, folder: &str, name: &str) -> bool
    ensures { result ≡ is_some (file_at (names_of names.now.items) (path_within folder.now name.now)) }
{
    names
        .iter()
        .any(|held| is_path_of(folder, name, held.path.as_str()))
}

fn is_path_of(folder: &str, name: &str, path: &str) -> bool
    ensures { result ≡ bytes_eq path.now (path_within folder.now name.now) }
{
    match rest_in(folder, path) {
        Some(rest) => rest == name,
        None => false,
    }
}
