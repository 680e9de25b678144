// Paths of folders and of what is in them.
ghost use Rattle.std.specs.Prelude.{◌≡◌, ◌==◌, ◌++◌, ℕ, List, count_by, string_bytes, IfOk};
ghost use Rattle.glob_match.specs.Path.{is_absolute as begins_absolute};
ghost use Rattle.outside.specs.Listing.{path_within as path_of_name};
ghost use Rattle.tree_walk.specs.Depth.{depth as depth_of};

use std::alloc::{AllocError, Global};

/// The path of a name in a folder.
pub(crate) fn path_within(alloc: Global, folder: &str, name: &str) -> Result<String, AllocError>
    ensures { IfOk result (λ path. string_bytes path ≡ path_of_name folder.now name.now) }
{
    let length = folder.len().saturating_add(name.len()).saturating_add(1);
    let mut path = String::with_capacity(alloc, length)?;
    path.push_str(folder)?;
    path.push_str(separator(folder))?;
    path.push_str(name)?;
    Ok(path)
}

/// What stands between a folder and a name in it.
fn separator(folder: &str) -> &'static str
    ensures { (name : List ℕ) → folder.now ++ (result.now ++ name) ≡ path_of_name folder.now name }
{
    if folder.is_empty() || folder == "/" {
        return "";
    }
    "/"
}

/// The number of components of a folder's path, none of the working folder and of the root.
pub(crate) fn depth(folder: &str) -> usize
    ensures { result ≡ depth_of folder.now }
{
    if folder.is_empty() || folder == "/" {
        return 0;
    }
    let slashes = count_slashes(folder.as_bytes());
    if is_absolute(folder) {
        slashes
    } else {
        slashes + 1
    }
}

fn is_absolute(path: &str) -> bool
    ensures { result ≡ begins_absolute path.now }
{
    path.as_bytes().first() == Some(&b'/')
}

fn count_slashes(bytes: &[u8]) -> usize
    ensures { result ≡ count_by (λ byte. byte == 47) bytes.now }
{
    bytes.iter().filter(|byte| **byte == b'/').count()
}
