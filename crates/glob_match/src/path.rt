// The names of a path, one by one.
ghost use Rattle.std.specs.Prelude.{◌≡◌, ◌∷◌, ◌<◌, length};
ghost use Rattle.glob_match.specs.Path.{is_name as is_a_name, is_path as is_a_path, names, is_absolute as begins_absolute, relative as without_slash};
ghost use Rattle.glob_match.specs.Inner.Walked.{names_left};

/// The first name of a path, and what is left behind it.
pub(crate) fn split(path: &str) -> (&str, Option<&str>)
    ensures { names path.now ≡ result.0.now ∷ names_left result.1 }
{
    match path.split_once('/') {
        Some((name, rest)) => (name, Some(rest)),
        None => (path, None),
    }
}

pub(crate) fn is_absolute(path: &str) -> bool
    ensures { result ≡ begins_absolute path.now }
{
    path.as_bytes().first() == Some(&b'/')
}

/// The path without the slash that makes it absolute.
pub(crate) fn relative(path: &str) -> &str
    ensures { result.now ≡ without_slash path.now }
{
    if is_absolute(path) { &path[1..] } else { path }
}

/// Whether each name of the path is one: neither empty nor `.` nor `..`.
pub(crate) fn is_path(path: &str) -> bool
    ensures { result ≡ is_a_path path.now }
{
    let mut left = Some(relative(path));
    while let Some(rest) = left {
        let (name, others) = split(rest);
        if !is_name(name) {
            return false;
        }
        left = others;
    }
    true
}

fn is_name(name: &str) -> bool
    ensures { result ≡ is_a_name name.now }
{
    !matches!(name, "" | "." | "..")
}
