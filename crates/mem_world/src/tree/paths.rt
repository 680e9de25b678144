// Tests of paths.
ghost use Rattle.std.specs.Prelude.{◌≡◌};
ghost use Rattle.outside.specs.Lawful.{clashes};
ghost use Rattle.outside.specs.Path.{is_component, is_path, is_below, relative};

pub fn is_component(part: &[u8]) -> bool
    ensures { result ≡ is_component part.now }
{
    !(part.is_empty() || part == b".".as_slice() || part == b"..".as_slice())
}

// The path without the slash that makes it absolute.
fn relative(path: &[u8]) -> &[u8]
    ensures { result.now ≡ relative path.now }
{
    match path {
        [b'/', rest @ ..] => rest,
        _ => path,
    }
}

pub fn is_path(path: &[u8]) -> bool
    ensures { result ≡ is_path path.now }
{
    relative(path)
        .split(|byte| *byte == b'/')
        .all(|part| is_component(part))
}

pub fn is_below(folder: &[u8], path: &[u8]) -> bool
    ensures { result ≡ is_below folder.now path.now }
{
    if path.len() <= folder.len() {
        return false;
    }
    path.starts_with(folder) && path[folder.len()] == b'/'
}

pub fn clashes(path: &[u8], other: &[u8]) -> bool
    ensures { result ≡ clashes path.now other.now }
{
    path == other || is_below(path, other) || is_below(other, path)
}
