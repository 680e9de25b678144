// The agent's own files.
ghost use Rattle.std.specs.Char.{is_ascii_digit};
ghost use Rattle.std.specs.List.{list_all};
ghost use Rattle.std.specs.Prelude.{◌≡◌, ◌↔◌, IsTrue};
ghost use Rattle.standing.specs.OwnNames.{IsOwnName, IsPartOfOutput};

/// Whether this is the name of one of the agent's own files, in its folder.
pub fn is_own_name(path: &str) -> bool
    ensures { IsTrue result ↔ IsOwnName path.now }
{
    path == "settings.json"
        || path == "output.jsonl"
        || path == "checkpoint.a"
        || path == "checkpoint.b"
        || is_part_of_output(path.as_bytes())
}

// `output.`, digits and `.jsonl`.
fn is_part_of_output(path: &[u8]) -> bool
    ensures { IsTrue result ↔ IsPartOfOutput path.now }
{
    let Some(rest) = path.strip_prefix(b"output.".as_slice()) else {
        return false;
    };
    let Some(digits) = rest.strip_suffix(b".jsonl".as_slice()) else {
        return false;
    };
    !digits.is_empty() && are_digits(digits)
}

fn are_digits(bytes: &[u8]) -> bool
    ensures { result ≡ list_all is_ascii_digit bytes.now }
{
    bytes.iter().all(|byte| byte.is_ascii_digit())
}
