// Tags of the Container Runtime Interface.
ghost use Rattle.std.specs.Prelude.{◌≡◌};
ghost use Rattle.container_parser.specs.CriLines.{tagged_partial, marked_partial, tag_reach};

/// Whether a tag is that of a part of a line, where it is a tag.
pub fn tagged_partial(tag: &str) -> Option<bool>
    ensures { result ≡ tagged_partial tag.now }
{
    match *tag.as_bytes() {
        [mark] => marked_partial(mark),
        [mark, b':', ..] => marked_partial(mark),
        _ => None,
    }
}

fn marked_partial(mark: u8) -> Option<bool>
    ensures { result ≡ marked_partial mark }
{
    match mark {
        b'P' => Some(true),
        b'F' => Some(false),
        _ => None,
    }
}

/// How many bytes of a tag the text begins with, where it begins with no whole one.
pub fn tag_fault(text: &str) -> usize
    ensures { result ≡ tag_reach text.now }
{
    match *text.as_bytes() {
        [mark, ..] if marked_partial(mark).is_some() => 1,
        _ => 0,
    }
}
