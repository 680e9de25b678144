// Blanks at the ends of a text: space, tab, LF and CR.
ghost use Rattle.std.specs.Prelude.{◌≡◌, ◌-◌, ◌≤◌, length};
ghost use Rattle.std.specs.List.{prefix_len, suffix_len};
ghost use Rattle.std.specs.Str.{IsCharBoundary};
ghost use Rattle.text_parsers.specs.Blanks.{is_blank as is_blank_byte, trimmed};

pub fn is_blank(byte: u8) -> bool
    ensures { result ≡ is_blank_byte byte }
{
    byte == b' ' || byte == b'\t' || byte == b'\n' || byte == b'\r'
}

/// How many blanks the text begins with.
pub fn blanks_before(text: &str) -> usize
    ensures count { result ≡ prefix_len is_blank_byte text.now }
    ensures within { result ≤ length text.now }
    ensures boundary { IsCharBoundary text.now result }
{
    blank_count(text.as_bytes())
}

fn blank_count(bytes: &[u8]) -> usize
    ensures { result ≡ prefix_len is_blank_byte bytes.now }
{
    bytes.iter().take_while(|byte| is_blank(**byte)).count()
}

/// How many blanks the text ends with.
fn blanks_behind(text: &str) -> usize
    ensures count { result ≡ suffix_len is_blank_byte text.now }
    ensures within { result ≤ length text.now }
    ensures boundary { IsCharBoundary text.now (length text.now - result) }
{
    text.as_bytes()
        .iter()
        .rev()
        .take_while(|byte| is_blank(**byte))
        .count()
}

/// The text without the blanks at its ends.
#[tactic(auto, unfolding(crate::specs::Blanks::trimmed))]
pub fn trim(text: &str) -> &str
    ensures { result.now ≡ trimmed text.now }
{
    let rest = &text[blanks_before(text)..];
    &rest[..rest.len() - blanks_behind(rest)]
}
