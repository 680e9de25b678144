// The formats of lines, and how they are told apart.
ghost use Rattle.std.specs.Prelude.{◌≡◌};
ghost use Rattle.container_parser.specs.Formats.{format_of};

use crate::split::at_space;

/// Who wrote a line.
#[derive(Clone, Copy, Debug, PartialEq, Eq)]
pub enum Format {
    /// Docker, as JSON.
    Docker,
    /// CRI-O: the Container Runtime Interface, with times of any zone.
    Crio,
    /// containerd: the Container Runtime Interface, with times in UTC.
    Containerd,
}

/// The format that a line seems to have: Docker's where it begins with `{`; else containerd's where what stands before its
/// first space ends with `Z`, or all of it where there is no space; else CRI-O's. Nothing else of it is looked at.
#[tactic(auto, unfolding(crate::specs::Formats::format_of))]
pub fn detect(text: &str) -> Format
    ensures { result ≡ format_of text.now }
{
    if text.starts_with('{') {
        return Format::Docker;
    }
    let (word, _) = at_space(text);
    if word.ends_with('Z') {
        Format::Containerd
    } else {
        Format::Crio
    }
}
