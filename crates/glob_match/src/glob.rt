// A glob, and reading it out of its text.
ghost use Rattle.std.specs.Prelude.{◌≡◌, ◌≤◌, ◌<◌, ◌^◌, IfOk, IfErr, length, take, encode_utf8_all};
ghost use Rattle.std.specs.Str.{chars};
ghost use Rattle.glob_match.specs.GlobFaults.{IsReadFault};
ghost use Rattle.glob_match.specs.GlobText.{IsGlobText};

use crate::pattern::Component;
use crate::reader::Reader;
use std::alloc::{AllocError, Global};
use std::marker::Model;
use thiserror::Error;

/// A pattern for paths.
#[derive(Drop)]
pub struct Glob {
    pub(crate) is_absolute: bool,
    pub(crate) components: Vec<Component>,
}

impl Model for Glob {
    ghost use Rattle.std.specs.Prelude.{IsTrue};
    ghost use Rattle.glob_match.specs.Pattern.{Pattern, ends_in_name};

    ghost Value = { Pattern };

    ghost view = { λ glob. record { is_absolute = glob.is_absolute; components = glob.components.items } };

    ghost invariant = { λ glob. IsTrue (ends_in_name glob.components.items) };
}

/// Why a text is no glob.
#[derive(Clone, Copy, Debug, PartialEq, Eq, Drop, Error)]
pub enum GlobFault {
    /// `at` is the place in bytes of the first character with which no glob goes on. Where only more text is missing it
    /// is the place of the outermost bracket or brace that isn't closed, or the text's length where there is none.
    #[error("no glob at byte {at}")]
    Syntax { at: usize },
    #[error("out of memory")]
    Memory,
}

impl From<AllocError> for GlobFault {
    ghost use Rattle.std.specs.Prelude.{◌≡◌};
    ghost use Rattle.glob_match.specs.declared.glob.GlobFault.TheVariants.{Memory};

    ghost from_gives = { λ _ fault. fault ≡ Memory };

    fn from(_error: AllocError) -> GlobFault {
        GlobFault::Memory
    }
}

impl Glob {
    /// The pattern that a text spells: components with `/` between them, and a `/` before them where the pattern is
    /// absolute. No component is empty, `.` or `..`.
    ///
    /// - `*` matches any number of characters and `?` one.
    /// - `[..]` matches one character out of single ones and ranges `a-z`, `[^..]` and `[!..]` one other. A dash that is
    ///   the first or the last stands for itself, and a `]` inside is escaped.
    /// - `{a,b}` matches one of its parts, which hold no further brace.
    /// - A backslash takes the next character as itself.
    /// - The component `**` matches zero or more components, and as the last component it is read as `**/*`.
    ///
    /// `Syntax` exactly for every other text.
    pub fn read(alloc: Global, text: &str) -> Result<Glob, GlobFault>
        ensures ok { IfOk result (λ glob. IsGlobText (chars text.now) glob) }
        ensures fault { IfErr result (λ fault. IsReadFault (chars text.now) fault) }
    {
        let characters: Vec<char> = text.chars().collect(alloc)?;
        read_characters(alloc, &characters)
    }
}

fn read_characters(alloc: Global, characters: &[char]) -> Result<Glob, GlobFault>
    requires { length (encode_utf8_all characters.now) < 2 ^ 64 }
    ensures ok { IfOk result (λ glob. IsGlobText characters.now glob) }
    ensures fault { IfErr result (λ fault. IsReadFault characters.now fault) }
{
    let mut reader = Reader::new(alloc);
    let mut closed = 0;
    for (at, character) in characters.iter().enumerate() {
        if !reader.step(alloc, *character)? {
            return Err(syntax(characters, at));
        }
        if !reader.is_open() {
            closed = at + 1;
        }
    }
    let Some(glob) = reader.end(alloc)? else {
        return Err(syntax(characters, closed));
    };
    Ok(glob)
}

/// The fault at a place among the characters, told in bytes.
fn syntax(characters: &[char], place: usize) -> GlobFault
    requires within { place ≤ length characters.now }
    requires small { length (encode_utf8_all characters.now) < 2 ^ 64 }
    ensures { result ≡ GlobFault.Syntax (length (encode_utf8_all (take place characters.now))) }
{
    let mut at = 0;
    for character in &characters[..place] {
        at += character.len_utf8();
    }
    GlobFault::Syntax { at }
}
