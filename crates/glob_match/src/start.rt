// Where a walk for the matches of a pattern begins.
ghost use Rattle.std.specs.Prelude.{◌≡◌, ◌∷◌, ◌++◌, [], IfOk, OnOk, string_bytes, option_map, encode_utf8_all, if◌then◌else◌};
ghost use Rattle.glob_match.specs.Start.{start, plain_characters, plain_name as plain_name_of};

use crate::glob::Glob;
use crate::pattern::{Component, Piece, Unit};
use std::alloc::{AllocError, Global};

impl Glob {
    /// The folder in which a walk for the matches begins: the longest run of the pattern's leading components, not the
    /// last, without a special character. It is the empty text, or `/` for an absolute pattern, where there is none.
    pub fn start(&self, alloc: Global) -> Result<String, AllocError>
        ensures { IfOk result (λ folder. string_bytes folder ≡ start self.now) }
    {
        let mut folder = String::from_str(alloc, self.root())?;
        let leading = &self.components[..self.components.len().saturating_sub(1)];
        let mut is_first = true;
        for component in leading {
            let Some(name) = plain_name(alloc, component)? else {
                return Ok(folder);
            };
            push_name(&mut folder, is_first, name.as_str())?;
            is_first = false;
        }
        Ok(folder)
    }
}

fn push_name(folder: &mut String, is_first: bool, name: &str) -> Result<(), AllocError>
    ensures { OnOk result (string_bytes folder.new ≡ string_bytes folder.old ++ ((if is_first then [] else 47 ∷ []) ++ name.now)) }
{
    if !is_first {
        folder.push('/')?;
    }
    folder.push_str(name)?;
    Ok(())
}

/// The component's name, where it has no special character.
fn plain_name(alloc: Global, component: &Component) -> Result<Option<String>, AllocError>
    ensures { IfOk result (λ name. option_map string_bytes name ≡ plain_name_of component.now) }
{
    match component {
        Component::Folders => Ok(None),
        Component::Name(pieces) => plain_text(alloc, &pieces.pieces),
    }
}

fn plain_text(alloc: Global, pieces: &[Piece]) -> Result<Option<String>, AllocError>
    ensures { IfOk result (λ text. option_map string_bytes text ≡ option_map encode_utf8_all (plain_characters pieces.now)) }
{
    let mut text = String::new(alloc);
    for piece in pieces {
        match piece {
            Piece::Single(Unit::Plain(character)) => text.push(*character)?,
            _ => return Ok(None),
        }
    }
    Ok(Some(text))
}
