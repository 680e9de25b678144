// The lines of one file.
ghost use Rattle.std.specs.Prelude.{◌≡◌, MatchBool, if◌then◌else◌, [], ◌∷◌, ◌++◌, map, IfSome, IfNone, IfOk, OnOk};
ghost use Rattle.kept_lines.specs.Lines.{whole_lines, IsFirstLength};
ghost use Rattle.kept_lines.specs.OwnLines.{IsOf, AreOf};

use crate::numbers::told_number;
use crate::tails::append_tail;
use memchr::memchr;
use std::alloc::{AllocError, Global};

/// Whether the line ends as a line of this file does, whatever its number.
pub(crate) fn is_of(alloc: Global, id: u32, line: &[u8]) -> Result<bool, AllocError>
    ensures { IfOk result (λ own. MatchBool own (IsOf id line.now) (IsOf id line.now → ⊥)) }
{
    let Some(number) = told_number(line) else {
        return Ok(false);
    };
    let mut tail = Vec::new(alloc);
    append_tail(id, number, &mut tail)?;
    Ok(line.ends_with(&tail))
}

/// Puts the line behind the others, where it is of the file.
fn keep<'o>(own: &mut Vec<&'o [u8]>, line: &'o [u8], is_own: bool) -> Result<(), AllocError>
    ensures { OnOk result (map (λ line. line.now) own.new.items
        ≡ map (λ line. line.now) own.old.items ++ (if is_own then line.now ∷ [] else [])) }
{
    if !is_own {
        return Ok(());
    }
    own.push(line)?;
    Ok(())
}

/// How long the first line of a text is, with its LF.
pub(crate) fn first_length(text: &[u8]) -> Option<usize>
    ensures none { IfNone result (whole_lines text.now ≡ []) }
    ensures some { IfSome result (λ length. IsFirstLength text.now length) }
{
    match memchr(b'\n', text) {
        Some(at) => Some(at + 1),
        None => None,
    }
}

/// The whole lines of the file with this id, each with its LF, in the order in which they stand in the output.
pub fn lines_of<'o>(alloc: Global, id: u32, output: &'o [u8]) -> Result<Vec<&'o [u8]>, AllocError>
    ensures { IfOk result (λ own. AreOf id (whole_lines output.now) (map (λ line. line.now) own.items)) }
{
    let mut own = Vec::new(alloc);
    let mut rest = output;
    'cutting: while let Some(length) = first_length(rest) {
        let line = &rest[..length];
        let is_own = is_of(alloc, id, line)?;
        keep(&mut own, line, is_own)?;
        rest = &rest[length..];
    }
    Ok(own)
}
