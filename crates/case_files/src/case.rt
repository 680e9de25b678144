// A block of a file as a case.
ghost use Rattle.std.specs.Prelude.{◌≡◌, ◌++◌, IfOk, IfSome};
ghost use Rattle.case_files.specs.Cases.{IsCase};

use crate::escapes::unescaped;
use std::alloc::{AllocError, Global};

/// One case of a file.
#[derive(Drop)]
pub struct Case<'t> {
    /// The first word.
    pub call: &'t str,
    /// What stands behind it in its line.
    pub words: &'t str,
    /// The input as it stands: its lines with a LF between them, and none behind the last.
    pub text: &'t str,
    /// The bytes that the input means.
    pub input: Vec<u8>,
    /// The answer that is wanted.
    pub wanted: &'t str,
}

impl<'t> Case<'t> {
    /// The case of a block, where it is one.
    pub fn read(alloc: Global, block: &'t str) -> Result<Option<Case<'t>>, AllocError>
        ensures { IfOk result (λ found. IfSome found (IsCase block.now)) }
    {
        let Some((head, rest)) = parts_at(block, "\n") else {
            return Ok(None);
        };
        let Some((input, wanted)) = parts_at(rest, "----\n") else {
            return Ok(None);
        };
        let (call, words) = head.split_once(' ').unwrap_or((head, ""));
        let text = input.strip_suffix('\n').unwrap_or(input);
        Ok(Some(Case {
            call,
            words,
            text,
            input: unescaped(alloc, text)?,
            wanted,
        }))
    }
}

// What stands before and behind the first such mark.
#[tactic(auto, using(std::proofs::lemmas::Str::Pattern::split_text_parts))]
fn parts_at<'t>(text: &'t str, mark: &str) -> Option<(&'t str, &'t str)>
    ensures { IfSome result (λ parts. text.now ≡ parts.0.now ++ (mark.now ++ parts.1.now)) }
{
    text.split_once(mark)
}
