// What cuts the bytes of files into tokens.
ghost use Rattle.std.specs.Prelude.{◌≡◌, ◌≤◌, ◌++◌, ℕ, List, OnOk, IfOk, IfErr, IfSome, IfNone};
ghost use Rattle.pipeline.specs.NextToken.{IsNext};
ghost use Rattle.pipeline.specs.Searched.{IsSearchedBy};
ghost use Rattle.pipeline.specs.Splitters.{multiline_of, said_by, HasPattern, IsMultilineFault};
ghost use Rattle.pipeline.specs.Tokens.{first_cut_by};

use crate::BuildFault;
use line_splitter::{Token, next};
use multiline::{Cutter, PatternFault};
use settings_text::Multiline;
use std::alloc::{AllocError, Global};

/// Which lines make a token.
#[derive(Drop)]
pub(crate) enum Splitter {
    Lines,
    Several(Cutter),
}

impl Splitter {
    pub(crate) fn new(alloc: Global, multiline: &Multiline) -> Result<Splitter, BuildFault>
        ensures made { IfOk result (λ splitter. multiline_of splitter ≡ multiline.now) }
        ensures pattern { OnOk result (HasPattern multiline.now) }
        ensures fault { IfErr result (IsMultilineFault multiline.now) }
    {
        let made = match multiline {
            Multiline::Lines => return Ok(Splitter::Lines),
            Multiline::Start(pattern) => Cutter::start(alloc, pattern.as_str()),
            Multiline::End(pattern) => Cutter::end(alloc, pattern.as_str()),
        };
        match made {
            Ok(cutter) => Ok(Splitter::Several(cutter)),
            Err(PatternFault::Refused) => Err(BuildFault::Multiline),
            Err(PatternFault::Memory) => Err(BuildFault::Memory),
        }
    }

    /// The first token of the bytes, where entries are cut after `max` bytes; `None` where more bytes are needed to decide
    /// it. `searched` is 0 for bytes of which none were searched, and else what a call that answered `None` for the first of
    /// them left there. With a token it is 0, for the bytes past it.
    #[inline(always)]
    pub(crate) fn next(
        &self,
        alloc: Global,
        max: usize,
        bytes: &[u8],
        searched: &mut usize,
    ) -> Result<Option<Token>, AllocError>
        requires max { 1 ≤ max }
        requires searched { IsSearchedBy (multiline_of self.now) max bytes.now searched.old }
        ensures token { IfOk result (IsNext (first_cut_by (multiline_of self.now) max) bytes.now) }
        ensures goes_on { IfOk result (λ token. IfNone token ((more : List ℕ) → IsSearchedBy (multiline_of self.now) max (bytes.now ++ more) searched.new)) }
        ensures begins_anew { IfOk result (λ token. IfSome token (λ t. searched.new ≡ 0)) }
    {
        match self {
            Splitter::Lines => {
                *searched = 0;
                Ok(next(max, bytes))
            }
            Splitter::Several(cutter) => next_of_several(alloc, cutter, max, bytes, searched),
        }
    }
}

// The first token of lines that are taken together. A call of its own, so that the loop over plain lines is short.
#[inline(never)]
#[tactic(auto, using(crate::proofs::Cutting::searched_of_several, crate::proofs::Cutting::searched_by_several))]
fn next_of_several(
    alloc: Global,
    cutter: &Cutter,
    max: usize,
    bytes: &[u8],
    searched: &mut usize,
) -> Result<Option<Token>, AllocError>
    requires max { 1 ≤ max }
    requires searched { IsSearchedBy (said_by cutter.now) max bytes.now searched.old }
    ensures token { IfOk result (IsNext (first_cut_by (said_by cutter.now) max) bytes.now) }
    ensures goes_on { IfOk result (λ token. IfNone token ((more : List ℕ) → IsSearchedBy (said_by cutter.now) max (bytes.now ++ more) searched.new)) }
    ensures begins_anew { IfOk result (λ token. IfSome token (λ t. searched.new ≡ 0)) }
{
    cutter.next_behind(alloc, max, bytes, searched)
}
