// Cutters of tokens of several lines.
ghost use Rattle.std.specs.Prelude.{◌≡◌, ℕ, ◌+◌, ◌<◌, ◌≤◌, ◌++◌, true, List, length, OnErr, IfOk, IfErr, IfSome, IfNone};
ghost use Rattle.multiline.specs.Patterns.{is_pattern};
ghost use Rattle.multiline.specs.Cutting.{starting, ending, cutting_at};
ghost use Rattle.multiline.specs.MultilineTokens.{cut_before};
ghost use Rattle.multiline.specs.NextToken.{cut_of, IsNext};
ghost use Rattle.multiline.specs.PatternFault.{IsPatternFault};
ghost use Rattle.multiline.specs.Searched.{IsSearched};
ghost use Rattle.multiline.specs.Stops.{IsStop};

use crate::lines::text_of;
use crate::pattern::{Pattern, Search};
use crate::stops::Stop;
use crate::{PatternFault, Token};
use std::alloc::{AllocError, Global};
use std::cell::RefCell;
use std::marker::Model;

/// Whether marked lines begin tokens or end them.
#[derive(Clone, Copy)]
pub enum Boundary {
    Start,
    End,
}

/// Cuts tokens of several lines off the front of some bytes.
#[derive(Drop)]
pub struct Cutter {
    boundary: Boundary,
    /// Never freed, so that a search can be kept beside it.
    pattern: &'static Pattern,
    kept: RefCell<Search<'static>>,
}

impl Model for Cutter {
    ghost use Rattle.multiline.specs.Cutting.{Cutting, cutting_at};
    ghost use Rattle.regex.specs.Strings.{regex_source};

    ghost Value = { Cutting };

    ghost view = { λ cutter. cutting_at cutter.boundary (regex_source cutter.pattern.now.regex) };
}

impl Cutter {
    /// Each line in which the pattern is found begins a token. `Refused` only where the text isn't a pattern of the crate
    /// `regex` or nests too deep for it. The pattern's memory is kept until the program ends.
    pub fn start(alloc: Global, pattern: &str) -> Result<Cutter, PatternFault>
        ensures made { IfOk result (λ cutter. cutter ≡ starting pattern.now) }
        ensures read { IfOk result (λ cutter. is_pattern pattern.now ≡ true) }
        ensures fault { IfErr result (IsPatternFault pattern.now) }
    {
        Cutter::new(alloc, Boundary::Start, pattern)
    }

    /// Each line in which the pattern is found ends a token. `Refused` and memory as in [`Cutter::start`].
    pub fn end(alloc: Global, pattern: &str) -> Result<Cutter, PatternFault>
        ensures made { IfOk result (λ cutter. cutter ≡ ending pattern.now) }
        ensures read { IfOk result (λ cutter. is_pattern pattern.now ≡ true) }
        ensures fault { IfErr result (IsPatternFault pattern.now) }
    {
        Cutter::new(alloc, Boundary::End, pattern)
    }

    fn new(alloc: Global, boundary: Boundary, pattern: &str) -> Result<Cutter, PatternFault>
        ensures made { IfOk result (λ cutter. cutter ≡ cutting_at boundary pattern.now) }
        ensures read { IfOk result (λ cutter. is_pattern pattern.now ≡ true) }
        ensures fault { IfErr result (IsPatternFault pattern.now) }
    {
        let pattern = match Pattern::new(alloc, pattern) {
            Ok(pattern) => pattern,
            Err(fault) => return Err(fault),
        };
        let pattern: &'static Pattern = Box::leak(Box::new(alloc, pattern)?);
        let kept = RefCell::new(Search::new(alloc, pattern)?);
        Ok(Cutter {
            boundary,
            pattern,
            kept,
        })
    }

    /// The first token of `bytes`, where entries are cut after `max` bytes; `None` exactly where more bytes are needed to
    /// decide it. Its text is `bytes[from..to]` with `from` 0, and `after` bytes are used, the line end among them.
    pub fn next(&self, alloc: Global, max: usize, bytes: &[u8]) -> Result<Option<Token>, AllocError>
        requires { 1 ≤ max }
        ensures { IfOk result (IsNext self.now max bytes.now) }
    {
        self.next_behind(alloc, max, bytes, &mut 0)
    }

    /// As [`Cutter::next`], for bytes that come in pieces: `searched` is 0 for bytes of which none were searched, and else
    /// what a call that answered `None` for the first of them left there. So no line is searched again. With a token it
    /// is 0, for the bytes past it; after want of memory it is what it was.
    pub fn next_behind(
        &self,
        alloc: Global,
        max: usize,
        bytes: &[u8],
        searched: &mut usize,
    ) -> Result<Option<Token>, AllocError>
        requires max { 1 ≤ max }
        requires searched { IsSearched self.now max bytes.now searched.old }
        ensures token { IfOk result (IsNext self.now max bytes.now) }
        ensures goes_on { IfOk result (λ token. IfNone token ((more : List ℕ) → IsSearched self.now max (bytes.now ++ more) searched.new)) }
        ensures begins_anew { IfOk result (λ token. IfSome token (λ t. searched.new ≡ 0)) }
        ensures kept { OnErr result (searched.new ≡ searched.old) }
    {
        match self.stop(alloc, max, bytes, *searched)? {
            Stop::Marked(place) => {
                *searched = 0;
                Ok(Some(token_before(bytes, place)))
            }
            Stop::Undecided(place) => {
                *searched = place;
                Ok(None)
            }
            Stop::Nowhere if max < bytes.len() => {
                *searched = 0;
                Ok(Some(Token {
                    from: 0,
                    to: max,
                    after: max,
                }))
            }
            Stop::Nowhere => {
                *searched = bytes.len();
                Ok(None)
            }
        }
    }

    /// By the search that is kept.
    fn stop(&self, alloc: Global, max: usize, bytes: &[u8], from: usize) -> Result<Stop, AllocError>
        requires max { 1 ≤ max }
        requires searched { IsSearched self.now max bytes.now from }
        ensures { IfOk result (IsStop self.now max bytes.now) }
    {
        if let Ok(mut search) = self.kept.try_borrow_mut() {
            if search.pattern.source() == self.pattern.source() {
                return search.stop(alloc, self.boundary, max, bytes, from);
            }
        }
        self.stop_anew(alloc, max, bytes, from)
    }

    /// As `stop`, by a search of its own: where the kept one is lent.
    #[cold]
    #[inline(never)]
    fn stop_anew(
        &self,
        alloc: Global,
        max: usize,
        bytes: &[u8],
        from: usize,
    ) -> Result<Stop, AllocError>
        requires max { 1 ≤ max }
        requires searched { IsSearched self.now max bytes.now from }
        ensures { IfOk result (IsStop self.now max bytes.now) }
    {
        let mut search = Search::new(alloc, self.pattern)?;
        search.stop(alloc, self.boundary, max, bytes, from)
    }
}

// The token that the LF at `place` ends.
fn token_before(bytes: &[u8], place: usize) -> Token
    requires { place < length bytes.now }
    ensures cut { cut_of bytes.now result ≡ cut_before bytes.now place }
    ensures from { result.from ≡ 0 }
    ensures to { result.to ≤ place }
    ensures after { result.after ≡ place + 1 }
{
    Token {
        from: 0,
        to: text_of(&bytes[..place]).len(),
        after: place + 1,
    }
}
