// Patterns of regular expressions, and what searches texts for them.
ghost use Rattle.std.specs.Prelude.{◌≡◌, IfOk, IfSome};
ghost use Rattle.regex.specs.Strings.{matcher_pattern, regex_pattern, regex_source};
ghost use Rattle.expr_lang.specs.Inner.IsReadByDefault.{IsReadByDefault};
ghost use Rattle.expr_lang.specs.Patterns.{is_found};

use crate::ExprReadFault;
use regex::{Matcher, Regex};
use std::alloc::{AllocError, Global};
use std::cell::RefCell;
use std::collections::BTreeMap;

/// A pattern that is compiled, with the options of `regex` as they are by default.
pub struct Pattern {
    pub regex: Regex,
    pub ghost read: { IsReadByDefault regex },
}

// By hand, so that the drop of a tree, which may be hundreds of nodes deep, goes by this call and wants little stack.
impl Drop for Pattern {
    fn drop(self) {
        let Pattern { regex: _regex } = self;
    }
}

/// What searches texts for a pattern.
#[derive(Drop)]
struct Search<'p> {
    pattern: &'p Pattern,
    matcher: Matcher<'p>,
    pub ghost same: { ∥ matcher_pattern matcher ≡ regex_pattern pattern.now.regex ∥₁ },
}

/// The searches for the patterns of an expression, by the places of their operators. Each is kept from its first text on,
/// since making one costs as much as many searches.
#[derive(Drop)]
pub struct Searches {
    by_place: RefCell<BTreeMap<usize, Box<Search<'static>>>>,
}

impl Pattern {
    ghost use Rattle.std.specs.Prelude.{IfErr};
    ghost use Rattle.expr_lang.specs.PatternFault.{IsPatternFault};

    /// The pattern of a text that stands at `at`.
    pub fn new(alloc: Global, source: &str, at: usize) -> Result<Pattern, ExprReadFault>
        ensures source { IfOk result (λ pattern. regex_source pattern.regex ≡ source.now) }
        ensures fault { IfErr result (IsPatternFault source.now at) }
    {
        match Regex::new(alloc, source) {
            Ok(regex) => Ok(Pattern { regex }),
            Err(regex::Error::Syntax(_)) => Err(ExprReadFault::Pattern { at }),
            Err(_) => Err(ExprReadFault::Memory),
        }
    }

    fn source(&self) -> &str
        ensures { result.now ≡ regex_source self.now.regex }
    {
        self.regex.as_str()
    }
}

impl<'p> Search<'p> {
    fn new(alloc: Global, pattern: &'p Pattern) -> Result<Search<'p>, AllocError>
        ensures { IfOk result (λ search. search.pattern.now ≡ pattern.now) }
    {
        let matcher = pattern.regex.matcher(alloc)?;
        Ok(Search { pattern, matcher })
    }

    /// Whether the pattern is found anywhere in the text.
    fn is_in(&mut self, text: &str) -> bool
        ensures { result ≡ is_found (regex_source self.old.pattern.now.regex) text.now }
    {
        self.matcher.is_match(text)
    }
}

impl Searches {
    pub fn new(alloc: Global) -> Searches {
        Searches {
            by_place: RefCell::new(BTreeMap::new(alloc)),
        }
    }

    /// Whether the pattern of the operator at `at` is found anywhere in the text.
    pub fn find(
        &self,
        alloc: Global,
        at: usize,
        pattern: &'static Pattern,
        text: &str,
    ) -> Result<bool, AllocError>
        ensures { IfOk result (λ found. found ≡ is_found (regex_source pattern.now.regex) text.now) }
    {
        match self.find_kept(at, pattern, text) {
            Some(found) => Ok(found),
            None => self.find_anew(alloc, at, pattern, text),
        }
    }

    /// As `find`, by the search that is kept for the place, where it is for this pattern and not lent.
    fn find_kept(&self, at: usize, pattern: &Pattern, text: &str) -> Option<bool>
        ensures { IfSome result (λ found. found ≡ is_found (regex_source pattern.now.regex) text.now) }
    {
        match self.by_place.try_borrow_mut() {
            Ok(mut searches) => found_by(&mut *searches, at, pattern, text),
            Err(_) => None,
        }
    }

    /// As `find`, by a search that is made now. It is kept where the others aren't lent.
    #[cold]
    #[inline(never)]
    fn find_anew(
        &self,
        alloc: Global,
        at: usize,
        pattern: &'static Pattern,
        text: &str,
    ) -> Result<bool, AllocError>
        ensures { IfOk result (λ found. found ≡ is_found (regex_source pattern.now.regex) text.now) }
    {
        let mut search = Box::new(alloc, Search::new(alloc, pattern)?)?;
        let found = search.is_in(text);
        self.keep(at, search)?;
        Ok(found)
    }

    fn keep(&self, at: usize, search: Box<Search<'static>>) -> Result<(), AllocError> {
        match self.by_place.try_borrow_mut() {
            Ok(mut searches) => put(&mut *searches, at, search),
            Err(_) => Ok(()),
        }
    }
}

/// As `find`, by what is kept for the place.
fn found_by(
    searches: &mut BTreeMap<usize, Box<Search<'static>>>,
    at: usize,
    pattern: &Pattern,
    text: &str,
) -> Option<bool>
    ensures { IfSome result (λ found. found ≡ is_found (regex_source pattern.now.regex) text.now) }
{
    let search = searches.get_mut(&at)?;
    if search.pattern.source() == pattern.source() {
        Some(search.is_in(text))
    } else {
        None
    }
}

fn put(
    searches: &mut BTreeMap<usize, Box<Search<'static>>>,
    at: usize,
    search: Box<Search<'static>>,
) -> Result<(), AllocError> {
    searches.insert(at, search)?;
    Ok(())
}
