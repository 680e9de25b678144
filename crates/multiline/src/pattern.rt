// Patterns of lines, and what searches for one.
ghost use Rattle.std.specs.Prelude.{◌≡◌};
ghost use Rattle.regex.specs.Strings.{matcher_pattern, regex_pattern};
ghost use Rattle.multiline.specs.Patterns.{IsReadByDefault};

use crate::PatternFault;
use regex::{Matcher, Regex};
use std::alloc::{AllocError, Global};
use std::str;

/// A pattern that is compiled, with the options of `regex` as they are by default.
#[derive(Drop)]
pub struct Pattern {
    regex: Regex,
    pub ghost read: { IsReadByDefault regex },
}

/// What searches lines for a pattern. It is kept from line to line, since making one costs as much as many searches.
#[derive(Drop)]
pub struct Search<'p> {
    pub pattern: &'p Pattern,
    matcher: Matcher<'p>,
    pub ghost same: { ∥ matcher_pattern matcher ≡ regex_pattern pattern.now.regex ∥₁ },
}

impl Pattern {
    ghost use Rattle.std.specs.Prelude.{true, IfOk, IfErr};
    ghost use Rattle.regex.specs.Strings.{regex_source};
    ghost use Rattle.multiline.specs.Patterns.{is_pattern};
    ghost use Rattle.multiline.specs.PatternFault.{IsPatternFault};

    pub fn new(alloc: Global, source: &str) -> Result<Pattern, PatternFault>
        ensures source { IfOk result (λ pattern. regex_source pattern.regex ≡ source.now) }
        ensures read { IfOk result (λ pattern. is_pattern source.now ≡ true) }
        ensures fault { IfErr result (IsPatternFault source.now) }
    {
        match Regex::new(alloc, source) {
            Ok(regex) => Ok(Pattern { regex }),
            Err(regex::Error::Syntax(_)) => Err(PatternFault::Refused),
            Err(_) => Err(PatternFault::Memory),
        }
    }

    pub fn source(&self) -> &str
        ensures { result.now ≡ regex_source self.now.regex }
    {
        self.regex.as_str()
    }
}

impl<'p> Search<'p> {
    ghost use Rattle.std.specs.Prelude.{IfOk};
    ghost use Rattle.regex.specs.Strings.{regex_source};
    ghost use Rattle.multiline.specs.Patterns.{is_found};
    ghost use Rattle.multiline.specs.Cutting.{is_marked};

    pub fn new(alloc: Global, pattern: &'p Pattern) -> Result<Search<'p>, AllocError>
        ensures { IfOk result (λ search. search.pattern.now ≡ pattern.now) }
    {
        let matcher = pattern.regex.matcher(alloc)?;
        Ok(Search { pattern, matcher })
    }

    /// Whether the pattern is found in the text of the line.
    pub fn marks(&mut self, alloc: Global, line: &[u8]) -> Result<bool, AllocError>
        ensures marked { IfOk result (λ marked. marked ≡ is_marked (regex_source self.old.pattern.now.regex) line.now) }
        ensures pattern { self.new.pattern.now ≡ self.old.pattern.now }
    {
        if let Ok(text) = str::from_utf8(line) {
            return Ok(self.is_in(text));
        }
        let text = String::from_utf8_lossy(alloc, line)?;
        Ok(self.is_in(text.as_str()))
    }

    fn is_in(&mut self, text: &str) -> bool
        ensures found { result ≡ is_found (regex_source self.old.pattern.now.regex) text.now }
        ensures pattern { self.new.pattern.now ≡ self.old.pattern.now }
    {
        self.matcher.is_match(text)
    }
}
