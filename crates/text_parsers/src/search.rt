// Searches, which are kept from one text to the next.
ghost use Rattle.std.specs.Prelude.{◌≡◌};
ghost use Rattle.regex.specs.Locations.{location_count};
ghost use Rattle.regex.specs.Strings.{matcher_pattern, regex_pattern, group_count};
ghost use Rattle.text_parsers.specs.ReadByDefault.{IsReadByDefault};

use crate::groups::{Groups, name_groups};
use crate::{ParseFault, RegexFault};
use entry_model::Fields;
use regex::{CaptureLocations, Matcher, Regex};
use std::alloc::{AllocError, Global};

/// A pattern that is compiled, with the options of `regex` as they are by default.
#[derive(Drop)]
pub struct Pattern {
    pub regex: Regex,
    pub ghost read: { IsReadByDefault regex },
}

/// What searches for a pattern, with room for the spans of its groups.
#[derive(Drop)]
pub struct Search<'p> {
    pub pattern: &'p Pattern,
    matcher: Matcher<'p>,
    locations: CaptureLocations,
    pub ghost same: { ∥ matcher_pattern matcher ≡ regex_pattern pattern.now.regex ∥₁ },
    pub ghost room: { location_count locations ≡ group_count pattern.now.regex },
}

impl Pattern {
    ghost use Rattle.std.specs.Prelude.{true, IfOk, IfErr};
    ghost use Rattle.regex.specs.Strings.{regex_source};
    ghost use Rattle.text_parsers.specs.Groups.{is_shallow, reading, IsRefused};

    pub fn new(alloc: Global, source: &str) -> Result<Pattern, RegexFault>
        ensures source { IfOk result (λ pattern. regex_source pattern.regex ≡ source.now) }
        ensures read { IfOk result (λ pattern. is_shallow (reading source.now) ≡ true) }
        ensures fault { IfErr result (IsRefused source.now) }
    {
        match Regex::new(alloc, source) {
            Ok(regex) => Ok(Pattern { regex }),
            Err(regex::Error::Syntax(_)) => Err(RegexFault::Refused),
            Err(_) => Err(RegexFault::Memory),
        }
    }

    pub fn source(&self) -> &str
        ensures { result.now ≡ regex_source self.now.regex }
    {
        self.regex.as_str()
    }
}

impl<'p> Search<'p> {
    ghost use Rattle.std.specs.Prelude.{IfOk, IfErr};
    ghost use Rattle.regex.specs.Strings.{regex_source, regex_names};
    ghost use Rattle.entry_model.specs.Datum.{members_of};
    ghost use Rattle.entry_model.specs.Seen.{seen};
    ghost use Rattle.text_parsers.specs.Groups.{named_groups, IsMatchedText, IsMatchFault};

    pub fn new(alloc: Global, pattern: &'p Pattern) -> Result<Search<'p>, AllocError>
        ensures { IfOk result (λ search. search.pattern.now ≡ pattern.now) }
    {
        let matcher = pattern.regex.matcher(alloc)?;
        let locations = pattern.regex.capture_locations(alloc)?;
        Ok(Search {
            pattern,
            matcher,
            locations,
        })
    }

    /// The texts of these groups in the leftmost match.
    pub fn members(
        &mut self,
        alloc: Global,
        groups: &Groups,
        text: &str,
    ) -> Result<Fields, ParseFault>
        requires { groups.now ≡ named_groups (regex_names self.old.pattern.now.regex) }
        ensures ok { IfOk result (λ members. IsMatchedText (regex_source self.old.pattern.now.regex) (members_of (seen members.entries)) text.now) }
        ensures fault { IfErr result (IsMatchFault (regex_source self.old.pattern.now.regex) text.now) }
    {
        match self.matcher.captures_read(&mut self.locations, text) {
            Some(_) => {}
            None => return Err(ParseFault::NoMatch),
        }
        match name_groups(alloc, groups, &self.locations, text) {
            Ok(members) => Ok(members),
            Err(_) => Err(ParseFault::Memory),
        }
    }
}
