// Members out of the named groups of a pattern.
ghost use Rattle.std.specs.Prelude.{◌≡◌, ◌≢◌, [], true, IfOk, IfErr};
ghost use Rattle.entry_model.specs.Datum.{datum, members_of};
ghost use Rattle.entry_model.specs.Seen.{seen};
ghost use Rattle.text_parsers.specs.Groups.{named_groups, is_shallow, names_in, reading, IsMatchedText, IsMatchFault, IsRefused};
ghost use Rattle.text_parsers.specs.TextValue.{IsTextWith, IsValueFault};

use crate::groups::{Groups, groups_of};
use crate::search::{Pattern, Search};
use crate::{ParseFault, RegexFault};
use entry_model::{Fields, Value};
use std::alloc::Global;
use std::cell::RefCell;
use std::marker::Model;

/// Takes the texts of the named groups of a pattern.
#[derive(Drop)]
pub struct RegexOp {
    /// Never freed, so that a search can be kept beside it.
    pattern: &'static Pattern,
    groups: Groups,
    kept: RefCell<Search<'static>>,
}

impl Model for RegexOp {
    ghost use Rattle.std.specs.Prelude.{◌≡◌, ℕ, List};
    ghost use Rattle.regex.specs.Strings.{regex_source, regex_names};
    ghost use Rattle.text_parsers.specs.Groups.{named_groups};

    ghost Value = { List ℕ };

    ghost view = { λ op. regex_source op.pattern.now.regex };

    ghost invariant = { λ op. op.groups ≡ named_groups (regex_names op.pattern.now.regex) };
}

impl RegexOp {
    /// `Refused` only where the text isn't a pattern of the crate `regex` or nests too deep for it, and then `NoNames`
    /// exactly where no group has a name. The pattern's memory is kept until the program ends.
    pub fn new(alloc: Global, pattern: &str) -> Result<RegexOp, RegexFault>
        ensures source { IfOk result (λ op. op ≡ pattern.now) }
        ensures read { IfOk result (λ op. is_shallow (reading pattern.now) ≡ true) }
        ensures named { IfOk result (λ op. named_groups (names_in (reading pattern.now)) ≢ []) }
        ensures fault { IfErr result (IsRefused pattern.now) }
    {
        let pattern = match Pattern::new(alloc, pattern) {
            Ok(pattern) => pattern,
            Err(fault) => return Err(fault),
        };
        let groups = groups_of(alloc, &pattern.regex)?;
        if groups.is_empty() {
            return Err(RegexFault::NoNames);
        }
        let pattern: &'static Pattern = Box::leak(Box::new(alloc, pattern)?);
        let kept = RefCell::new(Search::new(alloc, pattern)?);
        Ok(RegexOp {
            pattern,
            groups,
            kept,
        })
    }

    /// The texts of the named groups in the leftmost match, by their names; empty where a group took no part.
    ///
    /// `NoMatch` where the pattern is found nowhere in the text.
    pub fn apply(&self, alloc: Global, value: &Value) -> Result<Fields, ParseFault>
        ensures ok { IfOk result (λ members. IsTextWith (datum value.now) (IsMatchedText self.now (members_of (seen members.entries)))) }
        ensures fault { IfErr result (IsValueFault (IsMatchFault self.now) (datum value.now)) }
    {
        match value {
            Value::Text(text) => self.members(alloc, text.as_str()),
            Value::Null | Value::Bool(_) | Value::Int(_) | Value::List(_) | Value::Map(_) => {
                Err(ParseFault::NotText)
            }
        }
    }

    fn members(&self, alloc: Global, text: &str) -> Result<Fields, ParseFault>
        ensures ok { IfOk result (λ members. IsMatchedText self.now (members_of (seen members.entries)) text.now) }
        ensures fault { IfErr result (IsMatchFault self.now text.now) }
    {
        if let Ok(mut search) = self.kept.try_borrow_mut() {
            if search.pattern.source() == self.pattern.source() {
                return search.members(alloc, &self.groups, text);
            }
        }
        self.members_anew(alloc, text)
    }

    /// As `members`, by a search of its own: where the kept one is lent.
    #[cold]
    #[inline(never)]
    fn members_anew(&self, alloc: Global, text: &str) -> Result<Fields, ParseFault>
        ensures ok { IfOk result (λ members. IsMatchedText self.now (members_of (seen members.entries)) text.now) }
        ensures fault { IfErr result (IsMatchFault self.now text.now) }
    {
        let mut search = Search::new(alloc, self.pattern)?;
        search.members(alloc, &self.groups, text)
    }
}
