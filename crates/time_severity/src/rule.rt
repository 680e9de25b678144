// The rules of a mapping.
ghost use Rattle.std.specs.Prelude.{◌≡◌, ◌≤◌, IfSome, map, option_map};
ghost use Rattle.time_severity.specs.Rules.{rule_of, matches, is_word, is_number, lesser, least_match};

use entry_model::{Severity, Text};

/// What a rule wants of a value.
#[derive(Debug, PartialEq, Eq, Drop)]
pub enum Want {
    /// This text, with the case of ASCII letters ignored.
    Text(Text),
    /// A number from `min` to `max`, or a text that is the decimal spelling of one.
    Range { min: i64, max: i64 },
}

/// A severity, and what is wanted of values that have it.
#[derive(Debug, PartialEq, Eq, Drop)]
pub struct SeverityRule {
    pub severity: Severity,
    pub want: Want,
}

/// The least severity of which a rule matches a word or a number.
pub(crate) fn least_match(
    rules: &[SeverityRule],
    word: Option<&str>,
    number: Option<i64>,
) -> Option<u8>
    ensures is { result ≡ least_match (record { word = option_map (λ text. text.now) word.entry; number = number }) (map rule_of rules.now) }
    ensures in_range { IfSome result (λ number. number ≤ 24) }
{
    let mut least = None;
    for rule in rules {
        if rule.want.matches(word, number) {
            least = Some(lesser(rule.severity.number, least));
        }
    }
    least
}

fn lesser(number: u8, other: Option<u8>) -> u8
    ensures is { result ≡ lesser number other }
    ensures no_more { result ≤ number }
{
    match other {
        Some(other) => number.min(other),
        None => number,
    }
}

impl Want {
    fn matches(&self, word: Option<&str>, number: Option<i64>) -> bool
        ensures { result ≡ matches (record { word = option_map (λ text. text.now) word.entry; number = number }) self.now }
    {
        match self {
            Want::Text(wanted) => is_word(wanted.as_str(), word),
            Want::Range { min, max } => is_number(*min, *max, number),
        }
    }
}

fn is_word(wanted: &str, word: Option<&str>) -> bool
    ensures { result ≡ is_word wanted.now (option_map (λ text. text.now) word.entry) }
{
    match word {
        Some(word) => wanted.eq_ignore_ascii_case(word),
        None => false,
    }
}

fn is_number(low: i64, high: i64, number: Option<i64>) -> bool
    ensures { result ≡ is_number low high number }
{
    match number {
        Some(number) => low <= number && number <= high,
        None => false,
    }
}
