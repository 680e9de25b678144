// The names that severities have without a mapping.
ghost use Rattle.std.specs.Prelude.{◌≡◌, ◌≤◌, IfSome};
ghost use Rattle.time_severity.specs.Presets.{preset_number, short_name};

use case_table::{aliases, find_fold, severities};

/// The severity that a word names by its short name or by an alias, in any case.
pub(crate) fn preset_number(word: &str) -> Option<u8>
    ensures is { result ≡ preset_number word.now }
    ensures in_range { IfSome result (λ number. number ≤ 24) }
{
    if let Some(number) = find_fold(&severities(), word) {
        return Some(number as u8);
    }
    match find_fold(&aliases(), word) {
        Some(number) => Some(number as u8),
        None => None,
    }
}

/// The short name of a severity, and nothing where the number has none.
pub(crate) fn short_name(number: u8) -> &'static str
    ensures { result.now ≡ short_name number }
{
    for row in &severities() {
        if row.code == u16::from(number) {
            return row.name;
        }
    }
    ""
}
