// What the definitions imply.
ghost use Rattle.std.specs.Prelude.{◌≡◌, ◌↔◌, ℕ, ℤ, List, Some, None, slice_get, false, FitsSigned};
ghost use Rattle.std.specs.Fmt.{signed_decimal};
ghost use Rattle.std.specs.Int.{w64};
ghost use Rattle.entry_model.specs.Datum.{Datum};
ghost use Rattle.time_severity.specs.Rules.{Rule, Subject, matches, least_match, IsLeastMatch};
ghost use Rattle.time_severity.specs.Spelled.{number_spelled};
ghost use Rattle.time_severity.specs.Times.{TellsTime, time_in};
ghost use Rattle.time_severity.specs.declared.time_op.TimeKind.{TimeKind as time_kind};

/// A value tells an instant exactly where it is a text of the layout that names it, or a count up to it.
pub fn times_are_told()
    ensures { (kind : time_kind) (value : Datum) (instant : ℕ) → (time_in kind value ≡ Some instant) ↔ TellsTime kind value instant }
{}

/// Of the rules that match the one with the least severity counts, wherever it stands, and none where none matches.
pub fn least_severity_counts()
    ensures some { (subject : Subject) (rules : List Rule) (number : ℕ) → least_match subject rules ≡ Some number → IsLeastMatch subject rules number }
    ensures none { (subject : Subject) (rules : List Rule) (at : ℕ) (rule : Rule) → least_match subject rules ≡ None
        → slice_get rules at ≡ Some rule → matches subject rule.want ≡ false }
{}

/// A text spells a number exactly where it is its decimal spelling.
pub fn spellings_are_decimal()
    ensures { (bytes : List ℕ) (number : ℤ) → (number_spelled bytes ≡ Some number) ↔ ((bytes ≡ signed_decimal number) × FitsSigned w64 number) }
{}
