//! What the definitions imply.
ghost use Rattle.std.specs.Prelude.{◌≡◌, ◌≢◌, ◌∷◌, ◌++◌, ℕ, List, All, None, Some, slice_get};
ghost use Rattle.entry_model.specs.Datum.{Datum};
ghost use Rattle.entry_model.specs.LogRecord.{LogRecord};
ghost use Rattle.field_ops.specs.Rows.{retained};
ghost use Rattle.field_paths.specs.AreApart.{AreApart};
ghost use Rattle.field_paths.specs.Change.{take_at};
ghost use Rattle.field_paths.specs.Place.{Place};
ghost use Rattle.field_paths.specs.ValueAt.{datum_at};

/// Where a value is taken from one place, a place that is neither above nor below it has what it had.
pub fn take_leaves_other_places()
    ensures { (place other : Place) (value : Datum) (entry : LogRecord) → AreApart place other → datum_at place entry ≡ Some value
        → datum_at other (take_at place entry) ≡ datum_at other entry }
{}

/// Retaining leaves a root of which no field is listed as it was. Of a root of which one is, a place that is neither above nor
/// below a listed field has nothing.
pub fn retain_leaves_other_roots()
    ensures other_roots { (listed : List Place) (place : Place) (entry : LogRecord) → All (λ (field : Place). field.root ≢ place.root) listed
        → datum_at place (retained listed entry) ≡ datum_at place entry }
    ensures left_out { (listed : List Place) (at : ℕ) (field place : Place) (entry : LogRecord) → slice_get listed at ≡ Some field → field.root ≡ place.root
        → All (λ (one : Place). AreApart one place) listed → datum_at place (retained listed entry) ≡ None }
{}

/// Retaining leaves at a listed field what it has, or nothing where it has nothing, if no other listed field is above or below it.
pub fn retain_keeps_listed_fields()
    ensures { (before after : List Place) (field : Place) (entry : LogRecord) → All (λ (other : Place). AreApart other field) before
        → All (λ (other : Place). AreApart other field) after
        → datum_at field (retained (before ++ field ∷ after) entry) ≡ datum_at field entry }
{}
