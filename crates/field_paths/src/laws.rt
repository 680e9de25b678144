// What the definitions imply.
ghost use Rattle.std.specs.Prelude.{◌≡◌, ℕ, List, Some, option_map};
ghost use Rattle.entry_model.specs.Datum.{Datum};
ghost use Rattle.entry_model.specs.LogRecord.{LogRecord};
ghost use Rattle.field_paths.specs.AreApart.{AreApart};
ghost use Rattle.field_paths.specs.Change.{set_at, take_at};
ghost use Rattle.field_paths.specs.InOrder.{IsInOrder};
ghost use Rattle.field_paths.specs.PathText.{IsPathText};
ghost use Rattle.field_paths.specs.Place.{Place};
ghost use Rattle.field_paths.specs.Relates.{Relates};
ghost use Rattle.field_paths.specs.declared.relation.Relation.TheVariants.{Below};
ghost use Rattle.field_paths.specs.ValueAt.{datum_at};

/// A text spells one path at most.
pub fn text_spells_one_path()
    ensures { (text : List ℕ) (place other : Place) → IsPathText text place → IsPathText text other → place ≡ other }
{}

/// What was put at a place is there: it is what `get` and `take` answer. A place that is neither above nor below it
/// has what it had.
pub fn set_changes_one_place()
    ensures there { (place : Place) (value : Datum) (before after : LogRecord)
        → set_at place value before ≡ Some after → datum_at place after ≡ Some value }
    ensures elsewhere { (place other : Place) (value : Datum) (before after : LogRecord) → AreApart place other
        → set_at place value before ≡ Some after → datum_at other after ≡ datum_at other before }
{}

/// A value is put at one place and another is taken from a place that is neither above nor below it: whichever comes first, the
/// entry is the same afterwards. `find` says that the members on the way to a place are in order.
pub fn set_and_take_in_either_order()
    ensures { (from to : Place) (value found : Datum) (entry : LogRecord) → IsInOrder from entry → AreApart from to
        → datum_at from entry ≡ Some found → set_at to value (take_at from entry) ≡ option_map (take_at from) (set_at to value entry) }
{}

/// What is put above a place replaces what is at it: it makes no difference whether that was taken first.
pub fn set_above_replaces()
    ensures { (from to : Place) (value found : Datum) (entry : LogRecord) → Relates Below from to → datum_at from entry ≡ Some found
        → set_at to value (take_at from entry) ≡ set_at to value entry }
{}
