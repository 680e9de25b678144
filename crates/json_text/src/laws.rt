// What the definitions imply.
ghost use Rattle.std.specs.Prelude.{◌≡◌, ◌≢◌, ℕ, List, []};
ghost use Rattle.entry_model.specs.Datum.{Datum};
ghost use Rattle.json_text.specs.declared.fault.JsonFault.{JsonFault};
ghost use Rattle.json_text.specs.declared.fault.JsonFault.TheVariants.{Memory};
ghost use Rattle.json_text.specs.Fault.{IsFault};
ghost use Rattle.json_text.specs.Grammar.{IsText};
ghost use Rattle.json_text.specs.Printed.{IsPlain, printed};

/// A text has one value at most.
pub fn text_has_one_value()
    ensures { (levels : ℕ) (text : List ℕ) (value other : Datum) → IsText levels text value → IsText levels text other → value ≡ other }
{}

/// A text has one fault at most, but for want of memory.
pub fn text_has_one_fault()
    ensures { (text : List ℕ) (fault other : JsonFault) → IsFault text fault → IsFault text other → fault ≢ Memory → other ≢ Memory → fault ≡ other }
{}

/// A value printed as JSON reads back, where no more than 64 levels are nested in it.
pub fn printed_value_reads_back()
    ensures { (value : Datum) → IsPlain 64 value → IsText 64 (printed value []) value }
{}
