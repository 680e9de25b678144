// What the definitions imply.
ghost use Rattle.std.specs.Prelude.{◌≡◌, ℕ, List};
ghost use Rattle.entry_model.specs.Datum.{Members};
ghost use Rattle.text_parsers.specs.CsvRecords.{Columns, IsRecordText};
ghost use Rattle.text_parsers.specs.Groups.{IsMatchedText};
ghost use Rattle.text_parsers.specs.JsonObjects.{IsObjectText};
ghost use Rattle.text_parsers.specs.Pairs.{Delimiters, IsPairsText};

/// A text says the members of one object at most.
pub fn text_is_one_object()
    ensures { (text : List ℕ) (members other : Members) → IsObjectText members text → IsObjectText other text → members ≡ other }
{}

/// A text says one list of pairs at most.
pub fn text_is_one_list_of_pairs()
    ensures { (delimiters : Delimiters) (text : List ℕ) (members other : Members) → IsPairsText delimiters members text
        → IsPairsText delimiters other text → members ≡ other }
{}

/// A text says one record at most.
pub fn text_is_one_record()
    ensures { (columns : Columns) (text : List ℕ) (members other : Members) → IsRecordText columns members text → IsRecordText columns other text → members ≡ other }
{}

/// A pattern takes one list of groups out of a text at most.
pub fn text_has_one_match()
    ensures { (source text : List ℕ) (members other : Members) → IsMatchedText source members text → IsMatchedText source other text → members ≡ other }
{}
