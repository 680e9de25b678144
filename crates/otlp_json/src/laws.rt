// What the definitions imply.
ghost use Rattle.std.specs.Prelude.{◌≡◌, ℕ, ◌+◌, ◌<◌, ◌^◌, List, [], ◌∷◌, ◌++◌, Option, length};
ghost use Rattle.entry_model.specs.LogRecord.{LogRecord};
ghost use Rattle.otlp_json.specs.IsOf64Bits.{IsTime, IsOf64Bits};
ghost use Rattle.otlp_json.specs.IsOneLine.{IsOneLine};
ghost use Rattle.otlp_json.specs.ObservedTime.{HasObservedTime};
ghost use Rattle.otlp_json.specs.OutputLine.{output_line, line_front, line_tail};
ghost use Rattle.otlp_json.specs.OutputLines.{output_lines};

/// A line is the resource and the record with its observed time, then what tells its file and its number. It is one
/// line, whatever the texts in it.
pub fn line_is_one_line()
    ensures parts { (id number : ℕ) (observed : Option ℕ) (entry : LogRecord)
        → output_line id number observed entry ≡ line_front observed entry ++ line_tail id number }
    ensures one { (id number : ℕ) (observed : Option ℕ) (entry : LogRecord)
        → IsOneLine (output_line id number observed entry) }
    ensures tail { (id number : ℕ) → IsOneLine (line_tail id number) }
{}

/// The lines of a list of records are those of its front, and of the rest with the numbers going on.
pub fn lines_append()
    ensures none { (id number : ℕ) (observed : Option ℕ) → output_lines id number observed [] ≡ [] }
    ensures more { (id number : ℕ) (observed : Option ℕ) (first : LogRecord) (rest : List LogRecord)
        → output_lines id number observed (first ∷ rest)
        ≡ output_line id number observed first ++ output_lines id (number + 1) observed rest }
    ensures append { (id number : ℕ) (observed : Option ℕ) (front back : List LogRecord)
        → output_lines id number observed (front ++ back)
        ≡ output_lines id number observed front ++ output_lines id (number + length front) observed back }
{}

/// A line tells all that it was made of: where two lines are equal, the files, the numbers, the observed times and the
/// records are. No line begins another, so this holds of lines in a row too.
pub fn line_tells_all()
    ensures line { (id number other_id other_number : ℕ) (observed other_observed : Option ℕ) (entry other : LogRecord)
        → id < 2 ^ 64 → number < 2 ^ 64 → other_id < 2 ^ 64 → other_number < 2 ^ 64
        → IsTime observed → IsTime other_observed → IsOf64Bits entry → IsOf64Bits other
        → output_line id number observed entry ≡ output_line other_id other_number other_observed other
        → (id ≡ other_id) × (number ≡ other_number) × (observed ≡ other_observed) × (entry ≡ other) }
    ensures row { (id number other_id other_number : ℕ) (observed other_observed : Option ℕ) (entry other : LogRecord)
        → (rest more : List ℕ)
        → id < 2 ^ 64 → number < 2 ^ 64 → other_id < 2 ^ 64 → other_number < 2 ^ 64
        → IsTime observed → IsTime other_observed → IsOf64Bits entry → IsOf64Bits other
        → output_line id number observed entry ++ rest ≡ output_line other_id other_number other_observed other ++ more
        → (id ≡ other_id) × (number ≡ other_number) × (observed ≡ other_observed) × (entry ≡ other) × (rest ≡ more) }
{}

/// The observed time of a line is the number behind its only `,"observedTimeUnixNano":"`; a line without such a time has
/// this text nowhere, whatever the texts in it.
pub fn line_tells_its_time()
    ensures { (id number : ℕ) (observed : Option ℕ) (entry : LogRecord)
        → HasObservedTime observed (output_line id number observed entry) }
{}

/// The end of a line tells the file and the number, whatever stands before it.
pub fn line_tail_tells_its_numbers()
    ensures { (id number other_id other_number : ℕ) (front other : List ℕ)
        → id < 2 ^ 64 → number < 2 ^ 64 → other_id < 2 ^ 64 → other_number < 2 ^ 64
        → front ++ line_tail id number ≡ other ++ line_tail other_id other_number
        → (id ≡ other_id) × (number ≡ other_number) × (front ≡ other) }
{}
