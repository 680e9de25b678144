// What the definitions imply.
ghost use Rattle.std.specs.Prelude.{◌≡◌, ◌↔◌, ◌==◌, ◌||◌, ℕ, ℤ, List, [], ◌∷◌, length, take, true, ◌≤◌, bytes_eq, is_some, Ok, Err, Result};
ghost use Rattle.time_layout.specs.declared.directives.Given.{Given as what_is_given};
ghost use Rattle.time_layout.specs.GoGrammar.{IsLongest, IsGoText, IsGoFault, ArePlain, IsReferenceTime};
ghost use Rattle.time_layout.specs.GoLayouts.{NameDraft, longest_name, go_draft, go_parts};
ghost use Rattle.case_table.specs.Rows.{first_code};
ghost use Rattle.case_table.specs.Tables.{directive_table};
ghost use Rattle.time_layout.specs.declared.parts.Part.{Part as part};
ghost use Rattle.time_layout.specs.declared.parts.Said.{Said as saying};
ghost use Rattle.time_layout.specs.declared.fault.TimeFault.{TimeFault};
ghost use Rattle.time_layout.specs.declared.fault.TimeFault.TheVariants.{Mismatch};
ghost use Rattle.time_layout.specs.Atoms.{Reading};
ghost use Rattle.time_layout.specs.Beginnings.{IsBeginning, are_separate};
ghost use Rattle.time_layout.specs.DeadEnds.{StopsAt};
ghost use Rattle.time_layout.specs.Instant.{IsTimeOf};
ghost use Rattle.time_layout.specs.Iso.{rfc3339_parts};
ghost use Rattle.time_layout.specs.LayoutGrammar.{IsLayoutText, IsLayoutFault};
ghost use Rattle.time_layout.specs.LayoutText.{layout_parts, parts_of};
ghost use Rattle.time_layout.specs.Parts.{layout_read, nothing_said};
ghost use Rattle.time_layout.specs.Printed.{CanTellBy, told_by, printed};
ghost use Rattle.time_layout.specs.Texts.{IsTextOf};

/// A text is read exactly where it is made of the texts of the layout's parts, one after another, and as what they say.
pub fn texts_of_the_parts_are_read()
    ensures { (parts : List part) (location : ℤ) (text : List ℕ) (said : saying)
        → (layout_read parts location text ≡ Ok (said, length text)) ↔ IsTextOf parts text (nothing_said location) said }
{}

/// What was read has one instant, or one fault.
pub fn readings_have_one_answer()
    ensures { (reading : Reading saying) (answer other : Result ℕ TimeFault) → IsTimeOf reading answer → IsTimeOf reading other → answer ≡ other }
{}

/// What is printed in a layout reads back, where the layout's parts can tell it and tell all of it.
pub fn printed_texts_read_back()
    ensures { (parts : List part) (location : ℤ) (said : saying) → CanTellBy parts said
        → told_by parts said (nothing_said location) ≡ said
        → layout_read parts location (printed parts said) ≡ Ok (said, length (printed parts said)) }
{}

/// Where a text is refused it can't go on: no text that begins with its bytes up to and with that one is of the layout.
/// Where that byte is a digit it may be the first of two that are no number of the part, and then no text that begins
/// with both is.
pub fn refused_texts_stop_there()
    ensures { (parts : List part) (location : ℤ) (text : List ℕ) (at : ℕ) → layout_read parts location text ≡ Err (Mismatch at)
        → StopsAt parts location text at }
{}

/// Where a text is refused, the place lies in the text or at its end, and the bytes before it begin some text of the layout:
/// they can go on, but by `refused_texts_stop_there` not as this text does. Left out are the layouts in which a number of
/// one digit or of two, as many as stand there (`%e`, and Go's `1`, `2`, `_2` and `3`), stands directly before a part of
/// which each text begins with a digit, as in `%e%H`: of it `5x` is refused at the `x`, and no text begins with `5`. Left
/// out is also a fraction that may be missing and has no digits (`PointFraction(0)`), for which no directive and no name
/// stands.
pub fn bytes_before_a_fault_begin_a_text()
    ensures { (parts : List part) (location : ℤ) (text : List ℕ) (at : ℕ) → are_separate parts ≡ true → layout_read parts location text ≡ Err (Mismatch at)
        → (at ≤ length text) × IsBeginning parts location (take at text) }
{}

/// Times of RFC 3339 aren't left out, where a fraction may have a digit.
pub fn parts_of_rfc3339_are_separate()
    ensures { (digits : ℕ) → 1 ≤ digits → are_separate (rfc3339_parts digits) ≡ true }
{}

/// A text is that of a layout exactly where it is made of pieces, which give nothing twice and a whole day, and it has
/// the parts for which they stand. Any other has its fault behind such pieces, where no piece or nothing new follows.
pub fn layouts_are_made_of_pieces()
    ensures ok { (text : List ℕ) (parts : List part) → (layout_parts text ≡ Ok parts) ↔ IsLayoutText text parts }
    ensures fault { (text : List ℕ) (at : ℕ) → layout_parts text ≡ Err at → IsLayoutFault text at }
{}

/// The letters of directives are those of the table `directives` of `case_table`, and the percent sign.
pub fn directives_are_those_of_the_table()
    ensures { (letter : ℕ) → is_some (parts_of letter) ≡ (is_some (first_code (bytes_eq (37 ∷ letter ∷ [])) directive_table) || (letter == 37)) }
{}

/// At each place of a layout of Go's the longest of the names of the table `gotime` of `case_table` is found.
pub fn longest_names_are_found()
    ensures { (text : List ℕ) → IsLongest text (longest_name text) }
{}

/// A text is that of a layout of Go's exactly where it is made of names and of bytes that stand for themselves, which give
/// nothing twice and a whole day, and it has the parts for which they stand. Any other has its fault behind such names and
/// bytes, where none or nothing new follows.
pub fn go_layouts_are_made_of_names()
    ensures ok { (text : List ℕ) (parts : List part) → (go_parts text ≡ Ok parts) ↔ ((given : what_is_given) × IsGoText text parts given) }
    ensures fault { (text : List ℕ) (at : ℕ) → go_parts text ≡ Err at → IsGoFault text at }
{}

/// A layout of Go's reads its own text as 2006-01-02, with those of hour 15, minute 4 and second 5 that it has and the
/// others 0, at seven hours west of UTC where it has a zone, else at the location; where no part is named by `1`, `2`, `3`,
/// `_2`, `MST`, `Z0700` or `Z07:00`, and no point stands for itself directly behind `05`.
pub fn go_layouts_read_their_own_text()
    ensures { (text : List ℕ) (draft : NameDraft) (location : ℤ) → go_draft text ≡ Ok draft → ArePlain draft.parts
        → (said : saying) × (layout_read draft.parts location text ≡ Ok (said, length text)) × IsReferenceTime draft.given location said }
{}
