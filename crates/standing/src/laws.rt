//! What the definitions imply. The functions do nothing; their clauses are the laws.
ghost use Rattle.std.specs.Prelude.{◌≡◌, ◌≢◌, ℕ, ◌+◌, ◌-◌, ◌<◌, ◌≤◌, All, Bool, Contains, Option, IsTrue, List, [], ◌∷◌, ◌++◌, drop, length, take, None};
ghost use Rattle.outside.specs.Lawful.{IsLawful};
ghost use Rattle.outside.specs.World.{Event, History, bytes, look};
ghost use Rattle.standing.specs.Adopted.{Adopts, with_era};
ghost use Rattle.standing.specs.Apart.{Apart};
ghost use Rattle.standing.specs.AreRules.{AreRules};
ghost use Rattle.standing.specs.Closed.{all_made, entries_in};
ghost use Rattle.standing.specs.Eras.{AreEras, Eras, last_era, texts_of};
ghost use Rattle.standing.specs.Flush.{Flushes, TakesAll, TakesPiece, TakesRange};
ghost use Rattle.standing.specs.Look.{ComesAt, Look, Progress, after_look, fed, size};
ghost use Rattle.standing.specs.Marks.{Mark, numbered, of_id, untimed};
ghost use Rattle.standing.specs.Moments.{IsLater, IsNamed, KeepsNames, LeaveNames};
ghost use Rattle.standing.specs.Owner.{IsOwner};
ghost use Rattle.standing.specs.Part.{HasTaken, Part, first_point, last_point, part_output};
ghost use Rattle.standing.specs.Pass.{IsReachable, Pass, Stretch};
ghost use Rattle.standing.specs.Prefixes.{IsPrefix};
ghost use Rattle.standing.specs.Reached.{Reached};
ghost use Rattle.standing.specs.Poll.{IsPlainIn, Poll, poll_in};
ghost use Rattle.standing.specs.Rows.{Checkpoint, IsRowAt, Row, no_checkpoint};
ghost use Rattle.standing.specs.Rules.{Rules, output_text, Includes};
ghost use Rattle.standing.specs.Standing.{Found, Lengthens, Sound, Standing, checkpoint_of, found, kept};
ghost use Rattle.standing.specs.Stands.{CheckpointStands, IsSound, LinesStand, RowStands, Stands};
ghost use Rattle.standing.specs.Sums.{AreSums, IsReached, Sums, TellNothingLeft};
ghost use Rattle.standing.specs.Times.{AreBefore};
ghost use Rattle.standing.specs.Tokens.{UpTo, tokens_of};

/// What stands for a history stands for each longer one, and where nothing was read, all stands.
pub fn standing_lasts()
    ensures image { (eras : Eras) (old new : History) (there : Found) (file : List ℕ) → AreEras eras
        → IsLater old new → Standing eras old there file → Standing eras new there file }
    ensures rows { (eras : Eras) (old new : History) (rows : List Row) (next_id : ℕ) (output : List ℕ)
        → AreEras eras → IsLater old new → Stands eras old rows next_id output
        → Stands eras new rows next_id output }
    ensures nothing { (eras : Eras) (history : History) (file : List ℕ)
        → CheckpointStands eras history (no_checkpoint (texts_of eras)) file }
{}

/// What is kept of the output file decides: the bytes past it may be any.
pub fn only_what_is_kept_counts()
    ensures stands { (eras : Eras) (history : History) (checkpoint : Checkpoint) (file other : List ℕ)
        → checkpoint.output_length ≤ length other
        → take checkpoint.output_length other ≡ take checkpoint.output_length file
        → CheckpointStands eras history checkpoint file → CheckpointStands eras history checkpoint other }
    ensures sound { (eras : Eras) (checkpoint : Checkpoint) (file other : List ℕ)
        → checkpoint.output_length ≤ length other
        → IsSound eras checkpoint file → IsSound eras checkpoint other }
{}

/// What a row has taken of a part of a file, which may begin anywhere, it has taken too when the file has grown; and a row
/// that takes the tokens of a piece at its offset has taken those of before and these, with the entries of all of them.
pub fn parts_go_on()
    ensures grown { (rules : Rules) (part : Part) (content more : List ℕ) (tokens : List (List ℕ)) (row : Row)
        → AreRules rules → HasTaken rules part content tokens row
        → HasTaken rules part (content ++ more) tokens row }
    ensures taken { (rules : Rules) (part : Part) (content piece behind : List ℕ) (tokens : List (List ℕ)) (row : Row)
        → AreRules rules → IsTrue (rules.is_state part.state) → drop row.offset content ≡ piece ++ behind
        → HasTaken rules part content tokens row
        → HasTaken rules part content (tokens ++ tokens_of rules piece) (fed rules piece row) }
    ensures entries { (rules : Rules) (part : Part) (content : List ℕ) (tokens more : List (List ℕ)) (row : Row)
        → AreRules rules → IsTrue (rules.is_state part.state) → HasTaken rules part content tokens row
        → part_output rules part row.path (tokens ++ more)
        ≡ part_output rules part row.path tokens ++ rules.made row.path row.records row.state more }
{}

/// Whatever a look finds and makes of the rows, they stand afterwards, with the output longer by the lines that it added,
/// where files can be told apart in the history that ends with the look, and no line has a later time than the poll.
pub fn a_look_keeps_standing()
    ensures { (eras : Eras) (first : Bool) (stamp : Option ℕ) (here : Look) (history : History) (rows : List Row)
        (next_id : ℕ) (output : List ℕ) → AreEras eras → IsPlainIn eras first stamp → ComesAt (last_era eras) here history
        → Apart eras.first.front_size (look here.file ∷ here.moment)
        → (stands : Stands eras here.moment rows next_id output) → AreBefore stamp stands.marks
        → let start : Progress = record { rows = rows; next_id = next_id; added = [] } in
        let after = after_look (poll_in eras first stamp) here start in
        Stands eras (look here.file ∷ here.moment) after.rows after.next_id (output ++ output_text (last_era eras) after.added) }
{}

/// What a look takes of a file whose row isn't past its end, whether or not what waits is flushed: tokens that follow one another
/// without a gap from the row's old offset to its new one. What waits is flushed exactly where the settings ask for it and
/// enough looks found the file as long, and then all of it is taken.
pub fn a_look_takes_a_range()
    ensures range { (poll : Poll) (here : Look) (row : Row) → AreRules poll.rules → row.offset ≤ size here → TakesRange poll here row }
    ensures flushed { (poll : Poll) (here : Look) (row : Row) → row.offset ≤ size here → Flushes poll here row → TakesAll poll here row }
    ensures not_flushed { (poll : Poll) (here : Look) (row : Row) → row.offset ≤ size here → (Flushes poll here row → ⊥)
        → TakesPiece poll here row }
{}

/// A poll keeps what stands, where files can be told apart in the history that ends with it: from what was found before
/// it to an image whose checkpoint is that of the poll and whose output keeps what was kept, and then the poll's lines.
pub fn a_pass_keeps_standing()
    ensures image { (eras : Eras) (first : Bool) (stamp : Option ℕ) (stretch : Stretch) (looks : List Look) (there : Found)
        (after : Checkpoint) (added : List Mark) (file file_after : List ℕ) → AreEras eras → IsPlainIn eras first stamp
        → Pass (poll_in eras first stamp) stretch looks (checkpoint_of eras there) after added
        → Lengthens (last_era eras) (kept there file) after added file_after → Apart eras.first.front_size stretch.new
        → Standing eras stretch.old there file → Standing eras stretch.new (found after) file_after }
    ensures rows { (eras : Eras) (first : Bool) (stamp : Option ℕ) (stretch : Stretch) (looks : List Look)
        (before after : Checkpoint) (added : List Mark) (output : List ℕ) → AreEras eras → IsPlainIn eras first stamp
        → Pass (poll_in eras first stamp) stretch looks before after added → Apart eras.first.front_size stretch.new
        → (stands : Stands eras stretch.old before.rows before.next_id output) → AreBefore stamp stands.marks
        → Stands eras stretch.new after.rows after.next_id (output ++ output_text (last_era eras) added) }
{}

/// A poll keeps a checkpoint sound, and what was kept of the output, whatever was read and whether or not files can be
/// told apart.
pub fn a_pass_keeps_soundness()
    ensures sound { (eras : Eras) (first : Bool) (stamp : Option ℕ) (stretch : Stretch) (looks : List Look) (there : Found)
        (after : Checkpoint) (added : List Mark) (file file_after : List ℕ) → AreEras eras → IsPlainIn eras first stamp
        → Pass (poll_in eras first stamp) stretch looks (checkpoint_of eras there) after added
        → Lengthens (last_era eras) (kept there file) after added file_after
        → Sound eras there file → Sound eras (found after) file_after }
    ensures kept { (rules : Rules) (before : List ℕ) (after : Checkpoint) (added : List Mark) (file_after : List ℕ)
        → Lengthens rules before after added file_after → IsPrefix before (kept (found after) file_after) }
{}

/// Adopting other settings keeps what stands: the lines of each file's parts stay, those that closing adds are the last of the
/// part that ends, and the next part begins where the file was read up to, with nothing taken of it.
pub fn adopting_keeps_standing()
    ensures { (eras : Eras) (next : Rules) (history : History) (before after : Checkpoint) (added : List Mark)
        (file file_after : List ℕ) → AreEras eras → AreEras (with_era eras next) → Adopts eras next before after added
        → Lengthens (last_era eras) (take before.output_length file) after added file_after
        → CheckpointStands eras history before file → CheckpointStands (with_era eras next) history after file_after }
{}

/// Where no event of a stretch gives a name or takes one, no name changes in it.
pub fn names_are_kept()
    ensures { (old : History) (events : List Event) → LeaveNames events → KeepsNames old (events ++ old) }
{}

/// After a poll whose numbers tell that nothing was left, and in which no name was given or taken, each file that has a
/// path to be read was looked at, and unless it was empty then, all that its bytes had then is taken.
pub fn a_complete_pass_reaches_all()
    ensures { (eras : Eras) (first : Bool) (stamp : Option ℕ) (stretch : Stretch) (looks : List Look) (before after : Checkpoint)
        (added : List Mark) (pass : Pass (poll_in eras first stamp) stretch looks before after added) (output : List ℕ)
        (sums : Sums) (path : List ℕ) (file : ℕ) → AreEras eras → IsPlainIn eras first stamp
        → Apart eras.first.front_size stretch.new → IsLawful stretch.new → KeepsNames stretch.old stretch.new
        → (stands : Stands eras stretch.old before.rows before.next_id output) → AreBefore stamp stands.marks
        → AreSums (poll_in eras first stamp) stretch looks before after added pass sums → TellNothingLeft sums
        → Includes (last_era eras) path → IsReachable path → IsNamed stretch.new path file
        → (here : Look) × Contains looks here × (here.file ≡ file)
        × (0 < size here → IsReached eras stretch.new after.rows here) }
{}

/// No poll from rows that stand finds a file shorter than its row's offset, where files can be told apart.
pub fn no_file_is_shrunk()
    ensures { (eras : Eras) (first : Bool) (stamp : Option ℕ) (stretch : Stretch) (looks : List Look) (before after : Checkpoint)
        (added : List Mark) (pass : Pass (poll_in eras first stamp) stretch looks before after added) (output : List ℕ)
        (sums : Sums) → AreEras eras → IsPlainIn eras first stamp → Apart eras.first.front_size stretch.new
        → (stands : Stands eras stretch.old before.rows before.next_id output) → AreBefore stamp stands.marks
        → AreSums (poll_in eras first stamp) stretch looks before after added pass sums → sums.shrunk ≡ 0 }
{}

/// Two rows that stand are of different files; and where files can be told apart, a row is of one file.
pub fn rows_are_of_different_files()
    ensures two { (eras : Eras) (history : History) (rows : List Row) (next_id : ℕ) (marks : List Mark)
        (place other_place : ℕ) (row other : Row) (file other_file : ℕ)
        → LinesStand eras history rows next_id marks → IsRowAt rows place row → IsRowAt rows other_place other
        → place ≢ other_place → IsOwner eras history row file → IsOwner eras history other other_file
        → file ≢ other_file }
    ensures one { (eras : Eras) (history : History) (row : Row) (file other : ℕ) → Apart eras.first.front_size history
        → IsOwner eras history row file → IsOwner eras history row other → file ≡ other }
{}

/// The lines of a row that stands are the first of those that its parts and then all later bytes of its file give. Those of
/// a row that has reached a place are all that the bytes up to there give; so where files can be told apart, an output that
/// stands has all lines of a file that was reached.
pub fn lines_begin_those_of_the_file()
    ensures begin { (eras : Eras) (history : History) (row : Row) (lines : List Mark)
        (stands : RowStands eras history row lines) → AreEras eras
        → let point = last_point (first_point row) row.ends in
        let content = drop point.offset (bytes history stands.file) in
        let all = entries_in (all_made eras row stands.earlier (tokens_of (last_era eras) content)) in
        (rest : List Mark) × (numbered row.id 1 None all ≡ untimed lines ++ rest) }
    ensures all { (eras : Eras) (history : History) (row : Row) (lines : List Mark) (place : ℕ)
        (stands : RowStands eras history row lines) → AreEras eras
        → Reached (last_era eras) (bytes history stands.file) row place
        → let point = last_point (first_point row) row.ends in
        let content = take (place - point.offset) (drop point.offset (bytes history stands.file)) in
        let all = entries_in (all_made eras row stands.earlier (tokens_of (last_era eras) content)) in
        untimed lines ≡ numbered row.id 1 None all }
    ensures reached { (eras : Eras) (history : History) (rows : List Row) (next_id : ℕ) (output : List ℕ)
        (stands : Stands eras history rows next_id output) (here : Look)
        (reached : IsReached eras history rows here) → AreEras eras → Apart eras.first.front_size history
        → let row = reached.row in
        let earlier = (stands.lines_stand.each_row reached.place row reached.at).earlier in
        let point = last_point (first_point row) row.ends in
        let content = take (size here - point.offset) (drop point.offset (bytes history here.file)) in
        let all = entries_in (all_made eras row earlier (tokens_of (last_era eras) content)) in
        untimed (of_id row.id stands.marks) ≡ numbered row.id 1 None all }
{}

/// An output tells its lines, where they fit, and a bound of bytes tells the tokens up to it.
pub fn outputs_and_bounds_are_told()
    ensures lines { (rules : Rules) (marks others : List Mark) → AreRules rules
        → All (λ (mark : Mark). IsTrue (rules.fits mark)) marks → All (λ (mark : Mark). IsTrue (rules.fits mark)) others
        → output_text rules marks ≡ output_text rules others → marks ≡ others }
    ensures tokens { (rules : Rules) (content : List ℕ) (bound : ℕ) (tokens others : List (List ℕ)) → AreRules rules
        → UpTo rules content bound tokens → UpTo rules content bound others → tokens ≡ others }
{}
