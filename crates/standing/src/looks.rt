//! What a look finds, and what it makes of a row, by what is known of the file and the rows.
ghost use Rattle.std.specs.Prelude.{◌≡◌, ℕ, ◌<◌, ◌≤◌, List, [], None, Some, false, length, position, true};
ghost use Rattle.standing.specs.Limits.{is_compressed, row_limit};
ghost use Rattle.standing.specs.Look.{Look, all_taken, finds_compressed, finds_new, finds_no_room, finds_nothing, finds_row, front, lines_added, look_taken, looks_on, outcome, piece_taken, row_after, size, skips};
ghost use Rattle.standing.specs.Prefixes.{begins};
ghost use Rattle.standing.specs.Poll.{Poll};
ghost use Rattle.standing.specs.Rows.{IsRowAt, Row};
ghost use Rattle.standing.specs.Rules.{Rules};

/// A file is passed over where its front couldn't be read, where it was empty, and where it is compressed.
pub fn files_are_passed_over()
    ensures skipped { (rules : Rules) (rows : List Row) (here : Look) → here.skipped ≡ true
        → outcome rules rows here ≡ skips }
    ensures empty { (rules : Rules) (rows : List Row) (here : Look) → here.skipped ≡ false → size here ≡ 0
        → outcome rules rows here ≡ finds_nothing }
    ensures compressed { (rules : Rules) (rows : List Row) (here : Look) → here.skipped ≡ false → 0 < size here
        → is_compressed (front rules here) ≡ true → outcome rules rows here ≡ finds_compressed }
{}

/// Any other file is that of the first row whose front begins what was seen; without one it gets a row, where there is
/// room.
pub fn files_are_known_by_their_fronts()
    ensures row { (rules : Rules) (rows : List Row) (here : Look) (place : ℕ) (row : Row) → here.skipped ≡ false
        → 0 < size here → is_compressed (front rules here) ≡ false
        → position (λ (r : Row). begins r.front (front rules here)) rows ≡ Some place → IsRowAt rows place row
        → outcome rules rows here ≡ finds_row place row }
    ensures new { (rules : Rules) (rows : List Row) (here : Look) → here.skipped ≡ false → 0 < size here
        → is_compressed (front rules here) ≡ false
        → position (λ (r : Row). begins r.front (front rules here)) rows ≡ None → length rows < row_limit
        → outcome rules rows here ≡ finds_new }
    ensures full { (rules : Rules) (rows : List Row) (here : Look) → here.skipped ≡ false → 0 < size here
        → is_compressed (front rules here) ≡ false
        → position (λ (r : Row). begins r.front (front rules here)) rows ≡ None → row_limit ≤ length rows
        → outcome rules rows here ≡ finds_no_room }
{}

/// The row of a file that isn't shorter than its offset takes the piece that begins there; where the settings ask for a flush and
/// the file's end was read up to, what waits is flushed once it has stood still for so many looks. The row of a shorter file keeps
/// all but its front.
pub fn rows_take_pieces()
    ensures row { (poll : Poll) (here : Look) (row : Row) → row.offset ≤ size here
        → row_after poll here row ≡ (all_taken poll here (record row { front = front poll.rules here })).row }
    ensures lines { (poll : Poll) (here : Look) (row : Row) → row.offset ≤ size here
        → lines_added poll here row ≡ (all_taken poll here row).lines }
    ensures piece { (poll : Poll) (here : Look) (row : Row) → looks_on poll.rules here row.offset ≡ false
        → all_taken poll here row ≡ piece_taken poll here row }
    ensures no_flush { (poll : Poll) (here : Look) (row : Row) → poll.rules.flush_after ≡ 0
        → all_taken poll here row ≡ piece_taken poll here row }
    ensures look { (poll : Poll) (here : Look) (row : Row) → looks_on poll.rules here row.offset ≡ true
        → all_taken poll here row ≡ look_taken poll here (piece_taken poll here row) }
    ensures short_row { (poll : Poll) (here : Look) (row : Row) → size here < row.offset
        → row_after poll here row ≡ record row { front = front poll.rules here } }
    ensures short_lines { (poll : Poll) (here : Look) (row : Row) → size here < row.offset
        → lines_added poll here row ≡ [] }
{}
