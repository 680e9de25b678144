// Whether a name fits the pieces of a component.
ghost use Rattle.std.specs.Prelude.{◌≡◌, ◌+◌, ◌*◌, ◌≤◌, ◌<◌, ◌↔◌, ◌&&◌, ◌||◌, ℕ, false, length, take, IfSome, IsTrue, slice_index, slice_index_or};
ghost use Rattle.std.specs.List.{list_any};
ghost use Rattle.std.specs.Str.{chars};
ghost use Rattle.glob_match.specs.Fits.{FitsPiece, FitsPieces, FitsUnit, FitsUnits};
ghost use Rattle.glob_match.specs.Inner.Leads.{Leads, IsMarked};
ghost use Rattle.glob_match.specs.Inner.TakesOne.{takes_one};

use crate::pattern::{Part, Piece, Unit};
use crate::search::fits_long;

/// The places of a name of up to 4,095 characters: in front of each and behind the last. No file system has longer
/// names.
const PLACES: usize = 4_096;

/// The places of most names, of up to 63 characters, for which little room is cleared.
const FEW_PLACES: usize = 64;

/// Whether the name fits. The places that the pieces lead to are marked piece by piece, so that each character is
/// looked at once for each unit.
pub(crate) fn fits_name(pieces: &[Piece], name: &str) -> bool
    ensures { IsTrue result ↔ FitsPieces pieces.now (chars name.now) }
{
    let fits = if name.len() < FEW_PLACES {
        fits_short(pieces, name)
    } else {
        fits_any(pieces, name)
    };
    match fits {
        Some(fits) => fits,
        None => fits_long(&[], pieces, name),
    }
}

fn fits_short(pieces: &[Piece], name: &str) -> Option<bool>
    ensures { IfSome result (λ fits. IsTrue fits ↔ FitsPieces pieces.now (chars name.now)) }
{
    let mut room = ['/'; FEW_PLACES - 1];
    let mut marks = [false; 3 * FEW_PLACES];
    fits_within(pieces, name, &mut room, &mut marks)
}

fn fits_any(pieces: &[Piece], name: &str) -> Option<bool>
    ensures { IfSome result (λ fits. IsTrue fits ↔ FitsPieces pieces.now (chars name.now)) }
{
    let mut room = ['/'; PLACES - 1];
    let mut marks = [false; 3 * PLACES];
    fits_within(pieces, name, &mut room, &mut marks)
}

/// Whether the name fits, or `None` where it has more characters than `room`.
fn fits_within(pieces: &[Piece], name: &str, room: &mut [char], marks: &mut [bool]) -> Option<bool>
    requires { 3 * (length room.old + 1) ≤ length marks.old }
    ensures { IfSome result (λ fits. IsTrue fits ↔ FitsPieces pieces.now (chars name.now)) }
{
    let count = decode(name, room)?;
    let places = count + 1;
    let (reached, others) = marks.split_at_mut(places);
    let (from, to) = others.split_at_mut(places);
    let reaches = reaches_end(pieces, &room[..count], reached, from, &mut to[..places]);
    Some(reaches)
}

/// The number of characters, which are put into the front of `room`, or `None` where there are more than fit.
fn decode(name: &str, room: &mut [char]) -> Option<usize>
    ensures within { IfSome result (λ count. count ≤ length room.new) }
    ensures long { length room.new ≡ length room.old }
    ensures front { IfSome result (λ count. take count room.new ≡ chars name.now) }
{
    let mut count = 0;
    for character in name.chars() {
        if count >= room.len() {
            return None;
        }
        room[count] = character;
        count += 1;
    }
    Some(count)
}

fn reaches_end(
    pieces: &[Piece],
    characters: &[char],
    reached: &mut [bool],
    from: &mut [bool],
    to: &mut [bool],
) -> bool
    requires reached { length reached.old ≡ length characters.now + 1 }
    requires from { length from.old ≡ length characters.now + 1 }
    requires to { length to.old ≡ length characters.now + 1 }
    ensures { IsTrue result ↔ FitsPieces pieces.now characters.now }
{
    clear(reached);
    reached[0] = true;
    take_pieces(pieces, characters, reached, from, to);
    reached[characters.len()]
}

fn take_pieces(
    pieces: &[Piece],
    characters: &[char],
    reached: &mut [bool],
    from: &mut [bool],
    to: &mut [bool],
)
    requires reached { length reached.old ≡ length characters.now + 1 }
    requires from { length from.old ≡ length characters.now + 1 }
    requires to { length to.old ≡ length characters.now + 1 }
    ensures { Leads (FitsPieces pieces.now) characters.now reached.old reached.new }
{
    for piece in pieces {
        match piece {
            Piece::Single(unit) => take_unit(unit, characters, reached),
            Piece::AnyOf(parts) => take_parts(&parts.parts, characters, reached, from, to),
        }
    }
}

fn take_parts(
    parts: &[Part],
    characters: &[char],
    reached: &mut [bool],
    from: &mut [bool],
    to: &mut [bool],
)
    requires reached { length reached.old ≡ length characters.now + 1 }
    requires from { length from.old ≡ length characters.now + 1 }
    requires to { length to.old ≡ length characters.now + 1 }
    ensures { Leads (FitsPiece (Piece.AnyOf parts.now)) characters.now reached.old reached.new }
{
    from.copy_from_slice(reached);
    clear(to);
    for part in parts {
        reached.copy_from_slice(from);
        take_units(&part.units, characters, reached);
        add(to, reached);
    }
    reached.copy_from_slice(to);
}

fn clear(marks: &mut [bool])
    ensures { (k : ℕ) → slice_index_or marks.new k false ≡ false }
{
    for mark in marks.iter_mut() {
        *mark = false;
    }
}

/// Marks what `more` marks too.
fn add(marks: &mut [bool], more: &[bool])
    requires { length more.now ≡ length marks.old }
    ensures { (k : ℕ) → slice_index_or marks.new k false ≡ (slice_index_or marks.old k false || slice_index_or more.now k false) }
{
    for (at, is_marked) in more.iter().enumerate() {
        if *is_marked {
            marks[at] = true;
        }
    }
}

fn take_units(units: &[Unit], characters: &[char], reached: &mut [bool])
    requires { length reached.old ≡ length characters.now + 1 }
    ensures { Leads (FitsUnits units.now) characters.now reached.old reached.new }
{
    for unit in units {
        take_unit(unit, characters, reached);
    }
}

fn take_unit(unit: &Unit, characters: &[char], reached: &mut [bool])
    requires { length reached.old ≡ length characters.now + 1 }
    ensures { Leads (FitsUnit unit.now) characters.now reached.old reached.new }
{
    if let Unit::Star = unit {
        take_any(reached);
    } else {
        take_one(unit, characters, reached);
    }
}

/// Marks all places from the first that is marked on.
fn take_any(reached: &mut [bool])
    ensures { (k : ℕ) → k < length reached.old → slice_index_or reached.new k false ≡ list_any (λ mark. mark) (take (k + 1) reached.old) }
{
    let mut is_behind = false;
    for mark in reached.iter_mut() {
        is_behind = is_behind || *mark;
        *mark = is_behind;
    }
}

/// Marks the places behind a character that the unit takes, where the place in front of it was marked.
fn take_one(unit: &Unit, characters: &[char], reached: &mut [bool])
    requires { length reached.old ≡ length characters.now + 1 }
    ensures first { slice_index_or reached.new 0 false ≡ false }
    ensures others { (k : ℕ) → k < length characters.now → slice_index_or reached.new (k + 1) false
        ≡ (slice_index_or reached.old k false && takes_one unit.now (slice_index characters.now k)) }
{
    let mut before = reached[0];
    reached[0] = false;
    for (at, character) in characters.iter().enumerate() {
        let here = reached[at + 1];
        reached[at + 1] = before && unit.takes(*character);
        before = here;
    }
}

impl Unit {
    /// Whether the unit matches this character alone.
    pub(crate) fn takes(&self, character: char) -> bool
        ensures { result ≡ takes_one self.now character }
    {
        match self {
            Unit::Plain(own) | Unit::Escaped(own) => character == *own,
            Unit::One => true,
            Unit::Star => false,
            Unit::Class(class) => class.admits(character),
        }
    }
}
