// Whether a name fits that is too long for its places to be marked.
ghost use Rattle.std.specs.Prelude.{◌≡◌, ◌∷◌, [], ◌↔◌, IsTrue, MatchOption};
ghost use Rattle.std.specs.Str.{chars};
ghost use Rattle.glob_match.specs.declared.pattern.Unit.TheVariants.{Star};
ghost use Rattle.glob_match.specs.Inner.FitsBoth.{FitsBoth, FitsFrom, FitsSome};

use crate::pattern::{Part, Piece, Unit};

/// Whether the name fits the units and then the pieces, each way being tried. It may take long, which no path of a file
/// system does: its names are short.
#[cycle(search)]
pub(crate) fn fits_long(units: &[Unit], pieces: &[Piece], name: &str) -> bool
    ensures { IsTrue result ↔ FitsBoth units.now pieces.now (chars name.now) }
{
    if let Some((unit, others)) = units.split_first() {
        return fits_from(unit, others, pieces, name);
    }
    match pieces.split_first() {
        Some((Piece::Single(unit), others)) => fits_from(unit, &[], others, name),
        Some((Piece::AnyOf(parts), others)) => fits_some(&parts.parts, others, name),
        None => is_empty(name),
    }
}

#[cycle(search)]
fn fits_some(parts: &[Part], pieces: &[Piece], name: &str) -> bool
    ensures { IsTrue result ↔ FitsSome parts.now pieces.now (chars name.now) }
{
    for part in parts {
        if fits_long(&part.units, pieces, name) {
            return true;
        }
    }
    false
}

#[cycle(search)]
fn fits_from(unit: &Unit, units: &[Unit], pieces: &[Piece], name: &str) -> bool
    ensures { IsTrue result ↔ FitsFrom unit.now units.now pieces.now (chars name.now) }
{
    if let Unit::Star = unit {
        return fits_behind(units, pieces, name);
    }
    match next(name) {
        Some((character, rest)) => unit.takes(character) && fits_long(units, pieces, rest),
        None => false,
    }
}

#[cycle(search)]
fn fits_behind(units: &[Unit], pieces: &[Piece], name: &str) -> bool
    ensures { IsTrue result ↔ FitsFrom Star units.now pieces.now (chars name.now) }
{
    let mut left = name.chars();
    loop {
        if fits_long(units, pieces, left.as_str()) {
            return true;
        }
        match left.next() {
            Some(_) => {}
            None => return false,
        }
    }
}

/// The first character, and the rest behind it.
fn next(name: &str) -> Option<(char, &str)>
    ensures { MatchOption result (chars name.now ≡ []) (λ first. chars name.now ≡ first.0 ∷ chars first.1.now) }
{
    let mut characters = name.chars();
    match characters.next() {
        Some(character) => Some((character, characters.as_str())),
        None => None,
    }
}

fn is_empty(name: &str) -> bool
    ensures { IsTrue result ↔ (chars name.now ≡ []) }
{
    name.is_empty()
}
