// Reading a pattern character by character.
ghost use Rattle.std.specs.Prelude.{◌≡◌, ◌∷◌, ◌++◌, ◌&&◌, [], IfOk, OnOk, None, Some, cond};
ghost use Rattle.glob_match.specs.declared.pattern.Piece.TheVariants.{Single};
ghost use Rattle.glob_match.specs.declared.pattern.Unit.TheVariants.{Star};
ghost use Rattle.glob_match.specs.Pattern.{component as component_of, is_component as is_proper, last_components, are_two_stars as are_stars, is_star as is_a_star, is_dot as is_a_dot};
ghost use Rattle.glob_match.specs.Inner.Reader.{state_of, start, step, step_from, may_end as can_end, in_name, in_part, in_opened, in_signs, begun_unit, slashed, with_unit, with_sign, with_part, with_parts, classed, pattern_read, is_open as has_open};

use crate::class::spans_of;
use crate::glob::Glob;
use crate::pattern::{Class, Component, Part, Parts, Piece, Pieces, Sign, Unit};
use std::alloc::{AllocError, Global};
use std::mem;

/// Where a unit stands.
#[derive(Clone, Copy, Debug, PartialEq, Eq)]
pub enum Place {
    /// In a component, outside braces.
    Name,
    /// In a part of `{..}`.
    Part,
}

/// What a text was read up to.
#[derive(Clone, Copy)]
pub enum Phase {
    /// A unit may follow.
    Units(Place),
    /// A backslash before a unit.
    Escape(Place),
    /// The `[` of a class.
    Opened(Place),
    /// A class, and whether it is negated.
    Signs(Place, bool),
    /// A backslash in a class.
    EscapedSign(Place, bool),
}

#[derive(Drop)]
pub struct Reader {
    pub(crate) phase: Phase,
    pub(crate) is_absolute: bool,
    pub(crate) components: Vec<Component>,
    pub(crate) pieces: Vec<Piece>,
    pub(crate) parts: Vec<Part>,
    pub(crate) units: Vec<Unit>,
    pub(crate) signs: Vec<Sign>,
}

#[tactic(auto, unfolding(crate::specs::Inner::Reader::begun_unit, crate::specs::Inner::Reader::slashed, crate::specs::Inner::Reader::in_name, crate::specs::Inner::Reader::in_part, crate::specs::Inner::Reader::in_signs, crate::specs::Inner::Reader::classed, crate::specs::Inner::Reader::in_opened, crate::specs::Inner::Reader::pattern_read))]
impl Reader {
    pub(crate) fn new(alloc: Global) -> Reader
        ensures { state_of result ≡ start }
    {
        Reader {
            phase: Phase::Units(Place::Name),
            is_absolute: false,
            components: Vec::new(alloc),
            pieces: Vec::new(alloc),
            parts: Vec::new(alloc),
            units: Vec::new(alloc),
            signs: Vec::new(alloc),
        }
    }

    /// Reads one more character. Answers whether a glob can go on so.
    pub(crate) fn step(&mut self, alloc: Global, character: char) -> Result<bool, AllocError>
        ensures { IfOk result (λ taken. step (state_of self.old) character ≡ cond taken (Some (state_of self.new)) None) }
    {
        match self.phase {
            Phase::Units(Place::Name) => self.read_in_name(alloc, character),
            Phase::Units(Place::Part) => self.read_in_part(alloc, character),
            Phase::Escape(place) => self.escape(place, character),
            Phase::Opened(place) => self.read_opened(alloc, place, character),
            Phase::Signs(place, is_negated) => {
                self.read_in_signs(alloc, place, is_negated, character)
            }
            Phase::EscapedSign(place, is_negated) => {
                self.escape_sign(place, is_negated, character)
            }
        }
    }

    fn read_in_name(&mut self, alloc: Global, character: char) -> Result<bool, AllocError>
        ensures { IfOk result (λ taken. in_name (state_of self.old) character ≡ cond taken (Some (state_of self.new)) None) }
    {
        if character == '/' {
            return self.slash(alloc);
        }
        if character == '{' {
            self.parts.clear();
            self.units.clear();
            self.phase = Phase::Units(Place::Part);
        } else {
            self.begin_unit(Place::Name, character)?;
        }
        Ok(true)
    }

    fn read_in_part(&mut self, alloc: Global, character: char) -> Result<bool, AllocError>
        ensures { IfOk result (λ taken. in_part (state_of self.old) character ≡ cond taken (Some (state_of self.new)) None) }
    {
        match character {
            ',' => self.close_part(alloc)?,
            '}' => self.close_parts(alloc)?,
            '/' | '{' => return Ok(false),
            _ => self.begin_unit(Place::Part, character)?,
        }
        Ok(true)
    }

    fn begin_unit(&mut self, place: Place, character: char) -> Result<(), AllocError>
        ensures { OnOk result (state_of self.new ≡ begun_unit place (state_of self.old) character) }
    {
        match character {
            '\\' => self.phase = Phase::Escape(place),
            '[' => {
                self.signs.clear();
                self.phase = Phase::Opened(place);
            }
            '*' => self.add(place, Unit::Star)?,
            '?' => self.add(place, Unit::One)?,
            _ => self.add(place, Unit::Plain(character))?,
        }
        Ok(())
    }

    fn add(&mut self, place: Place, unit: Unit) -> Result<(), AllocError>
        ensures { OnOk result (state_of self.new ≡ with_unit place unit (state_of self.old)) }
    {
        match place {
            Place::Name => self.pieces.push(Piece::Single(unit))?,
            Place::Part => self.units.push(unit)?,
        }
        Ok(())
    }

    fn escape(&mut self, place: Place, character: char) -> Result<bool, AllocError>
        ensures { IfOk result (λ taken. step_from (Phase.Escape place) (state_of self.old) character ≡ cond taken (Some (state_of self.new)) None) }
    {
        if character == '/' {
            return Ok(false);
        }
        self.phase = Phase::Units(place);
        self.add(place, Unit::Escaped(character))?;
        Ok(true)
    }

    fn slash(&mut self, alloc: Global) -> Result<bool, AllocError>
        ensures { IfOk result (λ taken. slashed (state_of self.old) ≡ cond taken (Some (state_of self.new)) None) }
    {
        if is_component(&self.pieces) {
            let pieces = mem::replace(&mut self.pieces, Vec::new(alloc));
            self.components.push(component(pieces))?;
            return Ok(true);
        }
        if self.is_absolute || !self.components.is_empty() || !self.pieces.is_empty() {
            return Ok(false);
        }
        self.is_absolute = true;
        Ok(true)
    }

    fn close_part(&mut self, alloc: Global) -> Result<(), AllocError>
        ensures { OnOk result (state_of self.new ≡ with_part (state_of self.old)) }
    {
        let units = mem::replace(&mut self.units, Vec::new(alloc));
        self.parts.push(Part { units })?;
        Ok(())
    }

    fn close_parts(&mut self, alloc: Global) -> Result<(), AllocError>
        ensures { OnOk result (state_of self.new ≡ with_parts (state_of self.old)) }
    {
        self.close_part(alloc)?;
        let parts = mem::replace(&mut self.parts, Vec::new(alloc));
        self.pieces.push(Piece::AnyOf(Parts { parts }))?;
        self.phase = Phase::Units(Place::Name);
        Ok(())
    }

    fn read_opened(
        &mut self,
        alloc: Global,
        place: Place,
        character: char,
    ) -> Result<bool, AllocError>
        ensures { IfOk result (λ taken. in_opened place (state_of self.old) character ≡ cond taken (Some (state_of self.new)) None) }
    {
        if character == '^' || character == '!' {
            self.phase = Phase::Signs(place, true);
            return Ok(true);
        }
        self.read_in_signs(alloc, place, false, character)
    }

    fn read_in_signs(
        &mut self,
        alloc: Global,
        place: Place,
        is_negated: bool,
        character: char,
    ) -> Result<bool, AllocError>
        ensures { IfOk result (λ taken. in_signs place is_negated (state_of self.old) character ≡ cond taken (Some (state_of self.new)) None) }
    {
        match character {
            ']' => return self.close_class(alloc, place, is_negated),
            '\\' => self.phase = Phase::EscapedSign(place, is_negated),
            '/' => return Ok(false),
            _ => self.add_sign(place, is_negated, character, false)?,
        }
        Ok(true)
    }

    fn add_sign(
        &mut self,
        place: Place,
        is_negated: bool,
        character: char,
        is_escaped: bool,
    ) -> Result<(), AllocError>
        ensures { OnOk result (state_of self.new ≡ with_sign place is_negated character is_escaped (state_of self.old)) }
    {
        self.signs.push(Sign {
            character,
            is_escaped,
        })?;
        self.phase = Phase::Signs(place, is_negated);
        Ok(())
    }

    fn escape_sign(
        &mut self,
        place: Place,
        is_negated: bool,
        character: char,
    ) -> Result<bool, AllocError>
        ensures { IfOk result (λ taken. step_from (Phase.EscapedSign place is_negated) (state_of self.old) character ≡ cond taken (Some (state_of self.new)) None) }
    {
        if character == '/' {
            return Ok(false);
        }
        self.add_sign(place, is_negated, character, true)?;
        Ok(true)
    }

    fn close_class(
        &mut self,
        alloc: Global,
        place: Place,
        is_negated: bool,
    ) -> Result<bool, AllocError>
        ensures { IfOk result (λ taken. classed place is_negated (state_of self.old) ≡ cond taken (Some (state_of self.new)) None) }
    {
        if self.signs.is_empty() {
            return Ok(false);
        }
        let spans = spans_of(alloc, &self.signs)?;
        self.signs.clear();
        self.phase = Phase::Units(place);
        self.add(place, Unit::Class(Class { is_negated, spans }))?;
        Ok(true)
    }

    /// The pattern, where the text may end here.
    pub(crate) fn end(self, alloc: Global) -> Result<Option<Glob>, AllocError>
        ensures { IfOk result (λ glob. glob ≡ pattern_read (state_of self)) }
    {
        if !self.is_whole() {
            return Ok(None);
        }
        let Reader {
            phase: _,
            is_absolute,
            mut components,
            pieces,
            parts: _,
            units: _,
            signs: _,
        } = self;
        add_last(alloc, &mut components, pieces)?;
        Ok(Some(Glob {
            is_absolute,
            components,
        }))
    }

    fn is_whole(&self) -> bool
        ensures { result ≡ (can_end self.now.phase && is_proper self.now.pieces.items) }
    {
        matches!(&self.phase, Phase::Units(Place::Name)) && is_component(&self.pieces)
    }

    /// Whether a bracket or a brace is open.
    pub(crate) fn is_open(&self) -> bool
        ensures { result ≡ has_open self.now.phase }
    {
        match self.phase {
            Phase::Units(place) | Phase::Escape(place) => place == Place::Part,
            _ => true,
        }
    }
}

/// The component of these pieces.
fn component(pieces: Vec<Piece>) -> Component
    ensures { result ≡ component_of pieces.items }
{
    if are_two_stars(&pieces) {
        return Component::Folders;
    }
    Component::Name(Pieces { pieces })
}

/// Puts the last component behind the others.
fn add_last(
    alloc: Global,
    components: &mut Vec<Component>,
    pieces: Vec<Piece>,
) -> Result<(), AllocError>
    ensures { OnOk result (components.new.items ≡ components.old.items ++ last_components pieces.items) }
{
    if are_two_stars(&pieces) {
        components.push(Component::Folders)?;
        components.push(Component::Name(any_name(alloc)?))?;
    } else {
        components.push(Component::Name(Pieces { pieces }))?;
    }
    Ok(())
}

/// `*` alone.
fn any_name(alloc: Global) -> Result<Pieces, AllocError>
    ensures { IfOk result (λ pieces. pieces ≡ Single Star ∷ []) }
{
    let mut pieces = Vec::new(alloc);
    pieces.push(Piece::Single(Unit::Star))?;
    Ok(Pieces { pieces })
}

fn are_two_stars(pieces: &[Piece]) -> bool
    ensures { result ≡ are_stars pieces.now }
{
    match pieces {
        [first, second] => is_star(first) && is_star(second),
        _ => false,
    }
}

fn is_star(piece: &Piece) -> bool
    ensures { result ≡ is_a_star piece.now }
{
    matches!(piece, Piece::Single(Unit::Star))
}

/// Whether these are the pieces of a component: neither none nor `.` nor `..`.
fn is_component(pieces: &[Piece]) -> bool
    ensures { result ≡ is_proper pieces.now }
{
    match pieces {
        [] => false,
        [only] => !is_dot(only),
        [first, second] => !(is_dot(first) && is_dot(second)),
        _ => true,
    }
}

fn is_dot(piece: &Piece) -> bool
    ensures { result ≡ is_a_dot piece.now }
{
    matches!(piece, Piece::Single(Unit::Plain('.')))
}
