// What a pattern is made of.
use std::marker::Model;

/// One character of a class as it is written.
#[derive(Clone, Copy, Debug, PartialEq, Eq)]
pub struct Sign {
    pub character: char,
    /// A backslash stands before it.
    pub is_escaped: bool,
}

/// The characters from one to another, both included.
#[derive(Clone, Copy, Debug, PartialEq, Eq)]
pub struct Span {
    pub first: char,
    pub last: char,
}

/// What `[..]` matches.
#[derive(Drop)]
pub struct Class {
    pub(crate) is_negated: bool,
    pub(crate) spans: Vec<Span>,
}

impl Model for Class {
    ghost use Rattle.glob_match.specs.CharacterSet.{CharacterSet};

    ghost Value = { CharacterSet };

    ghost view = { λ class. record { is_negated = class.is_negated; spans = class.spans.items } };
}

/// A piece without parts to choose from.
#[derive(Drop)]
pub enum Unit {
    /// A character that stands for itself.
    Plain(char),
    /// A character behind a backslash.
    Escaped(char),
    /// `?`
    One,
    /// `*`
    Star,
    Class(Class),
}

/// One part of `{..}`.
#[derive(Drop)]
pub struct Part {
    pub(crate) units: Vec<Unit>,
}

impl Model for Part {
    ghost use Rattle.std.specs.Prelude.{List};
    ghost use Rattle.glob_match.specs.declared.pattern.Unit.{Unit};

    ghost Value = { List Unit };

    ghost view = { λ part. part.units.items };
}

/// The parts of `{..}`.
#[derive(Drop)]
pub struct Parts {
    pub(crate) parts: Vec<Part>,
}

impl Model for Parts {
    ghost use Rattle.std.specs.Prelude.{List};
    ghost use Rattle.glob_match.specs.declared.pattern.Unit.{Unit};

    ghost Value = { List (List Unit) };

    ghost view = { λ parts. parts.parts.items };
}

#[derive(Drop)]
pub enum Piece {
    Single(Unit),
    AnyOf(Parts),
}

/// The pieces of a component.
#[derive(Drop)]
pub struct Pieces {
    pub(crate) pieces: Vec<Piece>,
}

impl Model for Pieces {
    ghost use Rattle.std.specs.Prelude.{List};
    ghost use Rattle.glob_match.specs.declared.pattern.Piece.{Piece};

    ghost Value = { List Piece };

    ghost view = { λ pieces. pieces.pieces.items };
}

#[derive(Drop)]
pub enum Component {
    /// `**`: any number of components.
    Folders,
    /// One component.
    Name(Pieces),
}
