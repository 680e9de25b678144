// A path, and what its calls answer.
use entry_model::Text;
use std::alloc::AllocError;
use std::marker::Model;
use thiserror::Error;

/// The part of an entry in which a path begins.
#[derive(Clone, Copy, Debug, PartialEq, Eq)]
pub enum Root {
    Body,
    Attributes,
    Resource,
}

/// A root, and the names of at most 32 members down from it.
#[derive(Drop)]
pub struct FieldPath {
    pub(crate) root: Root,
    pub(crate) names: Vec<Text>,
}

impl Model for FieldPath {
    ghost use Rattle.field_paths.specs.Place.{Place};

    ghost Value = { Place };

    ghost view = { λ path. record { root = path.root; names = path.names.items } };
}

impl FieldPath {
    ghost use Rattle.std.specs.Prelude.{◌≡◌, ◌≢◌, ◌∷◌, ◌++◌, [], IsTrue, ◌↔◌};

    /// The root in which the path begins.
    pub fn root(&self) -> Root
        ensures { result ≡ self.now.root }
    {
        self.root
    }

    /// The names of the members down from the root.
    pub fn names(&self) -> &[Text]
        ensures { result.now ≡ self.now.names }
    {
        &self.names
    }

    /// Whether the path has no member.
    pub fn is_root(&self) -> bool
        ensures { IsTrue result ↔ (self.now.names ≡ []) }
    {
        self.names.is_empty()
    }

    /// The path up to the last member, and that member's name.
    pub fn split_last(self) -> (FieldPath, Text)
        requires { self.names ≢ [] }
        ensures root { result.0.root ≡ self.root }
        ensures names { self.names ≡ result.0.names ++ result.1 ∷ [] }
    {
        let FieldPath { root, mut names } = self;
        let Some(name) = names.pop() else {
            unreachable!()
        };
        (FieldPath { root, names }, name)
    }
}

/// Why a text is no path.
#[derive(Clone, Copy, Debug, PartialEq, Eq, Drop, Error)]
pub enum PathFault {
    /// `at` is the first byte from which the text can't go on, or its length where only more is missing.
    #[error("no field path at byte {at}")]
    NotAPath { at: usize },
    #[error("out of memory")]
    Memory,
}

impl From<AllocError> for PathFault {
    ghost use Rattle.std.specs.Prelude.{◌≡◌};
    ghost use Rattle.field_paths.specs.declared.path.PathFault.TheVariants.{Memory};

    ghost from_gives = { λ _ fault. fault ≡ Memory };

    fn from(_error: AllocError) -> PathFault {
        PathFault::Memory
    }
}

/// Why nothing was put at a path.
#[derive(Clone, Copy, Debug, PartialEq, Eq, Drop, Error)]
pub enum SetFault {
    /// A value on the way is neither a map nor null, or the path is `attributes` or `resource` alone and the value
    /// for it is no map.
    #[error("a value on the way is no map")]
    NotAMap,
    #[error("out of memory")]
    Memory,
}

impl From<AllocError> for SetFault {
    ghost use Rattle.std.specs.Prelude.{◌≡◌};
    ghost use Rattle.field_paths.specs.declared.path.SetFault.TheVariants.{Memory};

    ghost from_gives = { λ _ fault. fault ≡ Memory };

    fn from(_error: AllocError) -> SetFault {
        SetFault::Memory
    }
}

/// Why nothing was taken from a path.
#[derive(Clone, Copy, Debug, PartialEq, Eq, Drop, Error)]
pub enum TakeFault {
    #[error("there is no such value")]
    Missing,
    #[error("out of memory")]
    Memory,
}
