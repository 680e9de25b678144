// How paths stand to each other.
ghost use Rattle.field_paths.specs.Relates.{NamesRelate, Relates};

use crate::FieldPath;
use entry_model::Text;

/// How the place of one path stands to that of another.
#[derive(Clone, Copy, Debug, PartialEq, Eq)]
pub enum Relation {
    /// Neither is the other, above it or below it.
    Apart,
    /// It is the place of a part of the value at the other.
    Below,
    /// It is the other, or the other is the place of a part of the value at it.
    AtOrAbove,
}

impl FieldPath {
    /// How the place stands to that of another path.
    pub fn stands_to(&self, other: &FieldPath) -> Relation
        ensures { Relates result self.now other.now }
    {
        if self.root != other.root {
            return Relation::Apart;
        }
        relation_of(self.names.as_slice(), other.names.as_slice())
    }
}

fn relation_of(names: &[Text], others: &[Text]) -> Relation
    ensures { NamesRelate result names.now others.now }
{
    let Some((name, rest)) = names.split_first() else {
        return Relation::AtOrAbove;
    };
    let Some((other, other_rest)) = others.split_first() else {
        return Relation::Below;
    };
    if name != other {
        return Relation::Apart;
    }
    relation_of(rest, other_rest)
}
