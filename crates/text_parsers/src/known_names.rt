// Names that are known before a text is read.
ghost use Rattle.std.specs.Prelude.{◌≡◌, length, IfOk};
ghost use Rattle.entry_model.specs.Seen.{seen};
ghost use Rattle.text_parsers.specs.Inner.Known.{unset_with, AreAt};

use entry_model::{Fields, FieldsBuilder, Text, Value, unset_fields};
use std::alloc::{AllocError, Global};
use std::marker::Model;

/// Names in the order in which a text has their values. Of one that stands twice the last value stays. What is made of a
/// text begins with all of them, and gets each value at its name's place, which is found once for all texts.
#[derive(Drop)]
pub struct KnownNames {
    /// Each name once, with `Null`.
    unset: Fields,
    /// Where in it each name stands.
    places: Vec<usize>,
}

impl Model for KnownNames {
    ghost use Rattle.std.specs.Prelude.{ℕ, List};
    ghost use Rattle.text_parsers.specs.Inner.Known.{names_at, AreKnown};

    ghost Value = { List (List ℕ) };

    ghost view = { λ known. names_at known.unset.entries known.places.items };

    ghost invariant = { λ known. AreKnown known.unset.entries known.places.items };
}

impl KnownNames {
    pub fn new(alloc: Global, names: &[Text]) -> Result<KnownNames, AllocError>
        ensures { IfOk result (λ known. known ≡ names.now) }
    {
        let unset = unset_of(alloc, names)?;
        let places = places_in(alloc, &unset, names)?;
        Ok(KnownNames { unset, places })
    }

    /// How many they are.
    pub fn len(&self) -> usize
        ensures { result ≡ length self.now }
    {
        self.places.len()
    }

    /// Where each stands in what `unset` makes.
    pub fn places(&self) -> &[usize]
        ensures { AreAt (unset_with self.now) self.now result.now }
    {
        self.places.as_slice()
    }

    /// All of them, each with `Null`.
    pub fn unset(&self, alloc: Global) -> Result<Fields, AllocError>
        ensures { IfOk result (λ unset. seen unset.entries ≡ unset_with self.now) }
    {
        unset_fields(alloc, &self.unset)
    }
}

fn unset_of(alloc: Global, names: &[Text]) -> Result<Fields, AllocError>
    ensures { IfOk result (λ unset. seen unset.entries ≡ unset_with names.now) }
{
    let mut members = FieldsBuilder::new(alloc);
    for name in names {
        let key = name.share()?;
        members.insert(key, Value::Null)?;
    }
    members.finish()
}

/// Where each of the names stands.
fn places_in(alloc: Global, unset: &Fields, names: &[Text]) -> Result<Vec<usize>, AllocError>
    requires { seen unset.now.entries ≡ unset_with names.now }
    ensures { IfOk result (λ places. AreAt unset.now.entries names.now places.items) }
{
    let mut places = Vec::with_capacity(alloc, names.len())?;
    for name in names {
        if let Ok(at) = unset.place(name) {
            places.push(at)?;
        }
    }
    Ok(places)
}
