// Maps that are made member by member.
ghost use Rattle.entry_model.specs.Places.{name_cmp};
ghost use Rattle.std.specs.BTreeMap.{insert_entry};
ghost use Rattle.std.specs.Prelude.{◌≡◌, ◌↔◌, [], IfOk, IsTrue, OnOk};

use crate::{Fields, Text, Value};
use std::alloc::{AllocError, Global};
use std::collections::BTreeMap;
use std::marker::Model;
use std::mem;

/// The most members that stand in one piece while a map is made.
const FEW: usize = 128;

/// A map that is made member by member, in any order of their names. A further member costs logarithmic time.
#[derive(Drop)]
pub struct FieldsBuilder {
    few: Fields,
    // All of them, once they are more than a few.
    many: BTreeMap<Text, Value>,
    alloc: Global,
}

impl Model for FieldsBuilder {
    ghost use Rattle.entry_model.specs.Built.{built, IsInOnePlace, Made};
    ghost use Rattle.entry_model.specs.ByName.{by_name_code};
    ghost use Rattle.entry_model.specs.contracts.value.Value as value;

    ghost Value = { Made };

    ghost coded = { by_name_code value.the_row.coded };

    ghost view = { λ b. built b.few.entries b.many.entries };

    ghost invariant = { λ b. IsInOnePlace b.few.entries b.many.entries };
}

impl FieldsBuilder {
    pub fn new(alloc: Global) -> FieldsBuilder
        ensures { result.entries ≡ [] }
    {
        FieldsBuilder {
            few: Fields::new(alloc),
            many: BTreeMap::new(alloc),
            alloc,
        }
    }

    /// Begins with these members.
    pub fn from_fields(alloc: Global, fields: Fields) -> FieldsBuilder
        ensures { result.entries ≡ fields.entries }
    {
        FieldsBuilder {
            few: fields,
            many: BTreeMap::new(alloc),
            alloc,
        }
    }

    pub fn is_empty(&self) -> bool
        ensures { IsTrue result ↔ (self.now.entries ≡ []) }
    {
        self.few.is_empty() && self.many.is_empty()
    }

    /// Puts a value at the name. One that stood there goes.
    #[inline(always)]
    pub fn insert(&mut self, name: Text, value: Value) -> Result<(), AllocError>
        ensures { OnOk result (self.new.entries ≡ insert_entry name_cmp self.old.entries name value) }
    {
        if !self.many.is_empty() {
            return put(&mut self.many, name, value);
        }
        if self.few.len() < FEW {
            return self.few.insert(name, value);
        }
        let few = mem::replace(&mut self.few, Fields::new(self.alloc));
        spread(few, &mut self.many)?;
        put(&mut self.many, name, value)
    }

    pub fn finish(self) -> Result<Fields, AllocError>
        ensures { IfOk result (λ fields. fields.entries ≡ self.entries) }
    {
        let FieldsBuilder { few, many, alloc } = self;
        if many.is_empty() {
            return Ok(few);
        }
        let mut members = Vec::with_capacity(alloc, many.len())?;
        for (name, value) in many {
            members.push((name, value))?;
        }
        Ok(Fields::from_ascending(members))
    }
}

// Puts a few members into an empty map for many.
#[cold]
#[inline(never)]
fn spread(few: Fields, many: &mut BTreeMap<Text, Value>) -> Result<(), AllocError>
    requires { many.old.entries ≡ [] }
    ensures { OnOk result (many.new.entries ≡ few.entries) }
{
    for (name, value) in few.into_members() {
        put(many, name, value)?;
    }
    Ok(())
}

fn put(many: &mut BTreeMap<Text, Value>, name: Text, value: Value) -> Result<(), AllocError>
    ensures { OnOk result (many.new.entries ≡ insert_entry name_cmp many.old.entries name value) }
{
    many.insert(name, value)?;
    Ok(())
}
