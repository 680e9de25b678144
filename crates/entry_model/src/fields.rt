// Maps from texts.
ghost use Rattle.entry_model.specs.Lending.{LendsValue, LendsValueAt};
ghost use Rattle.entry_model.specs.Places.{name_cmp, value_set_at, FitsAt, NamesAscend, StandsAt};
ghost use Rattle.std.specs.BTreeMap.{insert_entry, is_at};
ghost use Rattle.std.specs.Borrow.{sem};
ghost use Rattle.std.specs.Fn.{CalledAt};
ghost use Rattle.std.specs.List.{insert};
ghost use Rattle.std.specs.List.Retain.{IsFiltered};
ghost use Rattle.std.specs.Map.{lookup, remove_entry, values_of};
ghost use Rattle.std.specs.Option.{option_copied, option_copied_mut};
ghost use Rattle.std.specs.Prelude.{◌≡◌, ◌↔◌, ◌<◌, ◌≤◌, [], Some, is_ok, is_some, IfErr, IfNone, IfOk, IsTrue, OnErr, OnOk, length, slice_get};

use crate::Text;
use crate::text::order;
use std::alloc::{AllocError, Global};
use std::cmp::Ordering;
use std::marker::Model;

/// The number of members for which the first one that is put in makes room.
pub(crate) const FIRST_ROOM: usize = 16;

/// Among at most so many members a name is looked for from the last one on.
const SHORT: usize = 16;

/// Values by their names, in ascending byte order of the names, in one piece of memory. A name is found in logarithmic time. A
/// new name costs constant time behind all others, and else the time to move those that stand behind it.
#[derive(Drop)]
pub struct TextMap<V> {
    members: Vec<(Text, V)>,
}

impl<V> Model for TextMap<V> {
    ghost use Rattle.entry_model.specs.ByName.{ByName, by_name_code};
    ghost use Rattle.entry_model.specs.Places.{NamesAscend};

    ghost Value = { ByName V };

    ghost coded = { by_name_code V.code };

    ghost view = { λ m. record { entries = m.members.items } };

    ghost invariant = { λ m. NamesAscend m.members.items };
}

impl<V> TextMap<V> {
    /// The map without members, which takes no memory.
    pub fn new(alloc: Global) -> TextMap<V>
        ensures { result.entries ≡ [] }
    {
        TextMap {
            members: Vec::new(alloc),
        }
    }

    // The names ascend.
    pub(crate) fn from_ascending(members: Vec<(Text, V)>) -> TextMap<V>
        requires { NamesAscend members.items }
        ensures { result.entries ≡ members.items }
    {
        TextMap { members }
    }

    pub fn len(&self) -> usize
        ensures len { result ≡ length self.now.entries }
        ensures ordered { NamesAscend self.now.entries }
    {
        self.members.len()
    }

    pub fn is_empty(&self) -> bool
        ensures { IsTrue result ↔ (length self.now.entries ≡ 0) }
    {
        self.len() == 0
    }

    /// The members, in ascending byte order of their names.
    pub fn members(&self) -> &[(Text, V)]
        ensures members { result.now ≡ self.now.entries }
        ensures ordered { NamesAscend self.now.entries }
    {
        self.members.as_slice()
    }

    pub fn into_members(self) -> Vec<(Text, V)>
        ensures members { result.items ≡ self.entries }
        ensures ordered { NamesAscend self.entries }
    {
        let TextMap { members } = self;
        members
    }

    pub fn get(&self, name: &Text) -> Option<&V>
        ensures value { option_copied result ≡ lookup (is_at (name_cmp name.now)) self.now.entries }
    {
        match self.place(name) {
            Ok(at) => Some(&self.members[at].1),
            Err(_) => None,
        }
    }

    pub fn contains_key(&self, name: &Text) -> bool
        ensures { result ≡ is_some (lookup (is_at (name_cmp name.now)) self.now.entries) }
    {
        self.place(name).is_ok()
    }

    pub fn get_mut(&mut self, name: &Text) -> Option<&mut V>
        ensures* writes_back { sem 𝓛 (LendsValue V.row self.entry name.now result) }
        ensures value { option_copied_mut result ≡ lookup (is_at (name_cmp name.now)) self.old.entries }
        ensures ordered { NamesAscend self.old.entries }
    {
        match self.place(name) {
            Ok(at) => Some(self.value_mut(at)),
            Err(_) => None,
        }
    }

    fn value_mut(&mut self, at: usize) -> &mut V
        requires { at < length self.old.entries }
        ensures* writes_back { sem 𝓛 (LendsValueAt V.row self.entry at result) }
        ensures value { slice_get (values_of self.old.entries) at ≡ Some result.now }
    {
        let member = &mut self.members[at];
        &mut member.1
    }

    /// The place at which the name stands among the members, or else where it would.
    #[tactic(auto, using(crate::proofs::Places::place_tells))]
    pub fn place(&self, name: &Text) -> Result<usize, usize>
        ensures found { IfOk result (StandsAt name.now self.now.entries) }
        ensures missing { IfErr result (FitsAt name.now self.now.entries) }
        ensures tells { is_ok result ≡ is_some (lookup (is_at (name_cmp name.now)) self.now.entries) }
        ensures ordered { NamesAscend self.now.entries }
    {
        let members = self.members.as_slice();
        if members.len() > SHORT {
            return search(members, name);
        }
        search_back(members, name)
    }
}

// Names mostly come near the end.
#[inline(always)]
fn search_back<V>(members: &[(Text, V)], name: &Text) -> Result<usize, usize>
    requires { NamesAscend members.now }
    ensures found { IfOk result (StandsAt name.now members.now) }
    ensures missing { IfErr result (FitsAt name.now members.now) }
{
    let wanted = name.as_str();
    let mut at = members.len();
    while at > 0 {
        match order(wanted, members[at - 1].0.as_str()) {
            Ordering::Greater => return Err(at),
            Ordering::Equal => return Ok(at - 1),
            Ordering::Less => at -= 1,
        }
    }
    Err(0)
}

// Apart, so that `place` is small where it is called.
#[inline(never)]
fn search<V>(members: &[(Text, V)], name: &Text) -> Result<usize, usize>
    requires { NamesAscend members.now }
    ensures found { IfOk result (StandsAt name.now members.now) }
    ensures missing { IfErr result (FitsAt name.now members.now) }
{
    members.binary_search_by(|member| member.0.cmp(name))
}

impl<V: Drop> TextMap<V> {
    /// Puts a value at the name. One that stood there goes.
    #[inline(always)]
    pub fn insert(&mut self, name: Text, value: V) -> Result<(), AllocError>
        ensures entries { OnOk result (self.new.entries ≡ insert_entry name_cmp self.old.entries name value) }
        ensures err { OnErr result (self.new.entries ≡ self.old.entries) }
    {
        match self.place(&name) {
            Ok(at) => {
                *self.value_mut(at) = value;
                Ok(())
            }
            Err(at) => self.insert_at(at, name, value),
        }
    }

    /// Puts a value at the place of a member. The one that stood there goes.
    #[inline(always)]
    pub fn set_at(&mut self, at: usize, value: V)
        requires { at < length self.old.entries }
        ensures { self.new.entries ≡ value_set_at self.old.entries at value }
    {
        let held = self.value_mut(at);
        *held = value;
    }

    /// Puts a value at a name that is missing, at the place that [`place`](TextMap::place) answers for it.
    #[inline(always)]
    pub fn insert_at(&mut self, at: usize, name: Text, value: V) -> Result<(), AllocError>
        requires { FitsAt name self.old.entries at }
        ensures entries { OnOk result (self.new.entries ≡ insert_entry name_cmp self.old.entries name value) }
        ensures err { OnErr result (self.new.entries ≡ self.old.entries) }
    {
        put_at(&mut self.members, at, (name, value))
    }

    /// Keeps the members of which `keep` says so.
    pub fn retain<F: FnMut(&(Text, V)) -> bool>(&mut self, keep: F)
        requires { F.IsAlwaysCallable keep }
        ensures { IsFiltered (CalledAt F.FnMut) keep self.old.entries self.new.entries }
    {
        self.members.retain(keep);
    }

    /// Takes away the member of the name, and hands back its value.
    pub fn remove(&mut self, name: &Text) -> Option<V>
        ensures value { result ≡ lookup (is_at (name_cmp name.now)) self.old.entries }
        ensures entries { self.new.entries ≡ remove_entry (is_at (name_cmp name.now)) self.old.entries }
        ensures unchanged { IfNone result (self.new.entries ≡ self.old.entries) }
    {
        match self.place(name) {
            Ok(at) => {
                let member = self.members.remove(at);
                Some(value_of(member))
            }
            Err(_) => None,
        }
    }
}

#[inline(always)]
#[tactic(auto, using(crate::proofs::Places::inserted_last))]
fn put_at<V: Drop>(
    members: &mut Vec<(Text, V)>,
    at: usize,
    member: (Text, V),
) -> Result<(), AllocError>
    requires { at ≤ length members.old.items }
    ensures items { OnOk result (members.new.items ≡ insert members.old.items at member) }
    ensures err { OnErr result (members.new.items ≡ members.old.items) }
{
    let len = members.len();
    if len == members.capacity() {
        make_room(members)?;
    }
    if at == len {
        members.push(member)?;
        return Ok(());
    }
    members.insert(at, member)?;
    Ok(())
}

fn value_of<V>(member: (Text, V)) -> V
    ensures { result ≡ member.1 }
{
    let (_name, value) = member;
    value
}

#[cold]
#[inline(never)]
fn make_room<V>(members: &mut Vec<(Text, V)>) -> Result<(), AllocError>
    ensures { members.new.items ≡ members.old.items }
{
    let len = members.len();
    if len < FIRST_ROOM {
        return members.reserve_exact(FIRST_ROOM - len);
    }
    members.reserve(1)
}

impl<V: PartialEq> PartialEq for TextMap<V> {
    ghost use Rattle.std.specs.Cmp.{and_per, on_per, partial_equiv_from_equiv};
    ghost use Rattle.std.specs.Cmp.Lexicographic.{lists_per, nat_list_eq_equiv, pointwise};
    ghost use Rattle.std.specs.Prelude.{◌&&◌, nat_eq};

    ghost eq = { λ m n. pointwise (λ p q. pointwise nat_eq p.0 q.0 && V.eq p.1 q.1) m.entries n.entries };

    ghost laws = { on_per (λ m. m.entries) (lists_per (and_per (on_per (λ p. p.0) (partial_equiv_from_equiv nat_list_eq_equiv)) (on_per (λ p. p.1) V.laws))) };

    fn eq(&self, other: &TextMap<V>) -> bool {
        self.members == other.members
    }
}
