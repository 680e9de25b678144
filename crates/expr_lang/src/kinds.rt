// What operators make of values, by their kinds.
ghost use Rattle.std.specs.Prelude.{◌≡◌, nat_eq, option_map, is_some, map};
ghost use Rattle.field_paths.specs.MapOf.{members_seen};
ghost use Rattle.field_paths.specs.Members.{member_at};
ghost use Rattle.std.specs.List.{starts_with, ends_with};
ghost use Rattle.entry_model.specs.Datum.{datum, items_of};
ghost use Rattle.expr_lang.specs.Equality.{same};
ghost use Rattle.expr_lang.specs.Kinds.{compared, less, is_in, is_item, has_part, of_texts};
ghost use Rattle.expr_lang.specs.OperandOf.{seen_as};

use crate::token::Comparison;
use crate::values::{are_same, are_same_lists, are_same_maps};
use entry_model::{Fields, Text, Value, Values};

/// A value that is lent by an expression or an entry, or made on the way.
#[derive(Clone, Copy)]
pub enum Operand<'e> {
    Null,
    Bool(bool),
    Int(i64),
    Text(&'e Text),
    List(&'e Values),
    Map(&'e Fields),
}

impl<'e> Operand<'e> {
    pub fn of(value: &'e Value) -> Operand<'e>
        ensures { seen_as result ≡ datum value.now }
    {
        match value {
            Value::Null => Operand::Null,
            Value::Bool(flag) => Operand::Bool(*flag),
            Value::Int(number) => Operand::Int(*number),
            Value::Text(text) => Operand::Text(text),
            Value::List(values) => Operand::List(values),
            Value::Map(fields) => Operand::Map(fields),
        }
    }
}

/// What a comparison of two values gives, or `None` where it doesn't take values of their kinds.
pub fn compare(comparison: Comparison, left: Operand, right: Operand) -> Option<bool>
    ensures { result ≡ compared comparison (seen_as left.entry) (seen_as right.entry) }
{
    match comparison {
        Comparison::Equal => Some(are_equal(left, right)),
        Comparison::NotEqual => Some(!are_equal(left, right)),
        Comparison::Less => is_less(left, right),
        Comparison::LessOrEqual => is_less(right, left).map(|less| !less),
        Comparison::Greater => is_less(right, left),
        Comparison::GreaterOrEqual => is_less(left, right).map(|less| !less),
        Comparison::Contains => contains(left, right),
        Comparison::StartsWith => begins(left, right),
        Comparison::EndsWith => ends(left, right),
        Comparison::In => is_among(left, right),
    }
}

fn are_equal(left: Operand, right: Operand) -> bool
    ensures { result ≡ same (seen_as left.entry) (seen_as right.entry) }
{
    match (left, right) {
        (Operand::Null, Operand::Null) => true,
        (Operand::Bool(a), Operand::Bool(b)) => a == b,
        (Operand::Int(a), Operand::Int(b)) => a == b,
        (Operand::Text(a), Operand::Text(b)) => *a == *b,
        (Operand::List(a), Operand::List(b)) => are_same_lists(a, b),
        (Operand::Map(a), Operand::Map(b)) => are_same_maps(a, b),
        _ => false,
    }
}

fn is_less(left: Operand, right: Operand) -> Option<bool>
    ensures { result ≡ less (seen_as left.entry) (seen_as right.entry) }
{
    match (left, right) {
        (Operand::Int(a), Operand::Int(b)) => Some(a < b),
        (Operand::Text(a), Operand::Text(b)) => Some(*a < *b),
        _ => None,
    }
}

#[tactic(auto, using(crate::proofs::Parts::part_found))]
fn contains(left: Operand, right: Operand) -> Option<bool>
    ensures { result ≡ of_texts has_part (seen_as left.entry) (seen_as right.entry) }
{
    match (left, right) {
        (Operand::Text(text), Operand::Text(part)) => Some(text.as_str().contains(part.as_str())),
        _ => None,
    }
}

#[tactic(auto, using(std::proofs::lemmas::Str::Pattern::starts_text))]
fn begins(left: Operand, right: Operand) -> Option<bool>
    ensures { result ≡ of_texts (starts_with nat_eq) (seen_as left.entry) (seen_as right.entry) }
{
    match (left, right) {
        (Operand::Text(text), Operand::Text(part)) => Some(
            text.as_str().starts_with(part.as_str()),
        ),
        _ => None,
    }
}

#[tactic(auto, using(std::proofs::lemmas::Str::Pattern::ends_text))]
fn ends(left: Operand, right: Operand) -> Option<bool>
    ensures { result ≡ of_texts (ends_with nat_eq) (seen_as left.entry) (seen_as right.entry) }
{
    match (left, right) {
        (Operand::Text(text), Operand::Text(part)) => Some(text.as_str().ends_with(part.as_str())),
        _ => None,
    }
}

fn is_among(left: Operand, right: Operand) -> Option<bool>
    ensures { result ≡ is_in (seen_as left.entry) (seen_as right.entry) }
{
    match (left, right) {
        (one, Operand::List(values)) => Some(has_member(values, one)),
        (Operand::Text(key), Operand::Map(fields)) => Some(has_key(fields, key)),
        _ => None,
    }
}

fn has_key(fields: &Fields, key: &Text) -> bool
    ensures { result ≡ is_some (member_at key.now (members_seen fields.now.entries)) }
{
    fields.contains_key(key)
}

#[tactic(auto, using(crate::proofs::Same::item_step, crate::proofs::Same::item_end))]
fn has_member(values: &Values, one: Operand) -> bool
    ensures { result ≡ is_item (seen_as one.entry) (items_of (map datum values.now.items)) }
{
    for value in values {
        if are_equal(one, Operand::of(value)) {
            return true;
        }
    }
    false
}
