// Equality of values.
ghost use Rattle.std.specs.Prelude.{◌≡◌, map};
ghost use Rattle.entry_model.specs.Datum.{datum, items_of};
ghost use Rattle.field_paths.specs.MapOf.{members_seen};
ghost use Rattle.expr_lang.specs.Equality.{same, same_items, same_members};

use entry_model::{Fields, Value, Values};

#[cycle(same)]
pub fn are_same(one: &Value, other: &Value) -> bool
    ensures { result ≡ same (datum one.now) (datum other.now) }
{
    match (one, other) {
        (Value::Null, Value::Null) => true,
        (Value::Bool(a), Value::Bool(b)) => a == b,
        (Value::Int(a), Value::Int(b)) => a == b,
        (Value::Text(a), Value::Text(b)) => a == b,
        (Value::List(a), Value::List(b)) => are_same_lists(a, b),
        (Value::Map(a), Value::Map(b)) => are_same_maps(a, b),
        _ => false,
    }
}

#[cycle(same)]
#[tactic(auto, using(crate::proofs::Same::items_step, crate::proofs::Same::items_end, crate::proofs::Same::other_length))]
pub fn are_same_lists(one: &Values, other: &Values) -> bool
    ensures { result ≡ same_items (items_of (map datum one.now.items)) (items_of (map datum other.now.items)) }
{
    if one.len() != other.len() {
        return false;
    }
    for (index, value) in one.iter().enumerate() {
        if !are_same(value, &other[index]) {
            return false;
        }
    }
    true
}

#[cycle(same)]
pub fn are_same_maps(one: &Fields, other: &Fields) -> bool
    ensures { result ≡ same_members (members_seen one.now.entries) (members_seen other.now.entries) }
{
    let mut rest = other.members().iter();
    for (key, value) in one.members() {
        match rest.next() {
            Some((name, other)) if key == name && are_same(value, other) => {}
            _ => return false,
        }
    }
    rest.next().is_none()
}
