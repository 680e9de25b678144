// Values, as bodies and attributes have them.
use crate::{Text, TextMap};

/// The members of a map, in ascending byte order of their keys.
pub type Fields = TextMap<Value>;

/// The values of a list, in order.
pub type Values = Vec<Value>;

/// Any value of the data model but floats and bytes: a number with a fraction or an exponent stays text, as
/// it was spelled.
#[derive(PartialEq, Drop)]
pub enum Value {
    Null,
    Bool(bool),
    Int(i64),
    Text(Text),
    List(Values),
    Map(Fields),
}

// So sixteen members, for which the first one that is put in makes room, are among the pieces of memory that glibc's `malloc` keeps at hand.
const _: () = prove!(size_of::<Text>() + size_of::<Value>() <= 56);
