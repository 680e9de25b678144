// Values and maps, as JSON has them.
use entry_model::{Fields, Value};
use std::alloc::AllocError;

#[cycle(show)]
pub fn show_value(value: &Value, out: &mut String) -> Result<(), AllocError> {
    match value {
        Value::Null => out.push_str("null"),
        Value::Bool(flag) => write!(out, "{flag}"),
        Value::Int(number) => write!(out, "{number}"),
        Value::Text(text) => write!(out, "{text:?}"),
        Value::List(values) => {
            out.push_str("[")?;
            for (index, value) in values.iter().enumerate() {
                if index > 0 {
                    out.push_str(", ")?;
                }
                show_value(value, out)?;
            }
            out.push_str("]")
        }
        Value::Map(fields) => show_fields(fields, out),
    }
}

#[cycle(show)]
pub fn show_fields(fields: &Fields, out: &mut String) -> Result<(), AllocError> {
    out.push_str("{")?;
    let mut first = true;
    for (key, value) in fields.members() {
        if !first {
            out.push_str(", ")?;
        }
        first = false;
        write!(out, "{key:?}: ")?;
        show_value(value, out)?;
    }
    out.push_str("}")
}
