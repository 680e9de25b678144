// Values as JSON texts.
use entry_model::{Fields, Value, Values};
use std::alloc::AllocError;

#[cycle(write)]
pub fn write_value(value: &Value, out: &mut String) -> Result<(), AllocError> {
    match value {
        Value::Null => out.push_str("null"),
        Value::Bool(flag) => write!(out, "{flag}"),
        Value::Int(number) => write!(out, "{number}"),
        Value::Text(text) => write_text(text.as_str(), out),
        Value::List(values) => write_values(values, out),
        Value::Map(members) => write_members(members, out),
    }
}

#[cycle(write)]
fn write_values(values: &Values, out: &mut String) -> Result<(), AllocError> {
    out.push('[')?;
    let mut first = true;
    for value in values {
        if !first {
            out.push(',')?;
        }
        first = false;
        write_value(value, out)?;
    }
    out.push(']')
}

/// The members as an object, in the order of their names.
#[cycle(write)]
pub fn write_members(members: &Fields, out: &mut String) -> Result<(), AllocError> {
    out.push('{')?;
    let mut first = true;
    for (name, value) in members.members() {
        if !first {
            out.push(',')?;
        }
        first = false;
        write_text(name.as_str(), out)?;
        out.push(':')?;
        write_value(value, out)?;
    }
    out.push('}')
}

pub fn write_text(text: &str, out: &mut String) -> Result<(), AllocError> {
    out.push('"')?;
    for letter in text.chars() {
        write_letter(letter, out)?;
    }
    out.push('"')
}

/// What can't be seen is escaped.
fn write_letter(letter: char, out: &mut String) -> Result<(), AllocError> {
    match letter {
        '"' => out.push_str("\\\""),
        '\\' => out.push_str("\\\\"),
        '\n' => out.push_str("\\n"),
        '\r' => out.push_str("\\r"),
        '\t' => out.push_str("\\t"),
        '\0'..='\u{1f}' | '\u{7f}' | '\u{a0}' | '\u{feff}' | '\u{ffff}' => {
            write!(out, "\\u{:04x}", letter as u32)
        }
        _ => out.push(letter),
    }
}
