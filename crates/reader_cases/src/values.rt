// Values as JSON text, in which no character is escaped.
use crate::texts::one_line;
use entry_model::{Fields, Value, Values};
use std::alloc::{AllocError, Global};

/// The value that a text spells, or the fault.
pub fn json(alloc: Global, text: &str) -> Result<String, AllocError> {
    match json_text::read(alloc, text) {
        Ok(value) => value_text(alloc, &value),
        Err(fault) => format!(in alloc; "{fault}"),
    }
}

pub fn value_text(alloc: Global, value: &Value) -> Result<String, AllocError> {
    let mut written = String::new(alloc);
    write_value(alloc, value, &mut written)?;
    one_line(alloc, written.as_bytes())
}

#[cycle(write)]
fn write_value(alloc: Global, value: &Value, out: &mut String) -> Result<(), AllocError> {
    match value {
        Value::Null => out.push_str("null"),
        Value::Bool(true) => out.push_str("true"),
        Value::Bool(false) => out.push_str("false"),
        Value::Int(number) => {
            let digits = number.to_string(alloc)?;
            out.push_str(digits.as_str())
        }
        Value::Text(text) => write_text(text.as_str(), out),
        Value::List(values) => write_list(alloc, values, out),
        Value::Map(fields) => write_map(alloc, fields, out),
    }
}

fn write_text(text: &str, out: &mut String) -> Result<(), AllocError> {
    out.push('"')?;
    out.push_str(text)?;
    out.push('"')
}

#[cycle(write)]
fn write_list(alloc: Global, values: &Values, out: &mut String) -> Result<(), AllocError> {
    let mut before = '[';
    for value in values {
        out.push(before)?;
        write_value(alloc, value, out)?;
        before = ',';
    }
    out.push_str(if before == '[' { "[]" } else { "]" })
}

#[cycle(write)]
fn write_map(alloc: Global, fields: &Fields, out: &mut String) -> Result<(), AllocError> {
    let mut before = '{';
    for (name, value) in fields.members() {
        out.push(before)?;
        write_text(name.as_str(), out)?;
        out.push(':')?;
        write_value(alloc, value, out)?;
        before = ',';
    }
    out.push_str(if before == '{' { "{}" } else { "}" })
}
