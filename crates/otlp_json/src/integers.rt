// The integers of an entry are of 64 bits.
ghost use Rattle.std.specs.Prelude.{◌<◌, ◌^◌, map};
ghost use Rattle.entry_model.specs.Datum.{datum, items_of, members_of};
ghost use Rattle.entry_model.specs.LogRecord.{log_record};
ghost use Rattle.otlp_json.specs.IsOf64Bits.{IsInteger, HasIntegers, ItemsHaveIntegers, MembersHaveIntegers, IsTime, IsOf64Bits};

use entry_model::{Entry, Fields, Severity, Value, Values};

/// Each entry's record is one that the laws on lines speak of. It changes nothing.
pub fn entry_is_of_64_bits(entry: &Entry)
    ensures { IsOf64Bits (log_record entry.now) }
{
    is_severity(entry.severity);
    is_time(entry.timestamp);
    value_has_integers(&entry.body);
    value_has_integers(&entry.attributes);
    value_has_integers(&entry.resource);
}

fn is_severity(severity: Severity)
    ensures { severity.number < 2 ^ 64 }
{
    let _ = severity;
}

fn is_time(time: Option<u64>)
    ensures { IsTime time }
{
    let _ = time;
}

fn is_integer(number: i64)
    ensures { IsInteger number }
{
    let _ = number;
}

#[cycle(integers)]
fn value_has_integers(value: &Value)
    ensures { HasIntegers (datum value.now) }
{
    match value {
        Value::Null | Value::Bool(_) | Value::Text(_) => {}
        Value::Int(number) => is_integer(*number),
        Value::List(values) => items_have_integers(values),
        Value::Map(fields) => members_have_integers(fields),
    }
}

#[cycle(integers)]
fn items_have_integers(values: &Values)
    ensures { ItemsHaveIntegers (items_of (map datum values.now.items)) }
{
    for value in values {
        value_has_integers(value);
    }
}

#[cycle(integers)]
fn members_have_integers(fields: &Fields)
    ensures { MembersHaveIntegers
        (members_of (map (λ field. (field.0, datum field.1)) fields.now.entries)) }
{
    for (_key, value) in fields.members() {
        value_has_integers(value);
    }
}
