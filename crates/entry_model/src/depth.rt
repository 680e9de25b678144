// How deep values are nested, and what holds of each value that was looked through.
ghost use Rattle.std.specs.Prelude.{◌≤◌, ◌<◌, ◌^◌, IsTrue, ◌↔◌, map, None, IfSome};
ghost use Rattle.std.specs.Bool.{OnTrue};
ghost use Rattle.entry_model.specs.Datum.{datum, items_of, members_of};
ghost use Rattle.entry_model.specs.LogRecord.{log_record};
ghost use Rattle.entry_model.specs.Lawful.{nesting, items_nesting, members_nesting, KeysAscend, IsLawful, AreLawful, AreLawfulMembers, IsLawfulRecord, NestsWithin};
ghost use Rattle.entry_model.specs.Seen.{seen};

use crate::{Entry, Fields, Value, Values};

impl Value {
    /// Whether at most `levels` lists and maps stand around the innermost value. Nothing deeper is looked at.
    pub fn nests_within(&self, levels: u32) -> bool
        ensures depth { IsTrue result ↔ (nesting (datum self.now) ≤ levels) }
        ensures lawful { OnTrue result (IsLawful (datum self.now)) }
    {
        value_within(self, levels)
    }
}

impl Entry {
    /// Whether body, attributes and resource are each nested at most `levels` deep.
    pub fn nests_within(&self, levels: u32) -> bool
        ensures depth { IsTrue result ↔ NestsWithin levels (log_record self.now) }
        ensures lawful { OnTrue result (IsLawfulRecord (log_record self.now)) }
    {
        let _severity_text = self.severity_text.as_str();
        nanoseconds_fit(self.timestamp);
        if !self.body.nests_within(levels) {
            return false;
        }
        if !self.attributes.nests_within(levels) {
            return false;
        }
        if !self.resource.nests_within(levels) {
            return false;
        }
        true
    }
}

fn nanoseconds_fit(timestamp: Option<u64>)
    ensures { IfSome timestamp (λ time. time < 2 ^ 64) }
{
    if let Some(time) = timestamp {
        let _time = time;
    }
}

#[cycle(within)]
fn value_within(value: &Value, levels: u32) -> bool
    ensures depth { IsTrue result ↔ (nesting (datum value.now) ≤ levels) }
    ensures lawful { OnTrue result (IsLawful (datum value.now)) }
{
    match value {
        Value::Null | Value::Bool(_) => true,
        Value::Int(number) => {
            let _number = *number;
            true
        }
        Value::Text(text) => {
            let _text = text.as_str();
            true
        }
        Value::List(values) => levels > 0 && values_within(values, levels - 1),
        Value::Map(fields) => levels > 0 && fields_within(fields, levels - 1),
    }
}

#[cycle(within)]
fn values_within(values: &Values, levels: u32) -> bool
    ensures depth { IsTrue result ↔ (items_nesting (items_of (map datum values.now.items)) ≤ levels) }
    ensures lawful { OnTrue result (AreLawful (items_of (map datum values.now.items))) }
{
    for value in values {
        if !value_within(value, levels) {
            return false;
        }
    }
    true
}

#[cycle(within)]
fn fields_within(fields: &Fields, levels: u32) -> bool
    ensures depth { IsTrue result ↔ (members_nesting (members_of (seen fields.now.entries)) ≤ levels) }
    ensures lawful { OnTrue result (AreLawfulMembers (members_of (seen fields.now.entries))) }
    ensures ascend { KeysAscend None (members_of (seen fields.now.entries)) }
{
    for (key, value) in fields.members() {
        let _key = key.as_str();
        if !value_within(value, levels) {
            return false;
        }
    }
    true
}
