// Numbers (RFC 8259, section 6).
ghost use Rattle.std.specs.Prelude.{◌≡◌, ◌<◌, ◌≤◌, [], length, IfOk, IfErr, IsAscii, slice_range};
ghost use Rattle.entry_model.specs.Datum.{datum};
ghost use Rattle.json_text.specs.Machine.{next_part, can_end as may_end, state, has_value};
ghost use Rattle.json_text.specs.Numbers.{number_of};
ghost use Rattle.json_text.specs.Reads.{Reads, Leads, Refuses, Around, part_at, number_from, behind};

use crate::JsonFault;
use entry_model::{Text, Value};
use std::alloc::{AllocError, Global};

/// What a number was read up to.
#[derive(Clone, Copy)]
pub enum Part {
    Start,
    Minus,
    /// A first digit that is 0, behind which no digit stands.
    Zero,
    Whole,
    Point,
    Fraction,
    Power,
    /// The sign of an exponent.
    Sign,
    Exponent,
}

impl Part {
    /// The part that this byte leads to. `None` where it is none of the number's.
    fn next(self, byte: u8) -> Option<Part>
        ensures { result ≡ next_part self byte }
    {
        match (self, byte) {
            (Part::Start, b'-') => Some(Part::Minus),
            (Part::Start | Part::Minus, b'0') => Some(Part::Zero),
            (Part::Start | Part::Minus, b'1'..=b'9') => Some(Part::Whole),
            (Part::Whole, b'0'..=b'9') => Some(Part::Whole),
            (Part::Zero | Part::Whole, b'.') => Some(Part::Point),
            (Part::Point | Part::Fraction, b'0'..=b'9') => Some(Part::Fraction),
            (Part::Zero | Part::Whole | Part::Fraction, b'e' | b'E') => Some(Part::Power),
            (Part::Power, b'+' | b'-') => Some(Part::Sign),
            (Part::Power | Part::Sign | Part::Exponent, b'0'..=b'9') => Some(Part::Exponent),
            _ => None,
        }
    }

    /// The part that the byte at `at` leads to, where one stands there.
    fn next_at(self, text: &str, at: usize) -> Option<Part>
        ensures { result ≡ part_at self text.now at }
    {
        let bytes = text.as_bytes();
        if at < bytes.len() {
            return self.next(bytes[at]);
        }
        None
    }

    fn can_end(self) -> bool
        ensures { result ≡ may_end self }
    {
        matches!(
            self,
            Part::Zero | Part::Whole | Part::Fraction | Part::Exponent
        )
    }
}

/// The number that begins at `at`, and the place behind it.
pub fn number(alloc: Global, text: &str, at: usize) -> Result<(Value, usize), JsonFault>
    requires { at ≤ length text.now }
    ensures { Reads text.now at (number_from Part.Start []) (λ around value. behind (datum value) around) result }
{
    let end = match number_end(text, at) {
        Ok(end) => end,
        Err(fault) => return Err(fault),
    };
    let value = number_value(alloc, &text[at..end])?;
    Ok((value, end))
}

/// The place behind the number that begins at `at`.
fn number_end(text: &str, at: usize) -> Result<usize, JsonFault>
    requires { at ≤ length text.now }
    ensures ok { IfOk result (λ end. Leads {Around = Around} text.now at (number_from Part.Start []) end
        (λ around. state (has_value (number_of (slice_range text.now at end))) around.0 around.1)) }
    ensures some { IfOk result (λ end. at < end) }
    ensures ascii { IfOk result (λ end. IsAscii (slice_range text.now at end)) }
    ensures fault { IfErr result (Refuses {Around = Around} text.now at (number_from Part.Start [])) }
{
    let mut part = Part::Start;
    let mut end = at;
    while let Some(next) = part.next_at(text, end) {
        part = next;
        end += 1;
    }
    if part.can_end() {
        return Ok(end);
    }
    Err(JsonFault::Syntax { at: end })
}

/// An integer where 64 bits hold it, and any other number as it is spelled.
fn number_value(alloc: Global, spelled: &str) -> Result<Value, AllocError>
    ensures { IfOk result (λ value. datum value ≡ number_of spelled.now) }
{
    match spelled.parse::<i64>() {
        Ok(number) => Ok(Value::Int(number)),
        Err(_) => Ok(Value::Text(Text::from_str(alloc, spelled)?)),
    }
}
