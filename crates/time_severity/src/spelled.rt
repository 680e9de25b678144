// Numbers that texts spell.
ghost use Rattle.std.specs.Prelude.{◌≡◌, bytes_eq, Some, None, if◌then◌else◌};
ghost use Rattle.std.specs.Fmt.{signed_decimal};
ghost use Rattle.time_severity.specs.Spelled.{number_spelled};

use itoa::Buffer;

/// The number of which a text is the decimal spelling: with no sign but a minus, and with no zero in front.
#[tactic(auto, using(crate::proofs::Spellings::none_spelled, crate::proofs::Spellings::spelled_is))]
pub(crate) fn number_spelled(text: &str) -> Option<i64>
    ensures { result ≡ number_spelled text.now }
{
    match text.parse::<i64>() {
        Ok(number) => spelled_by(number, text),
        Err(_) => None,
    }
}

/// The number, where it is written so.
fn spelled_by(number: i64, text: &str) -> Option<i64>
    ensures { result ≡ (if bytes_eq (signed_decimal number) text.now then Some number else None) }
{
    let mut buffer = Buffer::new();
    if buffer.format(number) == text {
        Some(number)
    } else {
        None
    }
}
