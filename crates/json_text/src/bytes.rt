// Single bytes and blanks of a text.
ghost use Rattle.std.specs.Prelude.{◌≡◌, ◌≤◌, ◌<◌, ◌&&◌, ◌==◌, length, IfSome, IfNone, IfOk, IfErr, nat_lt, slice_index, take_while};
ghost use Rattle.json_text.specs.Bytes.{is_blank as is_blank_byte};
ghost use Rattle.json_text.specs.Reads.{past_blanks, IsBehindAscii, Leads, Refuses, Wanting};

use crate::JsonFault;

/// The byte at `at`, where there is one.
pub fn byte_at(text: &str, at: usize) -> Option<u8>
    ensures within { IfSome result (λ byte. at < length text.now) }
    ensures is { IfSome result (λ byte. slice_index text.now at ≡ byte) }
    ensures past { IfNone result (length text.now ≤ at) }
{
    let bytes = text.as_bytes();
    if at < bytes.len() {
        return Some(bytes[at]);
    }
    None
}

/// Whether this byte stands at `at`.
pub fn stands(text: &str, at: usize, byte: u8) -> bool
    ensures { result ≡ (nat_lt at (length text.now) && (slice_index text.now at == byte)) }
{
    let bytes = text.as_bytes();
    at < bytes.len() && bytes[at] == byte
}

/// The first place from `at` on where no blank stands.
#[tactic(auto, using(std::proofs::lemmas::List::take_rest))]
pub fn skip_blanks(text: &str, at: usize) -> usize
    requires { at ≤ length text.now }
    ensures { result ≡ past_blanks text.now at }
{
    let bytes = text.as_bytes();
    at + blank_count(&bytes[at..])
}

fn blank_count(bytes: &[u8]) -> usize
    ensures { result ≡ length (take_while is_blank_byte bytes.now) }
{
    bytes.iter().take_while(|byte| is_blank(**byte)).count()
}

fn is_blank(byte: u8) -> bool
    ensures { result ≡ is_blank_byte byte }
{
    byte == b' ' || byte == b'\t' || byte == b'\n' || byte == b'\r'
}

/// The place behind this byte, which stands at `at` or behind blanks there.
pub fn expect(text: &str, at: usize, wanted: u8) -> Result<usize, JsonFault>
    requires { at ≤ length text.now }
    ensures ok { IfOk result (λ next. Leads {Around = Wanting wanted} text.now at (λ w. w.before) next (λ w. w.after)) }
    ensures behind { wanted < 128 → IfOk result (IsBehindAscii text.now) }
    ensures fault { IfErr result (Refuses {Around = Wanting wanted} text.now at (λ w. w.before)) }
{
    let at = skip_blanks(text, at);
    if stands(text, at, wanted) {
        return Ok(at + 1);
    }
    Err(JsonFault::Syntax { at })
}
