// Numbers that lines tell.
ghost use Rattle.std.specs.Prelude.{◌≡◌, ℕ, ◌<◌, ◌^◌, ◌++◌, List, Some, IfSome, decimal};
ghost use Rattle.otlp_json.specs.OutputLine.{line_tail};

use memchr::memrchr;

/// The number that has these digits, where a number of 64 bits has.
pub(crate) fn parsed(digits: &[u8]) -> Option<u64>
    ensures number { (number : ℕ) → number < 2 ^ 64 → digits.now ≡ decimal number → result ≡ Some number }
    ensures small { IfSome result (λ number. number < 2 ^ 64) }
{
    match str::from_utf8(digits) {
        Ok(text) => text.parse::<u64>().ok(),
        Err(_) => None,
    }
}

/// The number at the end of a line. Of a line that ends otherwise it may be any or none.
pub(crate) fn told_number(line: &[u8]) -> Option<u64>
    ensures number { (front : List ℕ) (id number : ℕ) → number < 2 ^ 64 → line.now ≡ front ++ line_tail id number → result ≡ Some number }
    ensures small { IfSome result (λ number. number < 2 ^ 64) }
{
    let Some(end) = line.strip_suffix(b"\"}}],\"name\":\"stanza_agent\"}}]}]}\n".as_slice()) else {
        return None;
    };
    let Some(quote) = memrchr(b'"', end) else {
        return None;
    };
    parsed(&end[quote + 1..])
}
