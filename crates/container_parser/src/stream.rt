// The streams to which containers write.
ghost use Rattle.std.specs.Prelude.{◌≡◌, ◌++◌, ◌∷◌, ℕ, IfOk, IfErr};
ghost use Rattle.json_text.specs.Leftmost.{IsLeftmostFault};
ghost use Rattle.std.specs.List.{after_first};
ghost use Rattle.container_parser.specs.Inner.Common.{IsCommon};
ghost use Rattle.container_parser.specs.CriLines.{IsStream, IsSaid};
ghost use Rattle.container_parser.specs.Words.{is_space};

/// The stream that the text names, and what stands behind it and a space; or the first byte from which the text can't go on.
pub fn stream_of(text: &str) -> Result<(&'static str, &str), usize>
    ensures stream { IfOk result (λ parts. IsStream parts.0.now) }
    ensures ok { IfOk result (λ parts. text.now ≡ parts.0.now ++ 32 ∷ after_first is_space text.now) }
    ensures behind { IfOk result (λ parts. parts.1.now ≡ after_first is_space text.now) }
    ensures fault { IfErr result (IsLeftmostFault IsSaid text.now) }
{
    let bytes = text.as_bytes();
    let out = common(b"stdout ", bytes);
    if out == 7 {
        return Ok(("stdout", &text[7..]));
    }
    let err = common(b"stderr ", bytes);
    if err == 7 {
        return Ok(("stderr", &text[7..]));
    }
    Err(out.max(err))
}

/// How many bytes both begin with.
fn common(word: &[u8], bytes: &[u8]) -> usize
    ensures { IsCommon word.now bytes.now result }
{
    for (i, byte) in word.iter().enumerate() {
        if i >= bytes.len() || bytes[i] != *byte {
            return i;
        }
    }
    word.len()
}
