// The texts of tokens.
ghost use Rattle.std.specs.Prelude.{◌≡◌, ◌<◌, [], length, IfNone, IfOk, IfSome};
ghost use Rattle.line_splitter.specs.EntryText.{entry_text};

use entry_model::Text;
use line_splitter::{entry_text, trim};
use simdutf8::from_utf8_baseline;
use std::alloc::{AllocError, Global};

/// The text of a token, where it is a part of the token: `None` where it is empty, or where the token isn't UTF-8.
pub(crate) fn text_in(token: &[u8], leading: bool, trailing: bool) -> Option<&str>
    ensures text { IfSome result (λ text. text.now ≡ entry_text leading trailing token.now) }
    ensures some { IfSome result (λ text. 0 < length text.now) }
{
    let (from, to) = trim(token, leading, trailing);
    if from == to {
        return None;
    }
    match from_utf8_baseline(&token[from..to]) {
        Ok(text) => Some(text),
        Err(_) => None,
    }
}

/// The text that a token gives to an entry, made of its bytes where they are UTF-8 as they stand. `None` exactly for an empty text,
/// which makes no entry.
pub(crate) fn body_of(
    alloc: Global,
    token: &[u8],
    leading: bool,
    trailing: bool,
) -> Result<Option<Text>, AllocError>
    ensures none { IfOk result (λ body. IfNone body (entry_text leading trailing token.now ≡ [])) }
    ensures some { IfOk result (λ body. IfSome body (λ text. text ≡ entry_text leading trailing token.now)) }
    ensures not_empty { IfOk result (λ body. IfSome body (λ text. 0 < length (entry_text leading trailing token.now))) }
{
    if let Some(text) = text_in(token, leading, trailing) {
        return Ok(Some(Text::from_str(alloc, text)?));
    }
    match entry_text(alloc, token, leading, trailing)? {
        Some(text) => Ok(Some(Text::new(text)?)),
        None => Ok(None),
    }
}
