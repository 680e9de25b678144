// Text that contracts see as its bytes.
ghost use Rattle.std.specs.Cmp.Lexicographic.{slice_cmp};
ghost use Rattle.std.specs.Ordering.{nat_cmp};
ghost use Rattle.std.specs.Prelude.{◌≡◌, IfOk, IsTrue, ◌↔◌, [], length, string_bytes};

use crate::content::{Content, Counted};
use crate::short::{ROOM, ShortText};
use std::alloc::{AllocError, Global};
use std::cmp::Ordering;
use std::fmt;
use std::marker::Model;

/// A text in UTF-8. Texts are ordered by their bytes. One of at most 22 bytes takes no memory besides its own place. Longer
/// ones that were shared have their bytes in one place of memory: a copy of at most 232 bytes is one allocation, and one of
/// more is two.
#[derive(Drop)]
pub struct Text {
    content: Content,
}

impl Model for Text {
    ghost use Rattle.std.specs.Prelude.{List, ℕ};
    ghost use Rattle.entry_model.specs.Content.{bytes_in};

    ghost Value = { List ℕ };

    ghost view = { λ text. bytes_in text.content };
}

impl Text {
    /// The text without bytes.
    pub fn empty() -> Text
        ensures { result ≡ [] }
    {
        Text {
            content: Content::Short(ShortText::empty()),
        }
    }

    pub fn new(content: String) -> Result<Text, AllocError>
        ensures { IfOk result (λ text. text ≡ string_bytes content) }
    {
        Ok(Text {
            content: Content::from_string(content)?,
        })
    }

    pub fn from_str(alloc: Global, content: &str) -> Result<Text, AllocError>
        ensures { IfOk result (λ text. text ≡ content.now) }
    {
        if content.len() > ROOM {
            return Text::counted(alloc, content);
        }
        Ok(Text {
            content: Content::Short(ShortText::of(content)),
        })
    }

    #[inline(never)]
    fn counted(alloc: Global, content: &str) -> Result<Text, AllocError>
        ensures { IfOk result (λ text. text ≡ content.now) }
    {
        Ok(Text {
            content: Content::Counted(Counted::from_str(alloc, content)?),
        })
    }

    /// A text equal to this one. It takes no memory; the one want of memory is that of a further count, past 2^64 - 1
    /// texts that share their bytes.
    pub fn share(&self) -> Result<Text, AllocError>
        ensures { IfOk result (λ text. text ≡ self.now) }
    {
        Ok(Text {
            content: self.content.share()?,
        })
    }

    pub fn as_str(&self) -> &str
        ensures { result.now ≡ self.now }
    {
        self.content.as_str()
    }

    /// The number of bytes.
    pub fn len(&self) -> usize
        ensures { result ≡ length self.now }
    {
        self.as_str().len()
    }

    pub fn is_empty(&self) -> bool
        ensures { IsTrue result ↔ (self.now ≡ []) }
    {
        self.as_str().is_empty()
    }
}

impl PartialEq for Text {
    ghost use Rattle.std.specs.Cmp.{partial_equiv_from_equiv};
    ghost use Rattle.std.specs.Cmp.Lexicographic.{pointwise, nat_list_eq_equiv};
    ghost use Rattle.std.specs.Prelude.{nat_eq};

    ghost eq = { pointwise nat_eq };

    ghost laws = { partial_equiv_from_equiv nat_list_eq_equiv };

    fn eq(&self, other: &Text) -> bool {
        self.as_str() == other.as_str()
    }
}

impl Eq for Text {
    ghost use Rattle.std.specs.Cmp.Lexicographic.{nat_list_eq_equiv};

    ghost laws = { nat_list_eq_equiv };
}

impl PartialOrd for Text {
    ghost use Rattle.std.specs.Cmp.Lexicographic.{slice_cmp, texts_po};
    ghost use Rattle.std.specs.Ordering.{nat_cmp};
    ghost use Rattle.std.specs.Prelude.{Some};

    ghost partial_cmp = { λ x y. Some (slice_cmp nat_cmp x y) };

    ghost laws = { texts_po };

    fn partial_cmp(&self, other: &Text) -> Option<Ordering> {
        Some(self.cmp(other))
    }
}

impl Ord for Text {
    ghost use Rattle.std.specs.Cmp.Lexicographic.{slice_cmp, nat_list_cmp_total, texts_ties};
    ghost use Rattle.std.specs.Ordering.{nat_cmp};
    ghost use Rattle.std.specs.Prelude.{refl};

    ghost cmp = { slice_cmp nat_cmp };

    ghost total = { nat_list_cmp_total };

    ghost matches_partial_cmp = { λ x y. refl };

    ghost matches_eq = { texts_ties };

    fn cmp(&self, other: &Text) -> Ordering {
        order(self.as_str(), other.as_str())
    }
}

// Two keys of a map mostly differ in their first byte.
#[inline(always)]
pub(crate) fn order(one: &str, other: &str) -> Ordering
    ensures { result ≡ slice_cmp nat_cmp one.now other.now }
{
    match (one.as_bytes().first(), other.as_bytes().first()) {
        (Some(first), Some(another)) if first != another => first.cmp(another),
        _ => one.cmp(other),
    }
}

impl fmt::Debug for Text {
    fn fmt<W: fmt::Write>(&self, f: &mut fmt::Formatter<W>) -> fmt::Result {
        fmt::Debug::fmt(self.as_str(), f)
    }
}

impl fmt::Display for Text {
    ghost use Rattle.std.specs.Prelude.{Some};

    ghost output = { λ text. Some text };

    fn fmt<W: fmt::Write>(&self, f: &mut fmt::Formatter<W>) -> fmt::Result {
        fmt::Display::fmt(self.as_str(), f)
    }
}
