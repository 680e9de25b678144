// Where the bytes of texts lie.
ghost use Rattle.std.specs.Prelude.{◌≡◌, ◌≤◌, IfOk, length, string_bytes};
ghost use Rattle.entry_model.specs.Content.{bytes_in, bytes_counted};

use crate::short::ShortText;
use arrayvec::ArrayString;
use std::alloc::{AllocError, Global};
use std::rc::{Rc, RcStr};

/// The most bytes of a text that isn't a line, as a rule. They stand beside their count, in one allocation.
const PART_ROOM: usize = 104;

/// The most bytes of most lines. They stand beside their count too. A longer text takes two allocations.
const LINE_ROOM: usize = 232;

#[derive(Drop)]
pub(crate) enum Content {
    /// In the text itself.
    Short(ShortText),
    /// In memory that texts share.
    Counted(Counted),
}

pub(crate) enum Counted {
    /// In one piece, beside their count.
    Part(Rc<ArrayString<PART_ROOM>>),
    /// In a longer piece, beside their count.
    Line(Rc<ArrayString<LINE_ROOM>>),
    /// In a piece of their own.
    Long(RcStr),
}

/// By hand, so that what drops a text goes by one call.
impl Drop for Counted {
    fn drop(self) {
        match self {
            Counted::Part(_text) => {}
            Counted::Line(_text) => {}
            Counted::Long(_text) => {}
        }
    }
}

impl Content {
    pub(crate) fn from_string(text: String) -> Result<Content, AllocError>
        ensures { IfOk result (λ content. bytes_in content ≡ string_bytes text) }
    {
        if let Some(short) = ShortText::from_str(text.as_str()) {
            return Ok(Content::Short(short));
        }
        Ok(Content::Counted(Counted::Long(RcStr::from_string(text)?)))
    }

    pub(crate) fn share(&self) -> Result<Content, AllocError>
        ensures { IfOk result (λ content. bytes_in content ≡ bytes_in self.now) }
    {
        match self {
            Content::Short(text) => Ok(Content::Short(*text)),
            Content::Counted(text) => Ok(Content::Counted(text.share()?)),
        }
    }

    pub(crate) fn as_str(&self) -> &str
        ensures { result.now ≡ bytes_in self.now }
    {
        match self {
            Content::Short(text) => text.as_str(),
            Content::Counted(text) => text.as_str(),
        }
    }
}

impl Counted {
    pub(crate) fn from_str(alloc: Global, text: &str) -> Result<Counted, AllocError>
        ensures { IfOk result (λ counted. bytes_counted counted ≡ text.now) }
    {
        match text.len() {
            0..=PART_ROOM => Ok(Counted::Part(in_one_piece(alloc, text)?)),
            0..=LINE_ROOM => Ok(Counted::Line(in_one_piece(alloc, text)?)),
            _ => Ok(Counted::Long(RcStr::from_str(alloc, text)?)),
        }
    }

    fn share(&self) -> Result<Counted, AllocError>
        ensures { IfOk result (λ counted. bytes_counted counted ≡ bytes_counted self.now) }
    {
        match self {
            Counted::Part(text) => Ok(Counted::Part(text.clone()?)),
            Counted::Line(text) => Ok(Counted::Line(text.clone()?)),
            Counted::Long(text) => Ok(Counted::Long(text.clone()?)),
        }
    }

    fn as_str(&self) -> &str
        ensures { result.now ≡ bytes_counted self.now }
    {
        match self {
            Counted::Part(text) => text.as_ref().as_str(),
            Counted::Line(text) => text.as_ref().as_str(),
            Counted::Long(text) => text.as_str(),
        }
    }
}

// The text is put where it stays.
#[inline(always)]
fn in_one_piece<const ROOM: usize>(
    alloc: Global,
    text: &str,
) -> Result<Rc<ArrayString<ROOM>>, AllocError>
    requires { length text.now ≤ ROOM }
    ensures { IfOk result (λ piece. piece.value.bytes ≡ text.now) }
{
    let mut piece = Rc::new(alloc, ArrayString::new())?;
    match Rc::get_mut(&mut piece) {
        Some(held) => held.push_str(text),
        None => return Err(AllocError),
    }
    Ok(piece)
}
