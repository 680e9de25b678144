// Texts that stand in their own place.
ghost use Rattle.std.specs.Prelude.{◌≡◌, ◌≤◌, [], IfSome, length};

use crate::copies::put_lanes;
use std::marker::Model;
use std::str;

/// The most bytes of such a text. With room for them a text takes 24 bytes.
pub(crate) const ROOM: usize = 22;

/// A text of at most 22 bytes.
#[derive(Clone, Copy)]
pub(crate) struct ShortText {
    cells: [u8; ROOM],
    len: u8,
}

impl Model for ShortText {
    ghost use Rattle.std.specs.Prelude.{List, ℕ, ◌≡◌, ◌≤◌, ◌++◌, length, take, drop, IsUtf8};
    ghost use Rattle.std.proofs.Common.{arith, take-append-drop, length-take-le};
    ghost use Rattle.entry_model.specs.ShortText.{ShortBytes};

    ghost Value = { ShortBytes };

    ghost view = { λ s. record { bytes = take s.len s.cells; spare = drop s.len s.cells } };

    ghost invariant = { λ s. (s.len ≤ 22) × (length s.cells ≡ 22) × ∥ IsUtf8 (take s.len s.cells) ∥₁ };

    ghost inverse = { λ s. record { cells = s.bytes ++ s.spare; len = length s.bytes } };

    ghost inverse_ok = { λ s h i. record {
      cells = take-append-drop s.len s.cells i;
      len = length-take-le s.len s.cells (omega (arith, h.0, h.1)) i;
    } };
}

impl ShortText {
    pub(crate) fn empty() -> ShortText
        ensures { result.bytes ≡ [] }
    {
        ShortText {
            cells: [0; ROOM],
            len: 0,
        }
    }

    /// None where the text is longer.
    pub(crate) fn from_str(text: &str) -> Option<ShortText>
        ensures { IfSome result (λ short. short.bytes ≡ text.now) }
    {
        if text.len() > ROOM {
            return None;
        }
        Some(ShortText::of(text))
    }

    #[inline(always)]
    pub(crate) fn of(text: &str) -> ShortText
        requires { length text.now ≤ 22 }
        ensures { result.bytes ≡ text.now }
    {
        let mut cells = [0; ROOM];
        put_lanes(text.as_bytes(), &mut cells, 0);
        ShortText {
            cells,
            len: text.len() as u8,
        }
    }

    pub(crate) fn as_str(&self) -> &str
        ensures { result.now ≡ self.now.bytes }
    {
        // SAFETY: the invariant says that these bytes are UTF-8, and the call's `requires` is proved of them.
        unsafe { str::from_utf8_unchecked(&self.cells[..self.len as usize]) }
    }
}
