//! What holds of the spellings themselves: no spelling begins another of its kind, so bytes that begin with one tell the
//! value and what follows. With what the calls promise, what was put is read again, whatever follows.
ghost use Rattle.std.specs.Prelude.{◌≡◌, ◌++◌, ◌<◌, ◌^◌, ℕ, List, length};
ghost use Rattle.std.specs.Int.{w32, w64, to_be_bytes};
ghost use Rattle.entry_model.specs.LogRecord.{LogRecord};
ghost use Rattle.state_codec.specs.Spelling.{bytes_spelling, entry_spelling};
ghost use Rattle.state_codec.specs.Rules.{IsReadable};

/// No spelling of an entry begins another.
pub fn entries_are_told()
    ensures { (one other : LogRecord) (x y : List ℕ) → IsReadable one → IsReadable other
        → entry_spelling one ++ x ≡ entry_spelling other ++ y → (one ≡ other) × (x ≡ y) }
{}

/// No spelling of bytes begins another. A text is spelled as its bytes.
pub fn bytes_are_told()
    ensures { (one other x y : List ℕ) → length one < 2 ^ 32 → length other < 2 ^ 32
        → bytes_spelling one ++ x ≡ bytes_spelling other ++ y → (one ≡ other) × (x ≡ y) }
{}

/// No spelling of a number of four bytes begins another.
pub fn numbers_of_four_bytes_are_told()
    ensures { (one other : ℕ) (x y : List ℕ) → one < 2 ^ 32 → other < 2 ^ 32
        → to_be_bytes w32 one ++ x ≡ to_be_bytes w32 other ++ y → (one ≡ other) × (x ≡ y) }
{}

/// No spelling of a number of eight bytes begins another.
pub fn numbers_of_eight_bytes_are_told()
    ensures { (one other : ℕ) (x y : List ℕ) → one < 2 ^ 64 → other < 2 ^ 64
        → to_be_bytes w64 one ++ x ≡ to_be_bytes w64 other ++ y → (one ≡ other) × (x ≡ y) }
{}
