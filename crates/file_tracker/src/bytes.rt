// Bytes that contracts see as a list.
ghost use Rattle.std.specs.Prelude.{◌≡◌, IfOk, vec_len};

use std::alloc::{AllocError, Global};
use std::fmt;
use std::marker::Model;

/// Any bytes, of a file or of a state.
#[derive(Drop)]
pub struct Bytes {
    content: Vec<u8>,
}

impl Model for Bytes {
    ghost use Rattle.std.specs.Prelude.{List, ℕ};

    ghost Value = { List ℕ };

    ghost view = { λ bytes. bytes.content.items };
}

impl Bytes {
    pub fn new(content: Vec<u8>) -> Bytes
        ensures { result ≡ content.items }
    {
        Bytes { content }
    }

    pub fn from_slice(alloc: Global, content: &[u8]) -> Result<Bytes, AllocError>
        ensures { IfOk result (λ bytes. bytes ≡ content.now) }
    {
        Ok(Bytes::new(Vec::from_slice(alloc, content)?))
    }

    pub fn as_slice(&self) -> &[u8]
        ensures { result.now ≡ self.now }
    {
        self.content.as_slice()
    }

    pub fn into_vec(self) -> Vec<u8>
        ensures { result.items ≡ self }
    {
        let Bytes { content } = self;
        content
    }
}

impl PartialEq for Bytes {
    ghost use Rattle.std.specs.Cmp.{partial_equiv_from_equiv};
    ghost use Rattle.std.specs.Cmp.Lexicographic.{pointwise, nat_list_eq_equiv};
    ghost use Rattle.std.specs.Prelude.{nat_eq};

    ghost eq = { pointwise nat_eq };

    ghost laws = { partial_equiv_from_equiv nat_list_eq_equiv };

    fn eq(&self, other: &Bytes) -> bool {
        self.as_slice() == other.as_slice()
    }
}

impl fmt::Debug for Bytes {
    fn fmt<W: fmt::Write>(&self, f: &mut fmt::Formatter<W>) -> fmt::Result {
        fmt::Debug::fmt(self.as_slice(), f)
    }
}
