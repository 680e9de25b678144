// Settings texts that contracts see as a list.
ghost use Rattle.std.specs.Prelude.{◌≡◌};

use file_tracker::Bytes;
use std::marker::Model;

/// The settings texts in force, byte for byte, the first one first.
#[derive(Drop)]
pub struct Eras {
    content: Vec<Bytes>,
}

impl Model for Eras {
    ghost use Rattle.std.specs.Prelude.{List, ℕ};

    ghost Value = { List (List ℕ) };

    ghost view = { λ eras. eras.content.items };
}

impl Eras {
    pub fn new(content: Vec<Bytes>) -> Eras
        ensures { result ≡ content.items }
    {
        Eras { content }
    }

    pub fn as_slice(&self) -> &[Bytes]
        ensures { result.now ≡ self.now }
    {
        self.content.as_slice()
    }

    pub fn into_vec(self) -> Vec<Bytes>
        ensures { result.items ≡ self }
    {
        let Eras { content } = self;
        content
    }
}
