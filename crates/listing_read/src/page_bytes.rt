//! A few bytes of a page.
use arrayvec::ArrayVec;
use std::marker::Model;

/// At most 64 bytes.
#[derive(Drop)]
pub struct PageBytes {
    bytes: ArrayVec<u8, 64>,
}

impl Model for PageBytes {
    ghost use Rattle.std.specs.Prelude.{List, ℕ};

    ghost Value = { List ℕ };

    ghost view = { λ b. b.bytes.items };
}

impl PageBytes {
    ghost use Rattle.std.specs.Prelude.{◌≡◌, ◌≤◌, ◌<◌, ◌++◌, ◌∷◌, [], length};

    pub fn new() -> PageBytes
        ensures { result ≡ [] }
    {
        PageBytes {
            bytes: ArrayVec::new(),
        }
    }

    pub fn push(&mut self, byte: u8)
        requires { length self.old < 64 }
        ensures { self.new ≡ self.old ++ byte ∷ [] }
    {
        self.bytes.push(byte);
    }

    pub fn as_slice(&self) -> &[u8]
        ensures value { result.now ≡ self.now }
        ensures bound { length self.now ≤ 64 }
    {
        self.bytes.as_slice()
    }
}
