//! What a process writes to the kernel's log.
use arrayvec::ArrayVec;
use std::marker::Model;

/// At most 256 bytes.
#[derive(Drop)]
pub struct LogBytes {
    bytes: ArrayVec<u8, 256>,
}

impl Model for LogBytes {
    ghost use Rattle.std.specs.Prelude.{List, ℕ};

    ghost Value = { List ℕ };

    ghost view = { λ b. b.bytes.items };
}

impl LogBytes {
    ghost use Rattle.std.specs.Prelude.{◌≡◌, ◌≤◌, ◌<◌, ◌+◌, ◌++◌, ◌∷◌, [], length};

    pub fn new() -> LogBytes
        ensures { result ≡ [] }
    {
        LogBytes {
            bytes: ArrayVec::new(),
        }
    }

    pub fn push(&mut self, byte: u8)
        requires { length self.old < 256 }
        ensures { self.new ≡ self.old ++ byte ∷ [] }
    {
        self.bytes.push(byte);
    }

    pub fn append(&mut self, bytes: &[u8])
        requires { length self.old + length bytes.now ≤ 256 }
        ensures { self.new ≡ self.old ++ bytes.now }
    {
        let _fits = self.bytes.try_extend_from_slice(bytes);
    }

    pub fn as_slice(&self) -> &[u8]
        ensures value { result.now ≡ self.now }
        ensures bound { length self.now ≤ 256 }
    {
        self.bytes.as_slice()
    }
}
