//! The buffer in which the bytes of a statement are put together before they are written.
ghost use Rattle.std.specs.Prelude.{◌≡◌, ℕ, ◌+◌, ◌≤◌, List, [], ◌++◌, length};
ghost use Rattle.byteorder.specs.Endian.{little_bytes};
ghost use Rattle.image_binary.specs.Added.{Adds};

use arrayvec::ArrayVec;
use std::marker::Model;

/// At most 80 bytes: the longest statement has 70.
#[derive(Drop)]
pub struct ImageBytes {
    bytes: ArrayVec<u8, 80>,
}

impl Model for ImageBytes {
    ghost use Rattle.std.specs.Prelude.{List, ℕ};

    ghost Value = { List ℕ };

    ghost view = { λ b. b.bytes.items };
}

impl ImageBytes {
    pub(crate) fn new() -> ImageBytes
        ensures { result ≡ [] }
    {
        ImageBytes {
            bytes: ArrayVec::new(),
        }
    }

    /// Takes all bytes out.
    pub(crate) fn clear(&mut self)
        ensures { self.new ≡ [] }
    {
        self.bytes.clear();
    }

    pub(crate) fn as_slice(&self) -> &[u8]
        ensures { result.now ≡ self.now }
    {
        self.bytes.as_slice()
    }

    /// Appends bytes as they are.
    pub(crate) fn push(&mut self, bytes: &[u8])
        requires { length self.old + length bytes.now ≤ 80 }
        ensures bytes { Adds self.old self.new bytes.now }
        ensures len { length self.new ≡ length self.old + length bytes.now }
    {
        let _ = self.bytes.try_extend_from_slice(bytes);
    }

    /// Appends a number of one byte.
    pub(crate) fn push_u8(&mut self, number: u8)
        requires { length self.old + 1 ≤ 80 }
        ensures bytes { Adds self.old self.new (little_bytes 1 number) }
        ensures len { length self.new ≡ length self.old + 1 }
    {
        self.push(&[number]);
    }

    /// Appends a number of two bytes.
    pub(crate) fn push_u16(&mut self, number: u16)
        requires { length self.old + 2 ≤ 80 }
        ensures bytes { Adds self.old self.new (little_bytes 2 number) }
        ensures len { length self.new ≡ length self.old + 2 }
    {
        self.push(&number.to_le_bytes());
    }

    /// Appends a number of four bytes.
    pub(crate) fn push_u32(&mut self, number: u32)
        requires { length self.old + 4 ≤ 80 }
        ensures bytes { Adds self.old self.new (little_bytes 4 number) }
        ensures len { length self.new ≡ length self.old + 4 }
    {
        self.push(&number.to_le_bytes());
    }
}
