//! Room for the bytes of a string.
ghost use Rattle.std.specs.Prelude.{◌≡◌, IfOk};

use cap_format::OutOfMemory;
use std::alloc::Global;
use std::marker::Model;

/// Room for the 65,536 bytes of the longest string. What it holds between two calls means nothing.
#[derive(Drop)]
pub struct Scratch {
    pub(crate) bytes: Vec<u8>,
}

impl Model for Scratch {
    ghost use Rattle.std.specs.Prelude.{◌≡◌, ℕ, length};

    /// How many bytes it has room for.
    ghost Value = { ℕ };

    ghost view = { λ s. length s.bytes.items };

    ghost invariant = { λ s. length s.bytes.items ≡ 65536 };
}

impl Scratch {
    /// All its memory is taken here.
    pub fn new(alloc: Global) -> Result<Scratch, OutOfMemory>
        ensures { IfOk result (λ room. room ≡ 65536) }
    {
        Ok(Scratch {
            bytes: vec![in alloc; 0; 65536]?,
        })
    }
}
