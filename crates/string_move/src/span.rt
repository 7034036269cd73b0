//! A span of addresses.

/// A part of a string that lies in one page of addresses.
#[derive(Clone, Copy)]
pub struct Span {
    /// Of the first byte.
    pub address: u32,
    /// How many bytes, 1 to 4,096.
    pub size: u16,
}

impl Default for Span {
    ghost use Rattle.std.specs.Prelude.{◌≡◌};

    ghost is_default = { λ s. s ≡ record { address = 0; size = 0 } };

    fn default() -> Span {
        Span {
            address: 0,
            size: 0,
        }
    }
}
