//! A piece of a page.

/// The bytes of a page in which a span of addresses lies.
#[derive(Clone, Copy)]
pub struct Piece {
    /// The page's number.
    pub page: u16,
    /// The offset of the first byte, at most 4,095.
    pub at: u16,
    /// How many bytes, at most 4,096.
    pub len: u16,
}

impl Default for Piece {
    ghost use Rattle.std.specs.Prelude.{◌≡◌};

    ghost is_default = { λ p. p ≡ record { page = 0; at = 0; len = 0 } };

    fn default() -> Piece {
        Piece {
            page: 0,
            at: 0,
            len: 0,
        }
    }
}
