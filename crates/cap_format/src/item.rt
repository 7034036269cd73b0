//! Items: the pieces of the objects that a walk reads.

ghost use Rattle.std.specs.Prelude.{◌≡◌};

use crate::kind::CapKind;

/// What a walk may read, and what a change may touch.
#[derive(Clone, Copy, Debug, PartialEq, Eq)]
pub enum Item {
    /// The header of an object: its allocation count, and of a GPT its `l2v` and flags.
    Header(CapKind, u16),
    /// A slot of a GPT, by the GPT's number.
    Slot(u16, u8),
}

impl Default for Item {
    ghost use Rattle.cap_format.specs.Item.{first_item};

    ghost is_default = { λ item. item ≡ first_item };

    fn default() -> Item {
        Item::Slot(0, 0)
    }
}
