use cap_format::Item;
use guard_math::Block;

/// One read of a walk: the item, and the block of addresses round the accessed one that read it alike.
#[derive(Clone, Copy)]
pub struct Noted {
    /// What was read.
    pub item: Item,
    /// The aligned range round the accessed address whose size is the least `l2g` or `l2v` passed
    /// when the item was read.
    pub block: Block,
}

/// The blank of a fixed list of reads.
impl Default for Noted {
    ghost use Rattle.std.specs.Prelude.{⊤};

    ghost is_default = { λ _. ⊤ };

    fn default() -> Noted {
        Noted {
            item: Item::Slot(0, 0),
            block: Block::around(0, 32),
        }
    }
}
