//! What is held for one page of a root.

ghost use Rattle.std.specs.Prelude.{◌≡◌};

use sv32_tables::Leaf;

/// A leaf, with the root in whose tables it stands and the page of addresses that it is for.
#[derive(Clone, Copy)]
pub struct Entry {
    pub root: u16,
    /// The address divided by 4,096.
    pub page: u32,
    pub leaf: Leaf,
}

impl Default for Entry {
    ghost use Rattle.tlb_model.specs.Entry.{no_entry};

    ghost is_default = { λ entry. entry ≡ no_entry };

    fn default() -> Entry {
        Entry {
            root: 0,
            page: 0,
            leaf: Leaf {
                page: 0,
                write: false,
                execute: false,
            },
        }
    }
}

impl Entry {
    ghost use Rattle.tlb_model.specs.Entry.{is_of};

    /// Whether it is of this root and this page.
    pub fn is_of(&self, root: u16, page: u32) -> bool
        ensures { result ≡ is_of root page self.now }
    {
        self.root == root && self.page == page
    }
}
