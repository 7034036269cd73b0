//! The cache as a list of entries.

ghost use Rattle.std.specs.Prelude.{◌≡◌, ◌≤◌, ◌<◌, ◌/◌, ◌++◌, [], ◌∷◌, length, IfSome, None, Some};
ghost use Rattle.std.specs.List.{position};
ghost use Rattle.tlb_model.specs.Entry.{is_of};
ghost use Rattle.tlb_model.specs.Tlb.{IsTlb, filled, look, room, without_block, without_page};

use crate::entry::Entry;
use arrayvec::ArrayVec;
use guard_math::Block;
use std::marker::Model;
use sv32_tables::Leaf;

/// The entries of one hart, oldest first. No two are of the same root and page.
///
/// Each call goes over the entries at most twice, and `seek` mostly over one.
#[derive(Drop)]
pub struct Tlb {
    entries: ArrayVec<Entry, 64>,
    /// Where the entry of a page may stand, by the page modulo 64: a guess, which is tested when it is used.
    places: [u8; 64],
}

impl Model for Tlb {
    ghost use Rattle.std.specs.Prelude.{List};
    ghost use Rattle.tlb_model.specs.declared.entry.Entry.{Entry};
    ghost use Rattle.tlb_model.specs.Tlb.{IsTlb};

    ghost Value = { List Entry };

    ghost view = { λ t. t.entries.items };

    ghost invariant = { λ t. IsTlb t.entries.items };
}

impl Tlb {
    pub fn new() -> Tlb
        ensures { result ≡ [] }
    {
        Tlb {
            entries: ArrayVec::new(),
            places: [0; 64],
        }
    }

    /// The leaf that is held for the page of an address.
    pub fn look(&self, root: u16, va: u32) -> Option<Leaf>
        ensures leaf { result ≡ look self.now root (va / 4096) }
        ensures kept { IsTlb self.now }
    {
        let page = va / 4096;
        'entries: for entry in self.entries.as_slice() {
            if entry.is_of(root, page) {
                return Some(entry.leaf);
            }
        }
        None
    }

    /// The leaf that is held for the page of an address, as `look` finds it. It tries first where it
    /// found or put the entry last.
    pub fn seek(&mut self, root: u16, va: u32) -> Option<Leaf>
        ensures leaf { result ≡ look self.old root (va / 4096) }
        ensures same { self.new ≡ self.old }
        ensures kept { IsTlb self.new }
    {
        let page = va / 4096;
        let guess = self.places[(page % 64) as usize];
        if let Some(leaf) = held_at(&self.entries, guess, root, page) {
            return Some(leaf);
        }
        if let Some(place) = self.place_of(root, page) {
            self.places[(page % 64) as usize] = place as u8;
        }
        self.look(root, va)
    }

    /// Holds this leaf for the page of an address, in place of what was held for it. Where 64 others
    /// are held the oldest goes.
    pub fn fill(&mut self, root: u16, va: u32, leaf: Leaf)
        ensures entries { self.new ≡ filled self.old root (va / 4096) leaf }
        ensures kept { IsTlb self.new }
        ensures was { IsTlb self.old }
    {
        let _entries = &self.entries;
        let page = va / 4096;
        self.drop_page(root, page);
        self.make_room();
        self.push(Entry { root, page, leaf });
    }

    /// Drops what is held for the pages of a block under this root.
    pub fn drop_block(&mut self, root: u16, block: Block)
        ensures entries { self.new ≡ without_block self.old root block }
        ensures kept { IsTlb self.new }
    {
        let mut kept = ArrayVec::new();
        'entries: for entry in self.entries.as_slice() {
            if entry.root != root || !block.holds(entry.page) {
                kept.push(*entry);
            }
        }
        self.entries = kept;
    }

    pub fn drop_all(&mut self)
        ensures { self.new ≡ [] }
    {
        self.entries.clear();
    }

    fn drop_page(&mut self, root: u16, page: u32)
        ensures entries { self.new ≡ without_page self.old root page }
        ensures kept { IsTlb self.new }
    {
        if let Some(place) = self.place_of(root, page) {
            self.entries.remove(place);
        }
    }

    fn place_of(&self, root: u16, page: u32) -> Option<usize>
        ensures place { result ≡ position (is_of root page) self.now }
        ensures there { IfSome result (λ place. place < length self.now) }
    {
        self.entries
            .as_slice()
            .iter()
            .position(|entry| entry.is_of(root, page))
    }

    // Drops the oldest entry where 64 are held.
    fn make_room(&mut self)
        ensures entries { self.new ≡ room self.old }
        ensures space { length self.new < 64 }
    {
        if self.entries.is_full() {
            self.entries.remove(0);
        }
    }

    fn push(&mut self, entry: Entry)
        requires space { length self.old < 64 }
        requires none { look self.old entry.root entry.page ≡ None }
        ensures entries { self.new ≡ self.old ++ entry ∷ [] }
        ensures kept { IsTlb self.new }
    {
        self.places[(entry.page % 64) as usize] = self.entries.len() as u8;
        self.entries.push(entry);
    }
}

/// The leaf of the entry at a place, where it is that of the page.
fn held_at(entries: &ArrayVec<Entry, 64>, place: u8, root: u16, page: u32) -> Option<Leaf>
    requires { IsTlb entries.now.items }
    ensures { IfSome result (λ leaf. look entries.now.items root page ≡ Some leaf) }
{
    if place as usize >= entries.len() {
        return None;
    }
    let entry = entries[place as usize];
    if !entry.is_of(root, page) {
        return None;
    }
    Some(entry.leaf)
}
