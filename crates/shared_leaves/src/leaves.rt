//! The parts, and finding a page in them.

ghost use Rattle.std.specs.Prelude.{◌≡◌, ◌<◌, ◌/◌, length, slice_get, IfOk, IfSome, Some};
ghost use Rattle.shared_leaves.specs.Kept.{nothing};
ghost use Rattle.shared_leaves.specs.Cache.{frame_of, kept_of, leaf_for, root_at};
ghost use Rattle.shared_leaves.specs.Effects.{ChangesHart, IsBlank, IsHeld, IsKept, value_of};

use crate::key::Key;
use arrayvec::ArrayVec;
use cap_format::{Cap, OutOfMemory};
use depend_table::Depends;
use map_cache::{empty_tlbs, hold, seek};
use std::alloc::Global;
use sv32_tables::{Leaf, SharedPool};
use tlb_model::{Tlb, fill_law};

/// A frame or a record is wanting.
#[derive(Clone, Copy)]
pub struct Wanting;

/// The tables with what each frame is for, the caches of the harts, and the records of what walks read.
#[derive(Drop)]
pub struct LeafTables {
    pub tables: SharedPool,
    /// What each frame in use is for, by its number.
    pub keys: ArrayVec<Key, 256>,
    pub tlbs: Vec<Tlb>,
    pub records: Depends,
}

impl LeafTables {
    /// Nothing kept, for so many harts. No other call takes memory.
    pub fn new(alloc: Global, harts: u8) -> Result<LeafTables, OutOfMemory>
        ensures blank { IfOk result (λ m. IsBlank (value_of m)) }
        ensures nothing { IfOk result (λ m. kept_of (value_of m) ≡ nothing) }
        ensures kept { IfOk result (λ m. IsKept m) }
        ensures harts { IfOk result (λ m. length m.tlbs.items ≡ harts) }
    {
        Ok(LeafTables {
            tables: SharedPool::new(alloc)?,
            keys: ArrayVec::new(),
            tlbs: empty_tlbs(alloc, harts)?,
            records: Depends::new(alloc)?,
        })
    }

    /// The leaf of the page of an address, which the hart holds afterwards.
    #[inline(always)]
    pub fn find(&mut self, hart: u8, space: Cap, va: u32) -> Option<Leaf>
        requires kept { IsKept self.old }
        requires hart { hart < length self.old.tlbs.items }
        ensures leaf { result ≡ leaf_for (value_of self.old) space (va / 4096) }
        ensures held { IfSome result
            (λ leaf. IsHeld (value_of self.new) hart space (va / 4096) leaf) }

        ensures kept { IsKept self.new }
        ensures changes { ChangesHart (value_of self.old) (value_of self.new) hart }
    {
        fill_law();
        let root = frame_of(&self.keys, &Key::root(space))?;
        if let Some(leaf) = seek(&mut self.tlbs, hart, root, va) {
            return Some(leaf);
        }
        let leaf = self.tables.hw_walk(root, va).ok()?;
        hold(&mut self.tlbs, hart, root, va, leaf);
        Some(leaf)
    }
}

/// The frame of a key.
pub fn frame_of(keys: &ArrayVec<Key, 256>, key: &Key) -> Option<u16>
    ensures { result ≡ frame_of keys.now.items key.now }
{
    let place = place_of(keys, key)?;
    Some(place as u16)
}

fn place_of(keys: &ArrayVec<Key, 256>, key: &Key) -> Option<usize>
    ensures place { result ≡ frame_of keys.now.items key.now }
    ensures there { IfSome result (λ place. place < 256) }
{
    keys.as_slice().iter().position(|frame| frame.is(key))
}
