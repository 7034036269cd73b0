//! The pool of frames in which several roots may lead to one leaf table.

ghost use Rattle.std.specs.Prelude.{◌≡◌, ◌≤◌, ◌<◌, ◌↔◌, ◌/◌, ◌%◌, ℕ, length, IfOk, IsErr, OnErr};
ghost use Rattle.std.specs.Result.{result_ok};
ghost use Rattle.sv32_tables.specs.Pool.{word_at};
ghost use Rattle.sv32_tables.specs.Sv32.{WalksTo};
ghost use Rattle.sv32_tables.specs.Shared.{IsLeafTable, IsShared, IsSharedRoot, IsUnused, link_at, shared_leaf_at};
ghost use Rattle.sv32_tables.specs.SharedHistory.{ClearsBlock, ClearsPlaces, HasLastEntries, Links, MakesFrame, SetsEntry, Unlinks};

use crate::leaf::Leaf;
use crate::refusal::{PageFault, PoolFull};
use crate::shared_use::SharedUse;
use crate::word::{leaf_of, leaf_word, pointer, table_of};
use crate::words::{FRAME_WORDS, get, put, wipe, zeros};
use arrayvec::ArrayVec;
use cap_format::OutOfMemory;
use guard_math::Block;
use std::alloc::Global;
use std::marker::Model;

/// How many frames a pool has, numbered from 0.
pub const FRAMES: u16 = 256;

/// A pool of 256 frames of 1,024 words, in which a root is linked to leaf tables, and
/// several roots may be linked to one. All memory is taken when it is made.
///
/// A root and a leaf table are named by their frames' numbers. A call that takes one asks that it was
/// made since the pool was, or since the last `clear_all`.
#[derive(Drop)]
pub struct SharedPool {
    words: Vec<u32>,
    uses: ArrayVec<SharedUse, 256>,
}

impl Model for SharedPool {
    ghost use Rattle.sv32_tables.specs.Shared.{IsShared, SharedValue, shared_of};

    ghost Value = { SharedValue };

    ghost view = { λ p. shared_of p.words.items p.uses.items };

    ghost invariant = { λ p. IsShared p.words.items p.uses.items };
}

impl SharedPool {
    /// A pool with no root and no leaf table.
    pub fn new(alloc: Global) -> Result<SharedPool, OutOfMemory>
        ensures { IfOk result (λ pool. IsUnused pool) }
    {
        let words = zeros(alloc, FRAMES as usize * FRAME_WORDS)?;
        Ok(SharedPool {
            words,
            uses: ArrayVec::new(),
        })
    }

    /// A word of a frame, in use or not.
    pub fn word(&self, frame: u16, index: u16) -> u32
        requires frame { frame < 256 }
        requires index { index < 1024 }
        ensures value { result ≡ word_at self.now.words frame index }
        ensures pool { IsShared self.now.words self.now.uses }
    {
        get(&self.words, frame, index)
    }

    /// How many frames are in use: one for each root and each leaf table. They are the first ones.
    pub fn used(&self) -> u32
        ensures value { result ≡ length self.now.uses }
        ensures range { result ≤ 256 }
    {
        self.uses.len() as u32
    }

    /// The entry of the page in which a user address lies, in the leaf table that is linked there, as
    /// hardware finds it in the words.
    pub fn hw_walk(&self, root: u16, va: u32) -> Result<Leaf, PageFault>
        requires { IsSharedRoot self.now root }
        ensures leaf { result_ok result ≡ shared_leaf_at self.now root (va / 4096) }
        // What the walk of Sv32 over these words makes of each access there.
        ensures sv32 { WalksTo self.now.words root (va / 4096)
            (shared_leaf_at self.now root (va / 4096)) }
    {
        let first = get(&self.words, root, region_of(va));
        let Some(table) = table_of(first) else {
            return Err(PageFault);
        };
        let second = get(&self.words, table, index_of(va));
        leaf_of(second).ok_or(PageFault)
    }

    /// The leaf table to which the region of 1,024 pages in which an address lies is linked.
    pub fn link_of(&self, root: u16, va: u32) -> Option<u16>
        requires { IsSharedRoot self.now root }
        ensures { result ≡ link_at self.now root (va / 4096 / 1024) }
    {
        table_of(get(&self.words, root, region_of(va)))
    }

    /// A new root, linked to no leaf table. It takes one frame.
    pub fn make_root(&mut self) -> Result<u16, PoolFull>
        ensures full { IsErr result ↔ (length self.old.uses ≡ 256) }
        ensures err { OnErr result (self.new ≡ self.old) }

        ensures root { IfOk result (λ root. MakesFrame self.old self.new SharedUse.Root root) }
        ensures range { IfOk result (λ root. root < 256) }
    {
        self.make(SharedUse::Root)
    }

    /// A new leaf table, with no entry. It takes one frame.
    pub fn make_leaf(&mut self) -> Result<u16, PoolFull>
        ensures full { IsErr result ↔ (length self.old.uses ≡ 256) }
        ensures err { OnErr result (self.new ≡ self.old) }

        ensures leaf { IfOk result (λ leaf. MakesFrame self.old self.new SharedUse.Leaf leaf) }
        ensures range { IfOk result (λ leaf. leaf < 256) }
    {
        self.make(SharedUse::Leaf)
    }

    /// The next frame, for this use.
    fn make(&mut self, frame_use: SharedUse) -> Result<u16, PoolFull>
        ensures full { IsErr result ↔ (length self.old.uses ≡ 256) }
        ensures err { OnErr result (self.new ≡ self.old) }

        ensures frame { IfOk result (λ frame. MakesFrame self.old self.new frame_use frame) }
        ensures range { IfOk result (λ frame. frame < 256) }
    {
        let frame = self.uses.len() as u16;
        if frame == FRAMES {
            return Err(PoolFull);
        }
        self.uses.push(frame_use);
        Ok(frame)
    }

    /// Links the region of 1,024 pages in which an address lies to a leaf table. An earlier link of the
    /// region is gone.
    pub fn link(&mut self, root: u16, va: u32, leaf: u16)
        requires root { IsSharedRoot self.old root }
        requires leaf { IsLeafTable self.old leaf }
        ensures { Links self.old self.new root (va / 4096 / 1024) leaf }
    {
        put(&mut self.words, root, region_of(va), pointer(leaf));
    }

    /// Takes out the link of the region in which an address lies, if there is one.
    pub fn unlink(&mut self, root: u16, va: u32)
        requires { IsSharedRoot self.old root }
        ensures { Unlinks self.old self.new root (va / 4096 / 1024) }
    {
        put(&mut self.words, root, region_of(va), 0);
    }

    /// The entry of a page, by its place in its region, becomes this one.
    pub fn set(&mut self, leaf: u16, va: u32, entry: Leaf)
        requires { IsLeafTable self.old leaf }
        ensures { SetsEntry self.old self.new leaf (va / 4096 % 1024) entry }
    {
        put(&mut self.words, leaf, index_of(va), leaf_word(entry));
    }

    /// Takes out the entries of a leaf table at the pages of a block, whose addresses count from the
    /// region's first one. What of the block lies past `2^22` says nothing.
    pub fn clear(&mut self, leaf: u16, block: Block)
        requires { IsLeafTable self.old leaf }
        ensures { ClearsBlock self.old self.new leaf block }
    {
        let first = block.first_page();
        self.clear_places(leaf, first, first + block.page_count());
    }

    /// Takes out the entries of a leaf table at the pages whose places in the region are from `first` up
    /// to `end`.
    pub fn clear_places(&mut self, leaf: u16, first: u32, end: u32)
        requires leaf { IsLeafTable self.old leaf }
        requires order { first ≤ end }
        ensures { ClearsPlaces self.old self.new leaf first end }
    {
        let start = leaf as usize * FRAME_WORDS;
        let from = (first as usize).min(FRAME_WORDS);
        let to = (end as usize).min(FRAME_WORDS);
        wipe(&mut self.words, start + from, start + to);
    }

    /// No root and no leaf table, as in a new pool.
    pub fn clear_all(&mut self)
        ensures { IsUnused self.new }
    {
        wipe(&mut self.words, 0, self.uses.len() * FRAME_WORDS);
        self.uses.clear();
    }
}

/// The region of 1,024 pages in which an address lies.
fn region_of(va: u32) -> u16
    ensures value { result ≡ va / 4096 / 1024 }
    ensures range { result < 1024 }
{
    (va / 4096 / 1024) as u16
}

/// The place of an address's page in its region.
fn index_of(va: u32) -> u16
    ensures value { result ≡ va / 4096 % 1024 }
    ensures range { result < 1024 }
{
    (va / 4096 % 1024) as u16
}

/// Whatever was done to a pool, `hw_walk` finds the entry last set and not cleared since, in the leaf
/// table last linked and not unlinked since, and `used` is how many frames were made since all was cleared.
pub fn last_entries_are_found()
    ensures { HasLastEntries }
{}
