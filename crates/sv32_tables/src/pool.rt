//! The pool of frames in which each root has leaf tables of its own.

ghost use Rattle.std.specs.Prelude.{◌≡◌, ◌≤◌, ◌<◌, ◌↔◌, ◌&&◌, ◌==◌, ◌/◌, ℕ, if◌then◌else◌, length, nat_le, nat_lt, slice_get, IfOk, IsErr, OnErr, OnOk};
ghost use Rattle.std.specs.Result.{result_ok};
ghost use Rattle.sv32_tables.specs.Pool.{IsEmpty, IsPlace, IsRoot, LacksFrame, leaf_at, with_region, word_at};
ghost use Rattle.sv32_tables.specs.Owned.{IsPool};
ghost use Rattle.sv32_tables.specs.Sv32.{WalksTo};
ghost use Rattle.sv32_tables.specs.History.{Clears, HasLastLeaves, Installs, MakesRoot, SameRoots};

use crate::frame_use::FrameUse;
use crate::leaf::Leaf;
use crate::refusal::{PageFault, PoolFull};
use crate::shared_pool::SharedPool;
use arrayvec::ArrayVec;
use cap_format::OutOfMemory;
use guard_math::Block;
use std::alloc::Global;
use std::marker::Model;

/// A pool of 256 frames of 1,024 words. All memory is taken when it is made.
///
/// A root is named by its frame's number. A call that takes a root asks that it was made since the
/// pool was, or since the last `clear_all`.
#[derive(Drop)]
pub struct TablePool {
    tables: SharedPool,
    /// What each frame in use is for, by its number.
    uses: ArrayVec<FrameUse, 256>,
}

impl Model for TablePool {
    ghost use Rattle.sv32_tables.specs.Pool.{PoolValue, pool_of};
    ghost use Rattle.sv32_tables.specs.Owned.{HasOwners};

    ghost Value = { PoolValue };

    ghost view = { λ p. pool_of p.tables.words p.uses.items };

    ghost invariant = { λ p. HasOwners p.tables p.uses.items };
}

impl TablePool {
    /// A pool with no root and no frame in use.
    pub fn new(alloc: Global) -> Result<TablePool, OutOfMemory>
        ensures { IfOk result (λ pool. IsEmpty pool) }
    {
        Ok(TablePool {
            tables: SharedPool::new(alloc)?,
            uses: ArrayVec::new(),
        })
    }

    /// A word of a frame, in use or not.
    pub fn word(&self, frame: u16, index: u16) -> u32
        requires frame { frame < 256 }
        requires index { index < 1024 }
        ensures value { result ≡ word_at self.now.words frame index }
        ensures pool { IsPool self.now.words self.now.uses }
    {
        self.tables.word(frame, index)
    }

    /// How many frames are in use. They are the first ones.
    pub fn used(&self) -> u16
        ensures value { result ≡ length self.now.uses }
        ensures range { result ≤ 256 }
    {
        self.uses.len() as u16
    }

    /// The leaf of the page in which a user address lies, as hardware finds it in the words.
    pub fn hw_walk(&self, root: u16, va: u32) -> Result<Leaf, PageFault>
        requires { IsRoot self.now root }
        ensures leaf { result_ok result ≡ leaf_at self.now root (va / 4096) }
        // What the walk of Sv32 over these words makes of each access there.
        ensures sv32 { WalksTo self.now.words root (va / 4096) (leaf_at self.now root (va / 4096)) }
    {
        self.tables.hw_walk(root, va)
    }

    /// A new root, with no leaf. It takes one frame.
    pub fn make_root(&mut self) -> Result<u16, PoolFull>
        ensures full { IsErr result ↔ (length self.old.uses ≡ 256) }
        ensures err { OnErr result (self.new ≡ self.old) }

        ensures root { IfOk result (λ root. MakesRoot self.old self.new root) }
    {
        let root = self.tables.make_root()?;
        self.uses.push(FrameUse::Root);
        Ok(root)
    }

    /// The leaf of a page becomes this one. It takes one frame where its region of 1,024 pages has none.
    pub fn install(&mut self, root: u16, va: u32, leaf: Leaf) -> Result<(), PoolFull>
        requires { IsRoot self.old root }
        ensures full { IsErr result ↔ LacksFrame self.old root (va / 4096 / 1024) }
        ensures err { OnErr result (self.new ≡ self.old) }

        ensures leaf { OnOk result (Installs self.old self.new root (va / 4096) leaf) }
        ensures uses { OnOk result (self.new.uses ≡ with_region self.old root (va / 4096 / 1024)) }
        ensures roots { SameRoots self.old self.new }
    {
        let table = self.table_for(root, va)?;
        self.tables.set(table, va, leaf);
        Ok(())
    }

    /// The frame of the region of an address: a new one where it has none.
    fn table_for(&mut self, root: u16, va: u32) -> Result<u16, PoolFull>
        requires { IsRoot self.old root }
        ensures full { IsErr result ↔ LacksFrame self.old root (va / 4096 / 1024) }
        ensures err { OnErr result (self.new ≡ self.old) }

        ensures leaves { OnOk result
            ((r p : ℕ) → IsPlace self.old r p → leaf_at self.new r p ≡ leaf_at self.old r p) }
        ensures uses { OnOk result (self.new.uses ≡ with_region self.old root (va / 4096 / 1024)) }
        ensures roots { SameRoots self.old self.new }
        ensures table { IfOk result
            (λ table. slice_get self.new.uses table ≡ Some (FrameUse.Region root (va / 4096 / 1024))) }
    {
        if let Some(table) = self.tables.link_of(root, va) {
            return Ok(table);
        }
        let table = self.tables.make_leaf()?;
        self.tables.link(root, va, table);
        let region = (va / 4096 / 1024) as u16;
        self.uses.push(FrameUse::Region { root, region });
        Ok(table)
    }

    /// Takes out the leaves of a root whose pages lie in the block, and gives no frame back. It looks
    /// at one word for each region of the block, and goes through the words of those that have a frame.
    pub fn clear(&mut self, root: u16, block: Block)
        requires { IsRoot self.old root }
        ensures leaves { Clears self.old self.new root block }
        ensures uses { self.new.uses ≡ self.old.uses }
        ensures roots { SameRoots self.old self.new }
    {
        let first = block.first_page();
        let end = first + block.page_count();
        'regions: for region in first / 1024..(end + 1023) / 1024 {
            self.clear_region(root, region as u16, first, end);
        }
    }

    /// Takes out the leaves of one region whose pages are from `first` up to `end`.
    fn clear_region(&mut self, root: u16, region: u16, first: u32, end: u32)
        requires made { IsRoot self.old root }
        requires inside { region < 1024 }
        requires order { first ≤ end }
        ensures leaves { (r page : ℕ) → IsPlace self.old r page → leaf_at self.new r page
            ≡ (if (r == root) && ((page / 1024 == region) && (nat_le first page && nat_lt page end)) then None else leaf_at self.old r page) }
        ensures uses { self.new.uses ≡ self.old.uses }
    {
        let start = u32::from(region) * 1024;
        let Some(table) = self.tables.link_of(root, start * 4096) else {
            return;
        };
        let from = first.saturating_sub(start);
        self.tables
            .clear_places(table, from, end.saturating_sub(start));
    }

    /// No root and no frame in use, as in a new pool.
    pub fn clear_all(&mut self)
        ensures { IsEmpty self.new }
    {
        self.tables.clear_all();
        self.uses.clear();
    }
}

/// Whatever was done to a pool, `hw_walk` finds the leaf last installed at a page and not cleared since.
pub fn last_leaves_are_found()
    ensures { HasLastLeaves }
{}
