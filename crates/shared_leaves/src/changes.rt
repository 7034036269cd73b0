//! What a changed item takes out.

ghost use Rattle.std.specs.Prelude.{◌≡◌, ◌<◌, ◌&&◌, ◌*◌, ◌==◌, ℕ, length, not, true, false, if◌then◌else◌, None};
ghost use Rattle.guard_math.specs.Block.{BlockValue, holds};
ghost use Rattle.object_store.specs.Store.{Items};
ghost use Rattle.object_store.specs.Differ.{DifferIn};
ghost use Rattle.sv32_tables.specs.Shared.{IsSharedRoot, link_at};
ghost use Rattle.sv32_tables.specs.SharedHistory.{SameEntries};
ghost use Rattle.depend_table.specs.Depend.{depend, has};
ghost use Rattle.map_cache.specs.Cache.{tlb_at};
ghost use Rattle.shared_leaves.specs.Key.{is_leaf};
ghost use Rattle.shared_leaves.specs.Kept.{kept_without, tlb_without};
ghost use Rattle.shared_leaves.specs.Cache.{key_at, kept_of};
ghost use Rattle.shared_leaves.specs.Coherent.{IsCoherent};
ghost use Rattle.shared_leaves.specs.Effects.{Forgets, IsKept, value_of};

use crate::key::Table;
use crate::leaves::LeafTables;
use cap_format::Item;
use guard_math::Block;
use map_cache::drop_all;
use sv32_tables::SharedPool;

impl LeafTables {
    /// Takes out the pages and the links whose walks read an item, and what was noted of it.
    pub fn forget_item(&mut self, item: Item)
        requires { IsKept self.old }
        ensures kept { IsKept self.new }
        ensures without { kept_of (value_of self.new)
            ≡ kept_without (kept_of (value_of self.old)) item }
        ensures coherent { (o p : Items) → DifferIn item o p
            → IsCoherent (value_of self.old) o → IsCoherent (value_of self.new) p }
        ensures purged { (k : ℕ) → tlb_at self.new.tlbs.items k
            ≡ tlb_without (kept_of (value_of self.old)) item (tlb_at self.old.tlbs.items k) }
        ensures harts { length self.new.tlbs.items ≡ length self.old.tlbs.items }
    {
        'records: while self.clear_one(item) {}
    }

    /// Takes out a record of an item, with the entries or the links of its block; no hart holds anything
    /// then. False where the item has none.
    fn clear_one(&mut self, item: Item) -> bool
        requires { IsKept self.old }
        ensures kept { IsKept self.new }
        ensures forgets { Forgets (value_of self.old) (value_of self.new) item }
        ensures none { result ≡ false → (root : ℕ) (block : BlockValue)
            → has self.new.records (depend item root block) ≡ false }
        ensures shorter { result ≡ true → length self.new.records < length self.old.records }
    {
        let Some(taken) = self.records.take_one(item) else {
            return false;
        };
        let frame = taken.0;
        let block = taken.1;
        drop_all(&mut self.tlbs);
        if self.is_root(frame) {
            unlink_block(&mut self.tables, frame, block);
            return true;
        }
        self.tables.clear(frame, block);
        self.records.drop_within(frame, block);
        true
    }
}

impl LeafTables {
    /// Whether a frame is a root.
    fn is_root(&self, frame: u16) -> bool
        requires { frame < length self.now.keys.items }
        ensures { result ≡ not (is_leaf (key_at self.now.keys.items frame)) }
    {
        matches!(self.keys[frame as usize].table, Table::Root)
    }
}

/// Takes out the links of a root whose regions lie in a block of a region or more.
fn unlink_block(tables: &mut SharedPool, root: u16, block: Block)
    requires { IsSharedRoot tables.old root }
    ensures links { (r i : ℕ) → IsSharedRoot tables.old r → i < 1024 → link_at tables.new r i
        ≡ (if (r == root) && holds block (i * 1024) then None else link_at tables.old r i) }
    ensures entries { SameEntries tables.old tables.new }
    ensures uses { tables.new.uses ≡ tables.old.uses }
{
    'regions: for region in 0..1024 {
        if block.holds(region * 1024) {
            tables.unlink(root, region * 4_194_304);
        }
    }
}
