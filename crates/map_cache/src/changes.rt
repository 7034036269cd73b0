//! What a changed item takes out.

ghost use Rattle.std.specs.Prelude.{◌≡◌, ◌<◌, ℕ, length, true, false};
ghost use Rattle.guard_math.specs.Block.{BlockValue};
ghost use Rattle.object_store.specs.Store.{Items};
ghost use Rattle.object_store.specs.Differ.{DifferIn};
ghost use Rattle.depend_table.specs.Depend.{depend, has};
ghost use Rattle.map_cache.specs.Kept.{kept_without, tlb_without};
ghost use Rattle.map_cache.specs.Cache.{kept_of, tlb_at};
ghost use Rattle.map_cache.specs.Coherent.{IsCoherent};
ghost use Rattle.map_cache.specs.Effects.{Forgets, IsKept, value_of};

use crate::mappings::Mappings;
use crate::tlbs::drop_block;
use cap_format::Item;
use tlb_model::drop_law;
use walk_meaning::space_frame_law;

impl Mappings {
    /// Takes out the pages whose walks read an item, and what was noted of it.
    pub fn forget_item(&mut self, item: Item)
        requires { IsKept self.old }
        ensures kept { IsKept self.new }
        ensures without { kept_of (value_of self.new)
            ≡ kept_without (kept_of (value_of self.old)) item }
        ensures coherent { (o p : Items) → DifferIn item o p
            → IsCoherent (value_of self.old) o → IsCoherent (value_of self.new) p }
        ensures purged { (k : ℕ) → tlb_at self.new.tlbs.items k
            ≡ tlb_without (kept_of (value_of self.old)) item (tlb_at self.old.tlbs.items k) }
        ensures harts { length self.new.tlbs.items ≡ length self.old.tlbs.items }
    {
        space_frame_law();
        'records: while self.clear_one(item) {}
    }

    /// Takes out a record of an item and the pages of its block. False where the item has none.
    fn clear_one(&mut self, item: Item) -> bool
        requires { IsKept self.old }
        ensures kept { IsKept self.new }
        ensures forgets { Forgets (value_of self.old) (value_of self.new) item }
        ensures none { result ≡ false → (root : ℕ) (block : BlockValue)
            → has self.new.records (depend item root block) ≡ false }
        ensures shorter { result ≡ true → length self.new.records < length self.old.records }
    {
        drop_law();
        let Some(taken) = self.records.take_one(item) else {
            return false;
        };
        let root = taken.0;
        let block = taken.1;
        self.tables.clear(root, block);
        drop_block(&mut self.tlbs, root, block);
        true
    }
}
