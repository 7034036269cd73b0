//! Translating: by what is kept, or by a walk that is kept then.

ghost use Rattle.std.specs.Prelude.{◌≡◌, ◌≢◌, ◌≤◌, ◌<◌, ◌+◌, ◌/◌, ◌%◌, ℕ, true, false, length, is_some, IfOk, IfErr, IfSome, IsNone, Some, Ok};
ghost use Rattle.object_store.specs.Store.{size_of};
ghost use Rattle.object_store.specs.Meaning.{map_of, meaning};
ghost use Rattle.sv32_tables.specs.declared.leaf.Leaf.{Leaf as AnyLeaf};
ghost use Rattle.walk_meaning.specs.Walk.{access, is_data};
ghost use Rattle.walk_engine.specs.Answer.{HandlerLives, hit_meaning, hit_of};
ghost use Rattle.map_cache.specs.Cache.{tlb_at};
ghost use Rattle.map_cache.specs.Effects.{allows};
ghost use Rattle.shared_leaves.specs.Kept.{cost_of, is_spared, kept_after, tlb_after};
ghost use Rattle.shared_leaves.specs.Cache.{kept_of, leaf_for};
ghost use Rattle.shared_leaves.specs.Coherent.{IsCoherent};
ghost use Rattle.shared_leaves.specs.Effects.{AnswersHeld, ChangesHart, IsHeld, IsKept, value_of};

use crate::leaves::LeafTables;
use cap_format::{Cap, CapKind};
use map_cache::{allows, reached_leaf};
use object_store::Objects;
use producers::{join_law, region_law, walk};
use std::sync::ledger::Ledger;
use steps::Steps;
use sv32_tables::Leaf;
use walk_engine::{Hit, Trail};
use walk_meaning::{Kind, WalkFault, kind_law, page_law, place_law, reads_law};

impl LeafTables {
    /// Translates a data access. The trail is where a walk writes its reads.
    pub fn translate<L: Ledger>(
        &mut self,
        objects: &Objects,
        hart: u8,
        space: Cap,
        address: u32,
        kind: Kind,
        trail: &mut Trail,
        fetches: &mut Steps<L>,
    ) -> Result<Hit, WalkFault>
        requires kept { IsKept self.old }
        requires data { is_data kind ≡ true }
        requires hart { hart < length self.old.tlbs.items }
        requires coherent { IsCoherent (value_of self.old) (map_of objects.now.items) }
        ensures answer { let o = map_of objects.now.items in
            let c = meaning objects.now.items space in
            hit_meaning result ≡ hit_of (access o c address kind) }
        ensures page { IfOk result (λ hit. hit.page < size_of objects.now.items CapKind.Page) }
        ensures offset { IfOk result (λ hit. hit.offset ≡ address % 4096) }
        ensures handler { IfErr result (λ fault. HandlerLives objects.now.items fault.handler) }

        ensures kept { IsKept self.new }
        ensures coherent { IsCoherent (value_of self.new) (map_of objects.now.items) }
        ensures harts { length self.new.tlbs.items ≡ length self.old.tlbs.items }
        ensures held { IfOk result
            (λ hit. AnswersHeld (value_of self.new) hart space (address / 4096) hit.page) }

        ensures counted { let o = map_of objects.now.items in
            let c = meaning objects.now.items space in
            fetches.new ≡ fetches.old + cost_of (kept_of (value_of self.old)) o c address kind }
        ensures bound { fetches.new ≤ fetches.old + 32 }
        ensures after { let o = map_of objects.now.items in
            let c = meaning objects.now.items space in
            kept_of (value_of self.new)
            ≡ kept_after (kept_of (value_of self.old)) o c address kind }
        ensures others { let o = map_of objects.now.items in
            let c = meaning objects.now.items space in
            let k = kept_of (value_of self.old) in
            (other : ℕ) → other ≢ hart → tlb_at self.new.tlbs.items other
            ≡ tlb_after k o c address kind (tlb_at self.old.tlbs.items other) }
    {
        if let Some(hit) = self.find_kept(objects, hart, space, address, kind) {
            return Ok(hit);
        }
        self.walk_anew(objects, hart, space, address, kind, trail, fetches)
    }

    /// The answer of `translate` where a page is kept that allows the access: no slot is fetched then. The hart holds the
    /// page afterwards, and nothing else changes.
    #[inline(always)]
    pub fn find_kept(
        &mut self,
        objects: &Objects,
        hart: u8,
        space: Cap,
        address: u32,
        kind: Kind,
    ) -> Option<Hit>
        requires kept { IsKept self.old }
        requires data { is_data kind ≡ true }
        requires hart { hart < length self.old.tlbs.items }
        requires coherent { IsCoherent (value_of self.old) (map_of objects.now.items) }
        ensures exactly { let o = map_of objects.now.items in
            let c = meaning objects.now.items space in
            is_some result ≡ is_spared (kept_of (value_of self.old)) o c address kind }
        ensures none { IsNone result → (leaf : AnyLeaf)
            → leaf_for (value_of self.old) space (address / 4096) ≡ Some leaf
            → allows leaf kind ≡ false }
        ensures answer { let o = map_of objects.now.items in
            let c = meaning objects.now.items space in
            IfSome result (λ hit. Ok hit ≡ hit_of (access o c address kind)) }
        ensures page { IfSome result (λ hit. hit.page < size_of objects.now.items CapKind.Page) }
        ensures offset { IfSome result (λ hit. hit.offset ≡ address % 4096) }

        ensures kept { IsKept self.new }
        ensures coherent { IsCoherent (value_of self.new) (map_of objects.now.items) }
        ensures changes { ChangesHart (value_of self.old) (value_of self.new) hart }
        ensures same { kept_of (value_of self.new) ≡ kept_of (value_of self.old) }
        ensures held { IfSome result
            (λ hit. AnswersHeld (value_of self.new) hart space (address / 4096) hit.page) }

        ensures free { let o = map_of objects.now.items in
            let c = meaning objects.now.items space in
            IfSome result (λ hit. cost_of (kept_of (value_of self.old)) o c address kind ≡ 0) }
        ensures after { let o = map_of objects.now.items in
            let c = meaning objects.now.items space in
            IfSome result (λ hit. kept_of (value_of self.new)
            ≡ kept_after (kept_of (value_of self.old)) o c address kind) }
        ensures others { let o = map_of objects.now.items in
            let c = meaning objects.now.items space in
            let k = kept_of (value_of self.old) in
            IfSome result (λ hit. (other : ℕ) → other ≢ hart → tlb_at self.new.tlbs.items other
            ≡ tlb_after k o c address kind (tlb_at self.old.tlbs.items other)) }
    {
        objects.in_ranges();
        let _range = space.kind();
        kind_law();
        page_law();
        place_law();
        region_law();
        let Some(leaf) = self.find_allowed(hart, space, address, kind) else {
            return None;
        };
        Some(Hit {
            page: leaf.page,
            offset: (address % 4096) as u16,
        })
    }

    /// Translates by a walk, whose end is kept.
    fn walk_anew<L: Ledger>(
        &mut self,
        objects: &Objects,
        hart: u8,
        space: Cap,
        address: u32,
        kind: Kind,
        trail: &mut Trail,
        fetches: &mut Steps<L>,
    ) -> Result<Hit, WalkFault>
        requires kept { IsKept self.old }
        requires data { is_data kind ≡ true }
        requires hart { hart < length self.old.tlbs.items }
        requires coherent { IsCoherent (value_of self.old) (map_of objects.now.items) }
        requires none { (leaf : AnyLeaf)
            → leaf_for (value_of self.old) space (address / 4096) ≡ Some leaf
            → allows leaf kind ≡ false }
        ensures answer { let o = map_of objects.now.items in
            let c = meaning objects.now.items space in
            hit_meaning result ≡ hit_of (access o c address kind) }
        ensures page { IfOk result (λ hit. hit.page < size_of objects.now.items CapKind.Page) }
        ensures offset { IfOk result (λ hit. hit.offset ≡ address % 4096) }
        ensures handler { IfErr result (λ fault. HandlerLives objects.now.items fault.handler) }

        ensures kept { IsKept self.new }
        ensures coherent { IsCoherent (value_of self.new) (map_of objects.now.items) }
        ensures harts { length self.new.tlbs.items ≡ length self.old.tlbs.items }
        ensures held { IfOk result
            (λ hit. AnswersHeld (value_of self.new) hart space (address / 4096) hit.page) }

        ensures counted { let o = map_of objects.now.items in
            let c = meaning objects.now.items space in
            fetches.new ≡ fetches.old + cost_of (kept_of (value_of self.old)) o c address kind }
        ensures bound { fetches.new ≤ fetches.old + 32 }
        ensures after { let o = map_of objects.now.items in
            let c = meaning objects.now.items space in
            kept_of (value_of self.new)
            ≡ kept_after (kept_of (value_of self.old)) o c address kind }
        ensures others { let o = map_of objects.now.items in
            let c = meaning objects.now.items space in
            let k = kept_of (value_of self.old) in
            (other : ℕ) → other ≢ hart → tlb_at self.new.tlbs.items other
            ≡ tlb_after k o c address kind (tlb_at self.old.tlbs.items other) }
    {
        objects.in_ranges();
        let _range = space.kind();
        kind_law();
        page_law();
        place_law();
        reads_law();
        join_law();
        region_law();
        let walked = walk(objects, space, address, kind, trail, fetches)?;
        let leaf = reached_leaf(walked.place);
        self.remember_walk(
            hart,
            space,
            address,
            leaf,
            walked.produced,
            trail.as_slice(),
        );
        Ok(Hit {
            page: walked.place.number,
            offset: walked.place.offset,
        })
    }

    /// The leaf of the page of an address, where it allows the access. The hart holds it then.
    #[inline(always)]
    fn find_allowed(&mut self, hart: u8, space: Cap, va: u32, kind: Kind) -> Option<Leaf>
        requires kept { IsKept self.old }
        requires hart { hart < length self.old.tlbs.items }
        ensures leaf { IfSome result
            (λ leaf. leaf_for (value_of self.old) space (va / 4096) ≡ Some leaf) }
        ensures allowed { IfSome result (λ leaf. allows leaf kind ≡ true) }
        ensures held { IfSome result
            (λ leaf. IsHeld (value_of self.new) hart space (va / 4096) leaf) }
        ensures none { IsNone result → (leaf : AnyLeaf)
            → leaf_for (value_of self.old) space (va / 4096) ≡ Some leaf
            → allows leaf kind ≡ false }

        ensures kept { IsKept self.new }
        ensures changes { ChangesHart (value_of self.old) (value_of self.new) hart }
    {
        let leaf = self.find(hart, space, va)?;
        if !allows(leaf, kind) {
            return None;
        }
        Some(leaf)
    }
}
