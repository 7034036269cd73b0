//! Shared leaf tables as a translator.

ghost use Rattle.std.specs.Prelude.{◌≡◌, ◌≢◌, ◌≤◌, ◌<◌, ◌+◌, ◌/◌, ◌%◌, ◌^◌, ℕ, true, length, is_some, IfOk, IfErr, IfSome, Some, Ok};
ghost use Rattle.object_store.specs.Store.{Items, size_of};
ghost use Rattle.object_store.specs.Meaning.{map_of, meaning};
ghost use Rattle.object_store.specs.Differ.{DifferIn};
ghost use Rattle.object_store.specs.Ranges.{IsRanged};
ghost use Rattle.sv32_tables.specs.declared.leaf.Leaf.{Leaf};
ghost use Rattle.sv32_tables.specs.Shared.{IsSharedRoot};
ghost use Rattle.tlb_model.specs.Tlb.{look};
ghost use Rattle.walk_meaning.specs.Walk.{access, is_data};
ghost use Rattle.walk_engine.specs.Answer.{HandlerLives, hit_meaning, hit_of};
ghost use Rattle.map_cache.specs.Cache.{tlb_at};
ghost use Rattle.shared_leaves.specs.Key.{has_key, root_key};
ghost use Rattle.shared_leaves.specs.Kept.{cost_of, is_held, is_spared, kept_after, kept_without, nothing, tlb_after, tlb_without};
ghost use Rattle.shared_leaves.specs.Cache.{IsBacked, kept_of, leaf_in, root_at};
ghost use Rattle.shared_leaves.specs.Coherent.{IsCoherent, IsFreshLeaf};
ghost use Rattle.shared_leaves.specs.Effects.{AnswersHeld, IsBlank, value_of};

use crate::key::Key;
use crate::leaves::{LeafTables, frame_of};
use cap_format::{Cap, CapKind, Item, OutOfMemory};
use object_store::Objects;
use producers::region_law;
use std::alloc::Global;
use std::marker::Model;
use std::sync::ledger::Ledger;
use steps::Steps;
use sv32_tables::SharedPool;
use tlb_model::Tlb;
use walk_engine::{Hit, Trail, Translator};
use walk_meaning::{Kind, WalkFault};

/// Keeps where walks ended, with one leaf table for all spaces whose walks join at one GPT in one
/// way, and which items were read behind each table and each link. A change of an item takes out
/// exactly the pages and the links whose walks read it.
///
/// A space is a capability with its count. A frame of the tables is taken for each space and for
/// each leaf table, a record for each item and block that was read behind one. Where either is
/// wanting everything is forgotten.
#[derive(Drop)]
pub struct SharedLeaves {
    leaves: LeafTables,
    /// Where a walk writes its reads.
    trail: Trail,
}

impl Model for SharedLeaves {
    ghost use Rattle.shared_leaves.specs.Cache.{SharedCache};
    ghost use Rattle.shared_leaves.specs.Effects.{IsKept, value_of};

    ghost Value = { SharedCache };

    ghost view = { λ c. value_of c.leaves };

    ghost invariant = { λ c. IsKept c.leaves };
}

impl SharedLeaves {
    /// One that keeps nothing, for 1 to 8 harts. No other call takes memory.
    pub fn new(alloc: Global, harts: u8) -> Result<SharedLeaves, OutOfMemory>
        requires some { 1 ≤ harts }
        requires most { harts ≤ 8 }
        ensures blank { IfOk result (λ cache. IsBlank cache) }
        ensures nothing { IfOk result (λ cache. kept_of cache ≡ nothing) }
        ensures harts { IfOk result (λ cache. length cache.tlbs ≡ harts) }
    {
        Ok(SharedLeaves {
            leaves: LeafTables::new(alloc, harts)?,
            trail: Trail::new(),
        })
    }

    /// The frames in use: one for each space and one for each leaf table that is kept.
    pub fn frames(&self) -> u32
        ensures keys { result ≡ length (kept_of self.now).keys }
        ensures used { result ≡ length self.now.tables.uses }
        ensures most { result ≤ 256 }
    {
        self.leaves.tables.used()
    }

    /// The tables.
    pub fn pool(&self) -> &SharedPool
        ensures { result.now ≡ self.now.tables }
    {
        &self.leaves.tables
    }

    /// The root that is kept for a space, a capability with its count: for exactly the spaces among
    /// the keys. Under it the tables have a leaf exactly where the page's region is linked to a key
    /// that holds the page.
    pub fn root_of(&self, space: Cap) -> Option<u16>
        ensures root { result ≡ root_at self.now.keys space }
        ensures kept { is_some result ≡ has_key (kept_of self.now).keys (root_key space) }
        ensures made { IfSome result (λ root. IsSharedRoot self.now.tables root) }
        ensures held { (page : ℕ) → page < 2 ^ 20 → is_held (kept_of self.now) space page
            ≡ is_some (leaf_in self.now.tables page result) }
        // Where the cache agrees with a map of objects, each leaf there is fresh.
        ensures fresh { (o : Items) → IsRanged o → IsCoherent self.now o
            → (page : ℕ) (leaf : Leaf) → page < 2 ^ 20
            → leaf_in self.now.tables page result ≡ Some leaf → IsFreshLeaf o space page leaf }
    {
        let _range = space.kind();
        region_law();
        frame_of(&self.leaves.keys, &Key::root(space))
    }

    /// The cache of a hart. What it holds stands in the tables too.
    pub fn tlb(&self, hart: u8) -> &Tlb
        requires { hart < length self.now.tlbs }
        ensures entries { result.now ≡ tlb_at self.now.tlbs hart }
        ensures backed { (root page : ℕ) (leaf : Leaf)
            → look result.now root page ≡ Some leaf → IsBacked self.now.tables root page leaf }
    {
        &self.leaves.tlbs[hart as usize]
    }
}

impl Translator for SharedLeaves {
    ghost use Rattle.tlb_model.specs.declared.entry.Entry.{Entry};
    ghost use Rattle.std.specs.Prelude.{List};
    ghost use Rattle.map_cache.specs.Cache.{tlb_at};
    ghost use Rattle.shared_leaves.specs.Kept.{SharedKept, cost_of, drops_harts, is_spared, kept_after, kept_without, tlb_after, tlb_without};
    ghost use Rattle.shared_leaves.specs.Cache.{kept_of};
    ghost use Rattle.shared_leaves.specs.Coherent.{IsCoherent};
    ghost use Rattle.shared_leaves.specs.Effects.{IsBlank};
    ghost use Rattle.std.proofs.Common.{ap, subst, sym, ◌∙◌};
    ghost use Rattle.std.proofs.lemmas.Option.{none-some};
    ghost use Rattle.std.specs.List.{list_any};
    ghost use Rattle.std.specs.FinSet.{items};
    ghost use Rattle.depend_table.specs.Depend.{same_item};
    ghost use Rattle.map_cache.specs.Kept.{HoldsLess};
    ghost use Rattle.map_cache.specs.Less.{less-emptied};
    ghost use Rattle.std.specs.Prelude.{slice_get};
    ghost use Rattle.object_store.specs.Store.{Items};
    ghost use Rattle.sv32_tables.specs.declared.shared_use.SharedUse.TheVariants.{Leaf as Table, Root};

    ghost harts = { λ c. length c.tlbs };

    ghost coherent = { λ c o. IsCoherent c o };

    ghost fresh = { λ c. IsBlank c };

    ghost Kept = { SharedKept };

    ghost kept = { λ c. kept_of c };

    ghost cost = { λ k o c a kind. cost_of k o c a kind };

    ghost after = { λ k o c a kind. kept_after k o c a kind };

    ghost finds = { λ k o c a kind. is_spared k o c a kind };

    ghost without = { λ k item. kept_without k item };

    ghost Cache = { List Entry };

    ghost cache = { λ c hart. tlb_at c.tlbs hart };

    ghost spared = { λ k o c a kind entries. tlb_after k o c a kind entries };

    ghost purged = { λ k item entries. tlb_without k item entries };

    ghost less = { λ a b. HoldsLess a b };

    fn translate<L: Ledger>(
        &mut self,
        objects: &Objects,
        hart: u8,
        space: Cap,
        address: u32,
        kind: Kind,
        fetches: &mut Steps<L>,
    ) -> Result<Hit, WalkFault>
        requires data { is_data kind ≡ true }
        requires hart { hart < length self.old.tlbs }
        requires coherent { IsCoherent self.old (map_of objects.now.items) }
        ensures answer { let o = map_of objects.now.items in
            let c = meaning objects.now.items space in
            hit_meaning result ≡ hit_of (access o c address kind) }
        ensures page { IfOk result (λ hit. hit.page < size_of objects.now.items CapKind.Page) }
        ensures offset { IfOk result (λ hit. hit.offset ≡ address % 4096) }
        ensures handler { IfErr result (λ fault. HandlerLives objects.now.items fault.handler) }

        ensures coherent { IsCoherent self.new (map_of objects.now.items) }
        ensures harts { length self.new.tlbs ≡ length self.old.tlbs }

        // Where it reaches, the hart holds the leaf that the tables have.
        ensures held { IfOk result
            (λ hit. AnswersHeld self.new hart space (address / 4096) hit.page) }

        ensures counted { let o = map_of objects.now.items in
            let c = meaning objects.now.items space in
            fetches.new ≡ fetches.old + cost_of (kept_of self.old) o c address kind }
        ensures bound { fetches.new ≤ fetches.old + 32 }
        ensures after { let o = map_of objects.now.items in
            let c = meaning objects.now.items space in
            kept_of self.new ≡ kept_after (kept_of self.old) o c address kind }
        ensures others { let o = map_of objects.now.items in
            let c = meaning objects.now.items space in
            (k : ℕ) → k ≢ hart → tlb_at self.new.tlbs k
            ≡ tlb_after (kept_of self.old) o c address kind (tlb_at self.old.tlbs k) }
    {
        self.leaves.translate(
            objects,
            hart,
            space,
            address,
            kind,
            &mut self.trail,
            fetches,
        )
    }

    #[inline(always)]
    fn find_kept(
        &mut self,
        objects: &Objects,
        hart: u8,
        space: Cap,
        address: u32,
        kind: Kind,
    ) -> Option<Hit>
        requires data { is_data kind ≡ true }
        requires hart { hart < length self.old.tlbs }
        requires coherent { IsCoherent self.old (map_of objects.now.items) }
        ensures exactly { let o = map_of objects.now.items in
            let c = meaning objects.now.items space in
            is_some result ≡ is_spared (kept_of self.old) o c address kind }
        ensures answer { let o = map_of objects.now.items in
            let c = meaning objects.now.items space in
            IfSome result (λ hit. Ok hit ≡ hit_of (access o c address kind)) }
        ensures page { IfSome result (λ hit. hit.page < size_of objects.now.items CapKind.Page) }
        ensures offset { IfSome result (λ hit. hit.offset ≡ address % 4096) }

        ensures coherent { IsCoherent self.new (map_of objects.now.items) }
        ensures harts { length self.new.tlbs ≡ length self.old.tlbs }
        ensures kept { kept_of self.new ≡ kept_of self.old }
        ensures caches { (k : ℕ) → k ≢ hart → tlb_at self.new.tlbs k ≡ tlb_at self.old.tlbs k }

        // Where it finds a page, the hart holds the leaf that the tables have.
        ensures held { IfSome result
            (λ hit. AnswersHeld self.new hart space (address / 4096) hit.page) }

        ensures free { let o = map_of objects.now.items in
            let c = meaning objects.now.items space in
            IfSome result (λ hit. cost_of (kept_of self.old) o c address kind ≡ 0) }
        ensures after { let o = map_of objects.now.items in
            let c = meaning objects.now.items space in
            IfSome result (λ hit. kept_of self.new ≡ kept_after (kept_of self.old) o c address kind) }
        ensures others { let o = map_of objects.now.items in
            let c = meaning objects.now.items space in
            IfSome result (λ hit. (k : ℕ) → k ≢ hart → tlb_at self.new.tlbs k
            ≡ tlb_after (kept_of self.old) o c address kind (tlb_at self.old.tlbs k)) }
    {
        self.leaves.find_kept(objects, hart, space, address, kind)
    }

    fn invalidate(&mut self, item: Item)
        ensures coherent { (o p : Items)
            → DifferIn item o p → IsCoherent self.old o → IsCoherent self.new p }
        ensures harts { length self.new.tlbs ≡ length self.old.tlbs }
        ensures without { kept_of self.new ≡ kept_without (kept_of self.old) item }
        ensures purged { (k : ℕ) → tlb_at self.new.tlbs k
            ≡ tlb_without (kept_of self.old) item (tlb_at self.old.tlbs k) }
    {
        self.leaves.forget_item(item);
    }

    ghost carries = { λ c o p none coherent. subst (λ (q : Items). IsCoherent c q) none coherent };

    // Where no frame is in use there is no link and no entry.
    ghost starts = { λ c o fresh. record {
      entries = λ frame place entry made low at.
          absurd (none-some Table (sym (ap (λ us. slice_get us frame) fresh.tables) ∙ made));
      links = λ root region frame made low at.
          absurd (none-some Root (sym (ap (λ us. slice_get us root) fresh.tables) ∙ made));
    } };

    ghost less_same = { λ a root page leaf found. found };

    ghost less_then = { λ a b c first second root page leaf found. second root page leaf (first root page leaf found) };

    ghost spared_less = { λ k o c a kind entries. less-emptied (drops_harts k o c a kind) entries };

    ghost purged_less = { λ k item entries. less-emptied (list_any (λ n. same_item n.item item) (items k.notes)) entries };
}
