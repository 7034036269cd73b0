//! The mapping cache as a translator.

ghost use Rattle.std.specs.Prelude.{◌≡◌, ◌≢◌, ◌≤◌, ◌<◌, ◌+◌, ◌/◌, ◌%◌, ◌^◌, [], ◌∷◌, ℕ, true, length, slice_get, is_some, IfOk, IfErr, IfSome, IsNone, Some, Ok};
ghost use Rattle.object_store.specs.Store.{Items, size_of};
ghost use Rattle.object_store.specs.Meaning.{map_of, meaning};
ghost use Rattle.object_store.specs.Differ.{DifferIn};
ghost use Rattle.sv32_tables.specs.declared.leaf.Leaf.{Leaf};
ghost use Rattle.sv32_tables.specs.Pool.{IsRoot};
ghost use Rattle.tlb_model.specs.Tlb.{look};
ghost use Rattle.walk_meaning.specs.Walk.{access, is_data};
ghost use Rattle.walk_engine.specs.Answer.{HandlerLives, hit_meaning, hit_of};
ghost use Rattle.map_cache.specs.Kept.{cost_of, is_spared, kept_after, kept_without, nothing, tlb_after, tlb_without};
ghost use Rattle.map_cache.specs.Cache.{IsBacked, kept_of, root_at, tlb_at};
ghost use Rattle.map_cache.specs.Coherent.{IsCoherent};
ghost use Rattle.map_cache.specs.Effects.{AnswersHeld, IsBlank, value_of};
ghost use Rattle.map_cache.specs.Held.{AreRight, held_entries};
ghost use Rattle.map_cache.specs.Mappings.{AreMappings, mappings_left, mappings_of};

use crate::mapping::{Mapping, MappingPlace};
use crate::mappings::{Mappings, root_of};
use cap_format::{Cap, CapKind, Item, OutOfMemory};
use object_store::Objects;
use std::alloc::Global;
use std::marker::Model;
use std::sync::ledger::Ledger;
use steps::Steps;
use sv32_tables::TablePool;
use tlb_model::Tlb;
use walk_engine::{Hit, Trail, Translator};
use walk_meaning::{Kind, WalkFault};

/// Keeps where walks ended, and which items each of them read. A change of an item takes out exactly
/// the pages whose walks read it.
///
/// A space is a capability with its count. A frame of the tables is taken for each space and for each
/// region of 1,024 pages of a space, a record for each item and block that a walk from a space read.
/// Where either is wanting everything is forgotten.
#[derive(Drop)]
pub struct MapCache {
    mappings: Mappings,
    /// Where a walk writes its reads.
    trail: Trail,
}

impl Model for MapCache {
    ghost use Rattle.map_cache.specs.Cache.{CacheValue};
    ghost use Rattle.map_cache.specs.Effects.{IsKept, value_of};

    ghost Value = { CacheValue };

    ghost view = { λ c. value_of c.mappings };

    ghost invariant = { λ c. IsKept c.mappings };
}

impl MapCache {
    /// One that keeps nothing, for 1 to 8 harts. No other call takes memory.
    pub fn new(alloc: Global, harts: u8) -> Result<MapCache, OutOfMemory>
        requires some { 1 ≤ harts }
        requires most { harts ≤ 8 }
        ensures blank { IfOk result (λ cache. IsBlank cache) }
        ensures nothing { IfOk result (λ cache. kept_of cache ≡ nothing) }
        ensures harts { IfOk result (λ cache. length cache.tlbs ≡ harts) }
    {
        Ok(MapCache {
            mappings: Mappings::new(alloc, harts)?,
            trail: Trail::new(),
        })
    }

    /// The tables.
    pub fn pool(&self) -> &TablePool
        ensures { result.now ≡ self.now.tables }
    {
        &self.mappings.tables
    }

    /// The root that is kept for a space, a capability with its count.
    pub fn root_of(&self, space: Cap) -> Option<u16>
        ensures root { result ≡ root_at self.now.keys space }
        ensures made { IfSome result (λ root. IsRoot self.now.tables root) }
    {
        root_of(&self.mappings.keys, space)
    }

    /// The cache of a hart. What it holds stands in the tables too.
    pub fn tlb(&self, hart: u8) -> &Tlb
        requires { hart < length self.now.tlbs }
        ensures entries { result.now ≡ tlb_at self.now.tlbs hart }
        ensures backed { (root page : ℕ) (leaf : Leaf)
            → look result.now root page ≡ Some leaf → IsBacked self.now.tables root page leaf }
    {
        &self.mappings.tlbs[hart as usize]
    }

    /// The n-th entry of the tables, None exactly past the last. To list them all, go on from place to
    /// place by `mapping_at`: that reads the words that are there once.
    pub fn mapping(&self, n: u32) -> Option<Mapping>
        ensures entry { result ≡ slice_get (mappings_of self.now) n }
        ensures listed { AreMappings self.now (mappings_of self.now) }
    {
        self.listed();
        let mut place = MappingPlace::start();
        'entries: for index in 0..n {
            let next = self.mapping_at(place)?;
            place = next.1;
        }
        let next = self.mapping_at(place)?;
        Some(next.0)
    }

    /// The entries are the leaves of spaces, each once, and those of a space in order of address. Where the cache agrees
    /// with a map of objects, each is right and its space is live, and they follow from the map and what is kept.
    pub fn listed(&self)
        ensures each { AreMappings self.now (mappings_of self.now) }
        ensures right { (o : Items) → IsCoherent self.now o → AreRight o (mappings_of self.now) }
        ensures held { (o : Items) → IsCoherent self.now o
            → mappings_of self.now ≡ held_entries o (kept_of self.now) }
    {
        let _mappings = &self.mappings;
    }

    /// The next entry from a place on, with the place behind it.
    pub fn mapping_at(&self, place: MappingPlace) -> Option<(Mapping, MappingPlace)>
        requires { place.page ≤ 2 ^ 20 }
        ensures some { IfSome result
            (λ next. mappings_left self.now place ≡ next.0 ∷ mappings_left self.now next.1) }
        ensures behind { IfSome result (λ next. next.1.page ≤ 2 ^ 20) }
        ensures none { IsNone result → mappings_left self.now place ≡ [] }
    {
        self.mappings.next_mapping(place)
    }
}

impl Translator for MapCache {
    ghost use Rattle.tlb_model.specs.declared.entry.Entry.{Entry};
    ghost use Rattle.std.specs.Prelude.{List};
    ghost use Rattle.map_cache.specs.Kept.{HoldsLess, KeptValue, cost_of, is_spared, kept_after, kept_without, tlb_after, tlb_without};
    ghost use Rattle.map_cache.specs.Cache.{kept_of, tlb_at};
    ghost use Rattle.map_cache.specs.Coherent.{IsCoherent};
    ghost use Rattle.map_cache.specs.Effects.{IsBlank};
    ghost use Rattle.std.proofs.Common.{ap, subst, sym, ◌∙◌};
    ghost use Rattle.std.proofs.lemmas.Option.{none-some};
    ghost use Rattle.map_cache.specs.Less.{less-after, less-without};
    ghost use Rattle.std.specs.Prelude.{slice_get};
    ghost use Rattle.object_store.specs.Store.{Items};
    ghost use Rattle.sv32_tables.specs.declared.frame_use.FrameUse.TheVariants.{Root};

    ghost harts = { λ c. length c.tlbs };

    ghost coherent = { λ c o. IsCoherent c o };

    ghost fresh = { λ c. IsBlank c };

    ghost Kept = { KeptValue };

    ghost kept = { λ c. kept_of c };

    ghost cost = { λ k o c a kind. cost_of k o c a kind };

    ghost after = { λ k o c a kind. kept_after k o c a kind };

    ghost finds = { λ k o c a kind. is_spared k o c a kind };

    ghost without = { λ k item. kept_without k item };

    ghost Cache = { List Entry };

    ghost cache = { λ c hart. tlb_at c.tlbs hart };

    ghost spared = { λ k o c a kind entries. tlb_after k o c a kind entries };

    ghost purged = { λ k item entries. tlb_without k item entries };

    ghost less = { λ a b. HoldsLess a b };

    #[inline(always)]
    fn translate<L: Ledger>(
        &mut self,
        objects: &Objects,
        hart: u8,
        space: Cap,
        address: u32,
        kind: Kind,
        fetches: &mut Steps<L>,
    ) -> Result<Hit, WalkFault>
        requires data { is_data kind ≡ true }
        requires hart { hart < length self.old.tlbs }
        requires coherent { IsCoherent self.old (map_of objects.now.items) }
        ensures answer { let o = map_of objects.now.items in
            let c = meaning objects.now.items space in
            hit_meaning result ≡ hit_of (access o c address kind) }
        ensures page { IfOk result (λ hit. hit.page < size_of objects.now.items CapKind.Page) }
        ensures offset { IfOk result (λ hit. hit.offset ≡ address % 4096) }
        ensures handler { IfErr result (λ fault. HandlerLives objects.now.items fault.handler) }

        ensures coherent { IsCoherent self.new (map_of objects.now.items) }
        ensures harts { length self.new.tlbs ≡ length self.old.tlbs }

        // Where it reaches, the hart holds the leaf that the tables have.
        ensures held { IfOk result
            (λ hit. AnswersHeld self.new hart space (address / 4096) hit.page) }

        ensures counted { let o = map_of objects.now.items in
            let c = meaning objects.now.items space in
            fetches.new ≡ fetches.old + cost_of (kept_of self.old) o c address kind }
        ensures bound { fetches.new ≤ fetches.old + 32 }
        ensures after { let o = map_of objects.now.items in
            let c = meaning objects.now.items space in
            kept_of self.new ≡ kept_after (kept_of self.old) o c address kind }
        ensures others { let o = map_of objects.now.items in
            let c = meaning objects.now.items space in
            (k : ℕ) → k ≢ hart → tlb_at self.new.tlbs k
            ≡ tlb_after (kept_of self.old) o c address kind (tlb_at self.old.tlbs k) }
    {
        self.mappings.translate(
            objects,
            hart,
            space,
            address,
            kind,
            &mut self.trail,
            fetches,
        )
    }

    #[inline(always)]
    fn find_kept(
        &mut self,
        objects: &Objects,
        hart: u8,
        space: Cap,
        address: u32,
        kind: Kind,
    ) -> Option<Hit>
        requires data { is_data kind ≡ true }
        requires hart { hart < length self.old.tlbs }
        requires coherent { IsCoherent self.old (map_of objects.now.items) }
        ensures exactly { let o = map_of objects.now.items in
            let c = meaning objects.now.items space in
            is_some result ≡ is_spared (kept_of self.old) o c address kind }
        ensures answer { let o = map_of objects.now.items in
            let c = meaning objects.now.items space in
            IfSome result (λ hit. Ok hit ≡ hit_of (access o c address kind)) }
        ensures page { IfSome result (λ hit. hit.page < size_of objects.now.items CapKind.Page) }
        ensures offset { IfSome result (λ hit. hit.offset ≡ address % 4096) }

        ensures coherent { IsCoherent self.new (map_of objects.now.items) }
        ensures harts { length self.new.tlbs ≡ length self.old.tlbs }
        ensures kept { kept_of self.new ≡ kept_of self.old }
        ensures caches { (k : ℕ) → k ≢ hart → tlb_at self.new.tlbs k ≡ tlb_at self.old.tlbs k }

        // Where it finds a page, the hart holds the leaf that the tables have.
        ensures held { IfSome result
            (λ hit. AnswersHeld self.new hart space (address / 4096) hit.page) }

        ensures free { let o = map_of objects.now.items in
            let c = meaning objects.now.items space in
            IfSome result (λ hit. cost_of (kept_of self.old) o c address kind ≡ 0) }
        ensures after { let o = map_of objects.now.items in
            let c = meaning objects.now.items space in
            IfSome result (λ hit. kept_of self.new ≡ kept_after (kept_of self.old) o c address kind) }
        ensures others { let o = map_of objects.now.items in
            let c = meaning objects.now.items space in
            IfSome result (λ hit. (k : ℕ) → k ≢ hart → tlb_at self.new.tlbs k
            ≡ tlb_after (kept_of self.old) o c address kind (tlb_at self.old.tlbs k)) }
    {
        self.mappings.find_kept(objects, hart, space, address, kind)
    }

    fn invalidate(&mut self, item: Item)
        ensures coherent { (o p : Items)
            → DifferIn item o p → IsCoherent self.old o → IsCoherent self.new p }
        ensures harts { length self.new.tlbs ≡ length self.old.tlbs }
        ensures without { kept_of self.new ≡ kept_without (kept_of self.old) item }
        ensures purged { (k : ℕ) → tlb_at self.new.tlbs k
            ≡ tlb_without (kept_of self.old) item (tlb_at self.old.tlbs k) }
    {
        self.mappings.forget_item(item);
    }

    ghost carries = { λ c o p none coherent. subst (λ (q : Items). IsCoherent c q) none coherent };

    // Where no frame is in use there is no leaf.
    ghost starts = { λ c o fresh root page leaf place at.
        absurd (none-some Root (sym (ap (λ us. slice_get us root) fresh.tables) ∙ place.made)) };

    ghost less_same = { λ a root page leaf found. found };

    ghost less_then = { λ a b c first second root page leaf found. second root page leaf (first root page leaf found) };

    ghost spared_less = { λ k o c a kind entries. less-after k o c a kind entries };

    ghost purged_less = { λ k item entries. less-without k item entries };
}
