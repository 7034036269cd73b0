//! What a machine asks of whatever translates its data accesses.

ghost use Rattle.std.specs.Prelude.{◌≡◌, ◌≢◌, ◌<◌, ◌≤◌, ◌+◌, ◌%◌, ℕ, Bool, true, IfOk, IfErr, IfSome, is_some, Ok};
ghost use Rattle.cap_format.specs.Capability.{Capability};
ghost use Rattle.cap_format.specs.declared.item.Item.{Item};
ghost use Rattle.object_store.specs.Store.{Items, size_of};
ghost use Rattle.object_store.specs.Meaning.{meaning, map_of};
ghost use Rattle.object_store.specs.Differ.{DifferIn, DifferInNone};
ghost use Rattle.walk_meaning.specs.declared.kind.Kind.{Kind};
ghost use Rattle.walk_meaning.specs.Walk.{access, is_data};
ghost use Rattle.walk_engine.specs.Answer.{HandlerLives, hit_of, hit_meaning};

use crate::hit::Hit;
use cap_format::{Cap, CapKind, Item};
use object_store::Objects;
use std::sync::ledger::Ledger;
use steps::Steps;
use walk_meaning::{Kind, WalkFault};

/// Translates data accesses as fresh walks would, and may remember where walks ended.
///
/// A change of the objects in an item is told by `invalidate`. What is kept, what it costs to
/// translate by it, and what changes do to it, are functions of the translator's own choice over the
/// map of objects, so that a machine can say exactly how many slots it fetches.
pub trait Translator: Drop {
    /// The number of harts that it serves.
    ghost harts: { Self → ℕ };

    /// What it remembers agrees with a map of objects.
    ghost coherent: { Self → Items → Type 0 };

    /// It remembers nothing yet.
    ghost fresh: { Self → Type 0 };

    /// What it keeps is a value of this type.
    ghost Kept: { Type 0 };

    ghost kept: { Self → Kept };

    /// How many slots a data access fetches: of what is kept, the map, the space's meaning, the address and the kind.
    ghost cost: { Kept → Items → Capability → ℕ → Kind → ℕ };

    /// What is kept after a data access.
    ghost after: { Kept → Items → Capability → ℕ → Kind → Kept };

    /// Whether the end of a data access is found by what is kept, with no walk.
    ghost finds: { Kept → Items → Capability → ℕ → Kind → Bool };

    /// What is kept after an item changed.
    ghost without: { Kept → Item → Kept };

    /// What it keeps for one hart is a value of this type.
    ghost Cache: { Type 0 };

    ghost cache: { Self → ℕ → Cache };

    /// What a data access on one hart makes of another hart's cache.
    ghost spared: { Kept → Items → Capability → ℕ → Kind → Cache → Cache };

    /// What a change of an item makes of a hart's cache.
    ghost purged: { Kept → Item → Cache → Cache };

    /// One cache holds no more than another: all that it holds is held by the other, too.
    ghost less: { Cache → Cache → Type 0 };

    /// The page and the offset of the place that a fresh walk reaches, or its fault. It stays coherent.
    fn translate<L: Ledger>(
        &mut self,
        objects: &Objects,
        hart: u8,
        space: Cap,
        address: u32,
        kind: Kind,
        fetches: &mut Steps<L>,
    ) -> Result<Hit, WalkFault>
        requires data { is_data kind ≡ true }
        requires hart { hart < harts self.old }
        requires coherent { coherent self.old (map_of objects.now.items) }
        ensures answer { let o = map_of objects.now.items in
            let c = meaning objects.now.items space in
            hit_meaning result ≡ hit_of (access o c address kind) }
        ensures page { IfOk result (λ hit. hit.page < size_of objects.now.items CapKind.Page) }
        ensures offset { IfOk result (λ hit. hit.offset ≡ address % 4096) }
        ensures handler { IfErr result (λ fault. HandlerLives objects.now.items fault.handler) }

        ensures coherent { coherent self.new (map_of objects.now.items) }
        ensures harts { harts self.new ≡ harts self.old }

        ensures counted { let o = map_of objects.now.items in
            let c = meaning objects.now.items space in
            fetches.new ≡ fetches.old + cost (kept self.old) o c address kind }
        ensures after { let o = map_of objects.now.items in
            let c = meaning objects.now.items space in
            kept self.new ≡ after (kept self.old) o c address kind }
        ensures others { let o = map_of objects.now.items in
            let c = meaning objects.now.items space in
            (k : ℕ) → k ≢ hart → cache self.new k ≡ spared (kept self.old) o c address kind (cache self.old k) };

    /// The answer of `translate` where it is a page that is found by what is kept: then it is all that
    /// `translate` would be, and no slot is fetched. What is kept stays the same, whether it is found or not.
    fn find_kept(
        &mut self,
        objects: &Objects,
        hart: u8,
        space: Cap,
        address: u32,
        kind: Kind,
    ) -> Option<Hit>
        requires data { is_data kind ≡ true }
        requires hart { hart < harts self.old }
        requires coherent { coherent self.old (map_of objects.now.items) }
        ensures exactly { let o = map_of objects.now.items in
            let c = meaning objects.now.items space in
            is_some result ≡ finds (kept self.old) o c address kind }
        ensures answer { let o = map_of objects.now.items in
            let c = meaning objects.now.items space in
            IfSome result (λ hit. Ok hit ≡ hit_of (access o c address kind)) }
        ensures page { IfSome result (λ hit. hit.page < size_of objects.now.items CapKind.Page) }
        ensures offset { IfSome result (λ hit. hit.offset ≡ address % 4096) }

        ensures coherent { coherent self.new (map_of objects.now.items) }
        ensures harts { harts self.new ≡ harts self.old }
        ensures kept { kept self.new ≡ kept self.old }
        ensures caches { (k : ℕ) → k ≢ hart → cache self.new k ≡ cache self.old k }

        // What `translate` would say of its count, of what is kept and of the other harts.
        ensures free { let o = map_of objects.now.items in
            let c = meaning objects.now.items space in
            IfSome result (λ hit. cost (kept self.old) o c address kind ≡ 0) }
        ensures after { let o = map_of objects.now.items in
            let c = meaning objects.now.items space in
            IfSome result (λ hit. kept self.new ≡ after (kept self.old) o c address kind) }
        ensures others { let o = map_of objects.now.items in
            let c = meaning objects.now.items space in
            IfSome result (λ hit. (k : ℕ) → k ≢ hart → cache self.new k ≡ spared (kept self.old) o c address kind (cache self.old k)) };

    /// Tells that this item alone may have changed. It is told for no hart: no cache gains by it.
    fn invalidate(&mut self, item: Item)
        ensures coherent { (o p : Items)
            → DifferIn item o p → coherent self.old o → coherent self.new p }
        ensures harts { harts self.new ≡ harts self.old }
        ensures without { kept self.new ≡ without (kept self.old) item }
        ensures purged { (k : ℕ) → cache self.new k ≡ purged (kept self.old) item (cache self.old k) };

    /// Coherence carries over between maps that differ in no item. `DifferInNone` is equality, so this
    /// holds of every coherence.
    ghost carries: { (t : Self) (o p : Items) → DifferInNone o p → coherent t o → coherent t p };

    /// One that is fresh is coherent with all objects.
    ghost starts: { (t : Self) (o : Items) → fresh t → coherent t o };

    /// A cache holds no more than itself.
    ghost less_same: { (a : Cache) → less a a };

    /// One that holds no more than a second, which holds no more than a third, holds no more than that.
    ghost less_then: { (a b c : Cache) → less a b → less b c → less a c };

    /// No hart's cache gains by a data access on another hart.
    ghost spared_less: { (k : Kept) (o : Items) (c : Capability) (a : ℕ) (kind : Kind) (entries : Cache)
        → less (spared k o c a kind entries) entries };

    /// No hart's cache gains by a change of an item.
    ghost purged_less: { (k : Kept) (item : Item) (entries : Cache) → less (purged k item entries) entries };
}
