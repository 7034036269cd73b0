//! What is found of an access, and what that says of its page.

use map_cache::MapCache;
use shared_leaves::SharedLeaves;
use walk_engine::{Plain, Translator};

/// A translator that finds accesses page by page, so that of a page that is found no address need be asked for again. One
/// that finds nothing is such a translator.
pub trait PageTranslator: Translator {
    ghost use Rattle.std.specs.Prelude.{◌≡◌, ◌/◌, ℕ, true};
    ghost use Rattle.cap_format.specs.Capability.{Capability};
    ghost use Rattle.object_store.specs.Store.{Items};
    ghost use Rattle.walk_meaning.specs.declared.kind.Kind.{Kind};
    ghost use Rattle.kept_pages.specs.Found.{CostsNothing, IsReached};

    /// Where an access is found, so is each access of its kind to its page that reaches.
    ghost paged: { (k : Self.Kept) (o : Items) (c : Capability) (a b : ℕ) (kind : Kind)
        → a / 4096 ≡ b / 4096 → IsReached o c b kind → Self.finds k o c a kind ≡ true → Self.finds k o c b kind ≡ true };

    /// An access that is found fetches no slot, and leaves what is kept and the caches of other harts as they are.
    ghost frees: { (k : Self.Kept) (o : Items) (c : Capability) (a : ℕ) (kind : Kind)
        → Self.finds k o c a kind ≡ true → CostsNothing Self.cost Self.after Self.spared k o c a kind };
}

/// It finds nothing.
impl PageTranslator for Plain {
    ghost use Rattle.std.proofs.lemmas.Bool.{false≢true};

    ghost paged = { λ k o c a b kind page reached found. found };

    ghost frees = { λ k o c a kind found. absurd (false≢true found) };
}

impl PageTranslator for MapCache {
    ghost use Rattle.kept_pages.specs.MapCachePages.{found_free, found_paged};

    ghost paged = { λ k o c a b kind page reached found. found_paged k o c a kind b page reached found };

    ghost frees = { λ k o c a kind found. found_free k o c a kind found };
}

impl PageTranslator for SharedLeaves {
    ghost use Rattle.kept_pages.specs.SharedPages.{found_free, found_paged};

    ghost paged = { λ k o c a b kind page reached found. found_paged k o c a kind b page reached found };

    ghost frees = { λ k o c a kind found. found_free k o c a kind found };
}
