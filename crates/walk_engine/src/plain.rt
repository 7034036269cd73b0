//! The translator that walks at each call.

ghost use Rattle.std.specs.Prelude.{◌≡◌, ⊤};

use crate::hit::Hit;
use crate::on_way::Trail;
use crate::translator::Translator;
use crate::walking::walk;
use cap_format::{Cap, Item};
use object_store::Objects;
use std::marker::Model;
use std::sync::ledger::Ledger;
use steps::Steps;
use walk_meaning::{Kind, WalkFault};

/// Walks at each call, and remembers nothing. It serves 8 harts.
#[derive(Drop)]
pub struct Plain {
    /// Where a walk writes its trail, which nobody reads.
    trail: Trail,
}

impl Model for Plain {
    ghost Value = { Unit {0} };

    ghost view = { λ _. tt };
}

impl Plain {
    pub fn new() -> Plain
        ensures { result ≡ tt }
    {
        Plain {
            trail: Trail::new(),
        }
    }
}

impl Translator for Plain {
    ghost use Rattle.std.specs.Prelude.{false};
    ghost use Rattle.walk_meaning.specs.Trail.{slots};

    ghost harts = { λ _. 8 };

    ghost coherent = { λ _ _. ⊤ };

    ghost fresh = { λ _. ⊤ };

    ghost Kept = { Unit {0} };

    ghost kept = { λ _. tt };

    ghost cost = { λ k o c a kind. slots o c a kind };

    ghost after = { λ k o c a kind. k };

    ghost finds = { λ k o c a kind. false };

    ghost without = { λ k item. k };

    ghost Cache = { Unit {0} };

    ghost cache = { λ _ _. tt };

    ghost spared = { λ k o c a kind kept. kept };

    ghost purged = { λ k item kept. kept };

    ghost less = { λ a b. ⊤ };

    fn translate<L: Ledger>(
        &mut self,
        objects: &Objects,
        _hart: u8,
        space: Cap,
        address: u32,
        kind: Kind,
        fetches: &mut Steps<L>,
    ) -> Result<Hit, WalkFault> {
        let place = walk(objects, space, address, kind, &mut self.trail, fetches)?;
        Ok(Hit {
            page: place.number,
            offset: place.offset,
        })
    }

    fn find_kept(
        &mut self,
        _objects: &Objects,
        _hart: u8,
        _space: Cap,
        _address: u32,
        _kind: Kind,
    ) -> Option<Hit> {
        None
    }

    fn invalidate(&mut self, _item: Item) {}

    ghost carries = { λ t o p none coherent. tt };

    ghost starts = { λ t o fresh. tt };

    ghost less_same = { λ a. tt };

    ghost less_then = { λ a b c first second. tt };

    ghost spared_less = { λ k o c a kind kept. tt };

    ghost purged_less = { λ k item kept. tt };
}
