//! Copies of whole objects, their counts included.
ghost use Rattle.std.specs.Prelude.{◌≡◌, ◌+◌, ◌<◌};
ghost use Rattle.cap_format.specs.declared.kind.CapKind.{CapKind};
ghost use Rattle.object_store.specs.Store.{size_of};
ghost use Rattle.object_store.specs.Meaning.{map_of};
ghost use Rattle.object_store.specs.Differ.{DifferIn};
ghost use Rattle.object_store.specs.Object.{object_at, with_object};
ghost use Rattle.object_store.specs.Saved.{slots_copied};

use super::Objects;
use cap_format::{CapKind, Item};
use std::sync::ledger::Ledger;
use steps::Steps;

impl Objects {
    /// Object `to` of a kind becomes a copy of object `number` of that kind of other objects, its count included. Gives
    /// its header, the item that changed. A capability may then be ahead.
    pub fn copy_object<L: Ledger>(
        &mut self,
        kind: CapKind,
        to: u16,
        from: &Objects,
        number: u16,
        fetches: &mut Steps<L>,
    ) -> Item
        requires to { to < size_of self.old.items kind }
        requires there { number < size_of from.now.items kind }
        ensures item { result ≡ Item.Header kind to }
        ensures after { self.new ≡ with_object self.old to (object_at from.now kind number) }
        ensures sizes { (k : CapKind) → size_of self.new.items k ≡ size_of self.old.items k }
        ensures differ { DifferIn result (map_of self.old.items) (map_of self.new.items) }
        ensures counted { fetches.new ≡ fetches.old + slots_copied kind }
    {
        self.put_object(kind, to, from, number, fetches);
        Item::Header(kind, to)
    }

    /// Copies an object and its count.
    fn put_object<L: Ledger>(
        &mut self,
        kind: CapKind,
        to: u16,
        from: &Objects,
        number: u16,
        fetches: &mut Steps<L>,
    )
        requires to { to < size_of self.old.items kind }
        requires there { number < size_of from.now.items kind }
        ensures after { self.new ≡ with_object self.old to (object_at from.now kind number) }
        ensures counted { fetches.new ≡ fetches.old + slots_copied kind }
    {
        self.put_count(kind, to, from.count(kind, number));
        let at = to as usize;
        let n = number as usize;
        match kind {
            CapKind::Page => self.pages[at].copy_from(&from.pages[n]),
            CapKind::CapPage => self.cappages[at].copy_from(&from.cappages[n]),
            CapKind::Gpt => self.gpts[at].copy_from(&from.gpts[n], fetches),
            CapKind::Process => self.processes[at].copy_from(&from.processes[n]),
            CapKind::Endpoint => self.endpoints[at].copy_from(&from.endpoints[n]),
            _ => {}
        }
    }
}
