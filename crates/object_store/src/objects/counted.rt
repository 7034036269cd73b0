//! Counts and destruction.
ghost use Rattle.std.specs.Prelude.{◌≡◌, ◌<◌, ◌≤◌, ◌^◌, ◌↔◌, IsErr, IfOk, OnOk, OnErr};
ghost use Rattle.object_store.specs.Store.{size_of, count_of, set_count, with_items, emptied, cleared};
ghost use Rattle.object_store.specs.Meaning.{map_of, state_map};
ghost use Rattle.object_store.specs.Differ.{DifferIn};
ghost use Rattle.object_store.specs.Ahead.{NoneAhead};
ghost use Rattle.object_store.specs.Destruction.{destruction};

use super::Objects;
use cap_format::{CapKind, Item, LAST_COUNT};
use endpoint_objects::Endpoint;
use gpt_objects::Gpt;
use process_objects::Process;

/// The object has the last count, and can't be destroyed again.
#[derive(Clone, Copy, Debug)]
pub struct CountSpent;

impl Objects {
    /// The allocation count of an object.
    pub fn count(&self, kind: CapKind, number: u16) -> u32
        requires { number < size_of self.now.items kind }
        ensures value { result ≡ count_of self.now.items kind number }
        ensures range { result < 2 ^ 20 }
    {
        self.counts.of(kind)[number as usize]
    }

    /// Gives an object another count, at most 1,048,575. For the start alone: a capability may then be ahead.
    pub fn set_count(&mut self, kind: CapKind, number: u16, count: u32)
        requires there { number < size_of self.old.items kind }
        requires fits { count ≤ 1048575 }
        ensures after { self.new ≡
            with_items self.old (set_count self.old.items kind number count) }
        ensures sizes { (k : CapKind) → size_of self.new.items k ≡ size_of self.old.items k }
        ensures differ { DifferIn (Item.Header kind number)
            (map_of self.old.items) (map_of self.new.items) }
    {
        self.put_count(kind, number, count);
    }

    /// Makes an object empty and raises its count. Gives its header, the item that changed.
    pub fn destroy(&mut self, kind: CapKind, number: u16) -> Result<Item, CountSpent>
        requires there { number < size_of self.old.items kind }
        requires none_ahead { NoneAhead self.old }
        ensures exactly { IsErr result ↔ (count_of self.old.items kind number ≡ 1048575) }
        ensures err { OnErr result (self.new ≡ self.old) }
        ensures item { IfOk result (λ item. item ≡ Item.Header kind number) }
        ensures after { OnOk result (self.new ≡ emptied kind number self.old) }
        ensures sizes { (k : CapKind) → size_of self.new.items k ≡ size_of self.old.items k }
        ensures means { OnOk result
            (state_map self.new ≡ destruction kind number (state_map self.old)) }
        ensures differ { IfOk result
            (λ item. DifferIn item (map_of self.old.items) (map_of self.new.items)) }
        ensures none_ahead { NoneAhead self.new }
    {
        if self.count(kind, number) == LAST_COUNT {
            return Err(CountSpent);
        }
        self.renew(kind, number);
        Ok(Item::Header(kind, number))
    }

    /// Makes an object empty and raises its count.
    fn renew(&mut self, kind: CapKind, number: u16)
        requires there { number < size_of self.old.items kind }
        requires more { count_of self.old.items kind number < 1048575 }
        ensures { self.new ≡ emptied kind number self.old }
    {
        let count = self.count(kind, number);
        self.put_count(kind, number, count + 1);
        self.clear(kind, number);
    }

    pub(super) fn put_count(&mut self, kind: CapKind, number: u16, count: u32)
        requires there { number < size_of self.old.items kind }
        requires fits { count ≤ 1048575 }
        ensures { self.new ≡ with_items self.old (set_count self.old.items kind number count) }
    {
        self.counts.set(kind, number, count);
    }

    /// Makes an object empty.
    fn clear(&mut self, kind: CapKind, number: u16)
        requires { number < size_of self.old.items kind }
        ensures { self.new ≡ cleared kind number self.old }
    {
        let n = number as usize;
        match kind {
            CapKind::Page => self.pages[n].erase(),
            CapKind::CapPage => self.cappages[n].erase(),
            CapKind::Gpt => self.gpts[n] = Gpt::new(),
            CapKind::Process => self.processes[n] = Process::new(),
            CapKind::Endpoint => self.endpoints[n] = Endpoint::new(),
            _ => {}
        }
    }
}
