//! GPTs, by number. The only way to read a slot is `gpt_slot`, which counts.
ghost use Rattle.std.specs.Prelude.{◌≡◌, ◌+◌, ◌<◌, true};
ghost use Rattle.object_store.specs.Store.{size_of, header_at, slot_at, set_slot, set_header, with_items};
ghost use Rattle.object_store.specs.Meaning.{meaning, map_of};
ghost use Rattle.object_store.specs.Differ.{DifferIn};
ghost use Rattle.object_store.specs.Ahead.{IsBehind, NoneAhead};

use super::Objects;
use cap_format::{Cap, CapKind, Item};
use gpt_objects::GptHeader;
use std::sync::ledger::Ledger;
use steps::Steps;

impl Objects {
    /// Reads slot `i`, at most 15, of a GPT as it is stored, and counts it.
    pub fn gpt_slot<L: Ledger>(&self, gpt: u16, i: u8, fetches: &mut Steps<L>) -> Cap
        requires there { gpt < size_of self.now.items CapKind.Gpt }
        requires slot { i < 16 }
        ensures value { result ≡ slot_at self.now.items gpt i }
        ensures counted { fetches.new ≡ fetches.old + 1 }
    {
        self.gpts[gpt as usize].slot(i, fetches)
    }

    pub fn gpt_header(&self, gpt: u16) -> GptHeader
        requires { gpt < size_of self.now.items CapKind.Gpt }
        ensures { result ≡ header_at self.now.items gpt }
    {
        self.gpts[gpt as usize].header()
    }

    /// Stores a capability in slot `i`, at most 15, of a GPT. Gives the item that changed.
    pub fn set_gpt_slot(&mut self, gpt: u16, i: u8, cap: Cap) -> Item
        requires there { gpt < size_of self.old.items CapKind.Gpt }
        requires slot { i < 16 }
        ensures item { result ≡ Item.Slot gpt i }
        ensures after { self.new ≡ with_items self.old (set_slot self.old.items gpt i cap) }
        ensures means { map_of self.new.items ≡
            set_slot (map_of self.old.items) gpt i (meaning self.old.items cap) }
        ensures differ { DifferIn result (map_of self.old.items) (map_of self.new.items) }
        ensures none_ahead { IsBehind self.old.items cap → NoneAhead self.old → NoneAhead self.new }
    {
        self.put_slot(gpt, i, cap)
    }

    /// Gives a GPT another header. Gives the item that changed.
    pub fn set_gpt_header(&mut self, gpt: u16, h: GptHeader) -> Item
        requires { gpt < size_of self.old.items CapKind.Gpt }
        ensures item { result ≡ Item.Header CapKind.Gpt gpt }
        ensures after { self.new ≡ with_items self.old (set_header self.old.items gpt h) }
        ensures means { map_of self.new.items ≡ set_header (map_of self.old.items) gpt h }
        ensures differ { DifferIn result (map_of self.old.items) (map_of self.new.items) }
        ensures none_ahead { NoneAhead self.old → NoneAhead self.new }
    {
        self.put_header(gpt, h)
    }

    fn put_slot(&mut self, gpt: u16, i: u8, cap: Cap) -> Item
        requires there { gpt < size_of self.old.items CapKind.Gpt }
        requires slot { i < 16 }
        ensures item { result ≡ Item.Slot gpt i }
        ensures after { self.new ≡ with_items self.old (set_slot self.old.items gpt i cap) }
    {
        self.gpts[gpt as usize].set_slot(i, cap);
        Item::Slot(gpt, i)
    }

    fn put_header(&mut self, gpt: u16, h: GptHeader) -> Item
        requires { gpt < size_of self.old.items CapKind.Gpt }
        ensures item { result ≡ Item.Header CapKind.Gpt gpt }
        ensures after { self.new ≡ with_items self.old (set_header self.old.items gpt h) }
    {
        self.gpts[gpt as usize].set_header(h);
        Item::Header(CapKind::Gpt, gpt)
    }
}
