//! The header and slots of a GPT, as they are kept.
ghost use Rattle.std.specs.Prelude.{◌≡◌, ◌+◌, ◌<◌, fold, map, length};
ghost use Rattle.cap_format.specs.declared.kind.CapKind.{CapKind};
ghost use Rattle.gpt_objects.specs.Gpt.{slot_of};
ghost use Rattle.object_store.specs.Store.{size_of, gpt_at};
ghost use Rattle.object_store.specs.Meaning.{live, gpt_map};
ghost use Rattle.object_store.specs.Saved.{slots_copied};
ghost use Rattle.object_parts.specs.Same.{same_gpt, same_header};
ghost use Rattle.object_parts.specs.Part.{hashed_caps};
ghost use Rattle.object_parts.specs.Slots.{AreSixteen};

use cap_format::{Cap, CapKind};
use gpt_objects::GptHeader;
use object_store::Objects;
use std::hash::Hasher;
use std::marker::Model;
use std::sync::ledger::Ledger;
use steps::Steps;

/// A copy of a GPT.
#[derive(Drop)]
pub struct Slots {
    header: GptHeader,
    slots: [Cap; 16],
}

impl Model for Slots {
    ghost use Rattle.object_parts.specs.Slots.{AreSixteen};
    ghost use Rattle.gpt_objects.specs.Gpt.{GptValue};

    ghost Value = { GptValue };

    ghost view = { λ g. record { header = g.header; slots = g.slots } };

    ghost invariant = { λ g. AreSixteen g.slots };
}

impl Slots {
    /// A copy of a GPT, with Null in place of each dead capability.
    pub(crate) fn of<L: Ledger>(objects: &Objects, gpt: u16, fetches: &mut Steps<L>) -> Slots
        requires { gpt < size_of objects.now.items CapKind.Gpt }
        ensures value { let o = objects.now.items in result ≡ gpt_map (live o) (gpt_at o gpt) }
        ensures counted { fetches.new ≡ fetches.old + slots_copied CapKind.Gpt }
    {
        Slots {
            header: objects.gpt_header(gpt),
            slots: live_slots(objects, gpt, fetches),
        }
    }

    /// Does nothing: its contract tells what is kept.
    pub fn tell_range(&self)
        ensures { AreSixteen self.now.slots }
    {
        let _header = self.header;
    }

    pub fn header(&self) -> GptHeader
        ensures value { result ≡ self.now.header }
        ensures range { AreSixteen self.now.slots }
    {
        self.header
    }

    /// Slot `i`, at most 15.
    pub fn slot(&self, i: u8) -> Cap
        requires { i < 16 }
        ensures value { result ≡ slot_of self.now i }
        ensures range { AreSixteen self.now.slots }
    {
        self.slots[i as usize]
    }

    /// Whether both are the same.
    pub fn same(&self, other: &Slots) -> bool
        ensures { result ≡ same_gpt self.now other.now }
    {
        same_headers(self.header, other.header) && self.slots == other.slots
    }

    /// What is hashed of it.
    pub(crate) fn feed<H: Hasher>(&self, state: &mut H)
        ensures { state.new ≡ fold H.write state.old (hashed_caps self.now.slots) }
    {
        for i in 0..16 {
            state.write_u32(self.slots[i].object());
        }
    }
}

fn same_headers(a: GptHeader, b: GptHeader) -> bool
    ensures { result ≡ same_header a b }
{
    a.l2v() == b.l2v() && a.ha() == b.ha() && a.bg() == b.bg()
}

fn live_slots<L: Ledger>(objects: &Objects, gpt: u16, fetches: &mut Steps<L>) -> [Cap; 16]
    requires { gpt < size_of objects.now.items CapKind.Gpt }
    ensures value { let o = objects.now.items in result ≡ map (live o) (gpt_at o gpt).slots }
    ensures range { AreSixteen result }
    ensures counted { fetches.new ≡ fetches.old + slots_copied CapKind.Gpt }
{
    // Ranges that are read tell how many slots there are.
    objects.in_ranges();
    let mut slots = [Cap::null(); 16];
    for i in 0..16 {
        let cap = objects.live(objects.gpt_slot(gpt, i, fetches));
        // A capability that is read tells its ranges.
        let _kind = cap.kind();
        slots[i as usize] = cap;
    }
    slots
}
