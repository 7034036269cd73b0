//! A GPT and its slots.
ghost use Rattle.std.specs.Prelude.{◌≡◌, ◌+◌, ◌<◌};
ghost use Rattle.cap_format.specs.Capability.{IsCapability};
ghost use Rattle.gpt_objects.specs.Gpt.{IsGpt, slot_of, with_header, with_slot, empty_slots, empty_gpt};

use crate::header::GptHeader;
use cap_format::Cap;
use std::marker::Model;
use std::sync::ledger::Ledger;
use steps::Steps;

/// A table of sixteen capabilities with its header.
#[derive(Drop)]
pub struct Gpt {
    header: GptHeader,
    slots: [Cap; 16],
}

impl Model for Gpt {
    ghost use Rattle.gpt_objects.specs.Gpt.{GptValue, IsGpt};

    ghost Value = { GptValue };

    ghost view = { λ g. record { header = g.header; slots = g.slots } };

    ghost invariant = { λ g. IsGpt (record { header = g.header; slots = g.slots }) };
}

impl Gpt {
    pub fn new() -> Gpt
        ensures empty { result ≡ empty_gpt }
        ensures range { IsGpt result }
    {
        Gpt {
            header: GptHeader::empty(),
            slots: nulls(),
        }
    }

    pub fn header(&self) -> GptHeader
        ensures value { result ≡ self.now.header }
        ensures range { IsGpt self.now }
    {
        self.header
    }

    pub fn set_header(&mut self, h: GptHeader)
        ensures header { self.new ≡ with_header self.old h }
        ensures range { IsGpt self.new }
    {
        // A header that is read tells its range.
        let _l2v = h.l2v();
        self.header = h;
    }

    /// Reads a slot, and counts it.
    pub fn slot<L: Ledger>(&self, i: u8, fetches: &mut Steps<L>) -> Cap
        requires { i < 16 }
        ensures value { result ≡ slot_of self.now i }
        ensures range { IsCapability result }
        ensures counted { fetches.new ≡ fetches.old + 1 }
    {
        fetches.tick();
        self.slots[i as usize]
    }

    pub fn set_slot(&mut self, i: u8, cap: Cap)
        requires { i < 16 }
        ensures slot { self.new ≡ with_slot self.old i cap }
        ensures range { IsGpt self.new }
    {
        // A capability that is read tells its ranges.
        let _kind = cap.kind();
        self.slots[i as usize] = cap;
    }

    /// Becomes a copy of another GPT, of which it reads each slot.
    pub fn copy_from<L: Ledger>(&mut self, from: &Gpt, fetches: &mut Steps<L>)
        ensures copy { self.new ≡ from.now }
        ensures counted { fetches.new ≡ fetches.old + 16 }
    {
        self.header = from.header;
        self.slots = from.all_slots(fetches);
    }

    /// Reads all slots, and counts each.
    fn all_slots<L: Ledger>(&self, fetches: &mut Steps<L>) -> [Cap; 16]
        ensures value { result ≡ self.now.slots }
        ensures counted { fetches.new ≡ fetches.old + 16 }
    {
        // A header that is read tells how many slots there are.
        let _header = self.header();
        let mut slots = nulls();
        for i in 0..16 {
            slots[i as usize] = self.slot(i, fetches);
        }
        slots
    }
}

#[tactic(auto, unfolding(crate::specs::Gpt::empty_slots))]
fn nulls() -> [Cap; 16]
    ensures { result ≡ empty_slots }
{
    [Cap::null(); 16]
}
