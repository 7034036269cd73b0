//! Which pages a capability may write, wherever it stands.
ghost use Rattle.std.specs.Prelude.{◌≡◌, ◌<◌, ◌≤◌, ◌+◌, ◌*◌, false, replicate, IfOk};
ghost use Rattle.cap_format.specs.declared.kind.CapKind.TheVariants.{Gpt};
ghost use Rattle.object_store.specs.Store.{size_of};
ghost use Rattle.object_store.specs.Meaning.{state_map};
ghost use Rattle.object_store.specs.Places.{cap_in, places_in, reads_in, object_reads};
ghost use Rattle.quiet_finding.specs.Passing.{in_objects, in_places};
ghost use Rattle.quiet_finding.specs.Writing.{AreWriting, WritesAfter, after_writing, writes_page};

use crate::passing::mark;
use crate::tables::not_named;
use cap_format::{Cap, CapKind, OutOfMemory, is_harmless};
use confine_check::tell_full;
use object_store::{Objects, cap_in, places, size};
use std::alloc::Global;
use std::marker::Model;
use std::sync::ledger::Ledger;
use steps::Steps;

/// Which pages a capability names that isn't RO, and whether there is a Range.
#[derive(Drop)]
pub(crate) struct Writing {
    pages: Vec<bool>,
    pub(crate) range: bool,
}

impl Model for Writing {
    ghost use Rattle.quiet_finding.specs.Writing.{WritingValue, writing};

    ghost Value = { WritingValue };

    ghost view = { λ w. writing w.pages.items w.range };
}

impl Writing {
    /// What the capabilities of all objects say, those of recipients too. Each slot of a GPT is read
    /// once.
    pub(crate) fn new<L: Ledger>(
        alloc: Global,
        objects: &Objects,
        fetches: &mut Steps<L>,
    ) -> Result<Writing, OutOfMemory>
        ensures value { IfOk result (λ writing. AreWriting (state_map objects.now) writing) }
        ensures least { fetches.old ≤ fetches.new }
        ensures most { fetches.new ≤ fetches.old + 16 * size_of objects.now.items Gpt }
    {
        tell_full(objects);
        let mut writing = Writing::nothing(alloc, size(objects, CapKind::Page))?;
        writing.add_kind(objects, CapKind::Process, fetches);
        writing.add_kind(objects, CapKind::CapPage, fetches);
        writing.add_kind(objects, CapKind::Gpt, fetches);
        writing.add_kind(objects, CapKind::Endpoint, fetches);
        Ok(writing)
    }

    /// No capability may write any of so many pages, and there is no Range.
    fn nothing(alloc: Global, pages: u16) -> Result<Writing, OutOfMemory>
        ensures pages { IfOk result (λ writing. writing.pages ≡ replicate pages false) }
        ensures range { IfOk result (λ writing. writing.range ≡ false) }
    {
        Ok(Writing {
            pages: not_named(alloc, pages)?,
            range: false,
        })
    }

    /// Whether a capability may write a page.
    pub(crate) fn writes(&self, n: u16) -> bool
        ensures { result ≡ writes_page self.now n }
    {
        match self.pages.get(n as usize) {
            Some(writes) => *writes,
            None => false,
        }
    }

    /// There is this capability.
    fn add_cap(&mut self, cap: Cap)
        ensures { self.new ≡ after_writing cap self.old }
    {
        match cap.kind() {
            CapKind::Page if !is_harmless(cap) => mark(&mut self.pages, cap.object()),
            CapKind::Range => self.range = true,
            _ => {}
        }
    }

    /// There is what stands in a place of an object.
    fn add_place<L: Ledger>(
        &mut self,
        objects: &Objects,
        kind: CapKind,
        n: u16,
        i: u16,
        fetches: &mut Steps<L>,
    )
        requires there { n < size_of objects.now.items kind }
        requires place { i < places_in kind }
        ensures value { self.new
            ≡ after_writing (cap_in (state_map objects.now) kind n i) self.old }
        ensures counted { fetches.new ≡ fetches.old + reads_in kind }
    {
        let cap = objects.live(cap_in(objects, kind, n, i, fetches));
        self.add_cap(cap);
    }

    /// There is what an object holds.
    fn add_object<L: Ledger>(
        &mut self,
        objects: &Objects,
        kind: CapKind,
        n: u16,
        fetches: &mut Steps<L>,
    )
        requires there { n < size_of objects.now.items kind }
        ensures value { let s = state_map objects.now in
            WritesAfter (in_places s kind n (places_in kind)) self.old self.new }
        ensures counted { fetches.new ≡ fetches.old + object_reads kind }
    {
        'each: for i in 0..places(kind) {
            self.add_place(objects, kind, n, i, fetches);
        }
    }

    /// There is what all objects of a kind hold.
    fn add_kind<L: Ledger>(&mut self, objects: &Objects, kind: CapKind, fetches: &mut Steps<L>)
        ensures value { let s = state_map objects.now in
            let count = size_of objects.now.items kind in
            WritesAfter (in_objects s kind count) self.old self.new }
        ensures counted { fetches.new
            ≡ fetches.old + object_reads kind * size_of objects.now.items kind }
    {
        'each: for n in 0..size(objects, kind) {
            self.add_object(objects, kind, n, fetches);
        }
    }
}
