//! Passes over capabilities.
ghost use Rattle.std.specs.Prelude.{◌≡◌, ◌<◌, ◌≤◌, ◌+◌, ◌*◌, IfOk, OnOk, slice_set, true};
ghost use Rattle.cap_format.specs.declared.kind.CapKind.TheVariants.{Gpt};
ghost use Rattle.object_store.specs.Store.{size_of};
ghost use Rattle.object_store.specs.Meaning.{state_map};
ghost use Rattle.object_store.specs.Places.{cap_in, places_in, reads_in, object_reads};
ghost use Rattle.confine_check.specs.Full.{AreFull};
ghost use Rattle.quiet_runs.specs.Reaching.{joined};
ghost use Rattle.quiet_finding.specs.Comers.{to_gpt};
ghost use Rattle.quiet_finding.specs.Passing.{IsAfter, IsOfHolders, after_cap, joined_at, holder_of, by_places, in_places, by_objects, in_objects};

use crate::comers::Comers;
use cap_format::{Cap, CapKind, OutOfMemory};
use object_store::{Objects, cap_in, places, size};
use quiet_runs::ReachedBy;
use std::alloc::Global;
use std::sync::ledger::Ledger;
use steps::Steps;

/// Those of two groups together.
fn joined(one: ReachedBy, other: ReachedBy) -> ReachedBy
    ensures { result ≡ joined one other }
{
    match (one, other) {
        (ReachedBy::Nobody, _) => other,
        (_, ReachedBy::Nobody) => one,
        (ReachedBy::Alone(p), ReachedBy::Alone(q)) if p == q => one,
        _ => ReachedBy::Several,
    }
}

/// These come to object `n` as well.
fn join_at(table: &mut Vec<ReachedBy>, n: u32, by: ReachedBy)
    ensures { table.new.items ≡ joined_at table.old.items n by }
{
    if let Some(entry) = table.get_mut(n as usize) {
        *entry = joined(*entry, by);
    }
}

/// The entry of object `n` is set.
pub(crate) fn mark(table: &mut Vec<bool>, n: u32)
    ensures { table.new.items ≡ slice_set table.old.items n true }
{
    if let Some(named) = table.get_mut(n as usize) {
        *named = true;
    }
}

impl Comers {
    /// These hold a capability.
    fn add_cap(&mut self, cap: Cap, by: ReachedBy)
        ensures { self.new ≡ after_cap cap by self.old }
    {
        match cap.kind() {
            CapKind::Page => join_at(&mut self.pages, cap.object(), by),
            CapKind::Gpt => join_at(&mut self.gpts, cap.object(), by),
            CapKind::Process => mark(&mut self.named, cap.object()),
            CapKind::Range | CapKind::Window => self.far = true,
            _ => {}
        }
    }

    /// These hold what stands in a place of an object.
    fn add_place<L: Ledger>(
        &mut self,
        objects: &Objects,
        kind: CapKind,
        n: u16,
        i: u16,
        by: ReachedBy,
        fetches: &mut Steps<L>,
    )
        requires there { n < size_of objects.now.items kind }
        requires place { i < places_in kind }
        ensures value { self.new ≡ after_cap (cap_in (state_map objects.now) kind n i) by self.old }
        ensures counted { fetches.new ≡ fetches.old + reads_in kind }
    {
        let cap = objects.live(cap_in(objects, kind, n, i, fetches));
        self.add_cap(cap, by);
    }

    /// These hold what an object holds.
    fn add_object<L: Ledger>(
        &mut self,
        objects: &Objects,
        kind: CapKind,
        n: u16,
        by: ReachedBy,
        fetches: &mut Steps<L>,
    )
        requires there { n < size_of objects.now.items kind }
        ensures value { let s = state_map objects.now in
            IsAfter (by_places s by kind n (places_in kind)) (in_places s kind n (places_in kind)) self.old self.new }
        ensures counted { fetches.new ≡ fetches.old + object_reads kind }
    {
        'each: for i in 0..places(kind) {
            self.add_place(objects, kind, n, i, by, fetches);
        }
    }

    /// Who holds what an object of a kind holds: whoever comes to it, if it is a GPT.
    fn holder(&self, kind: CapKind, n: u16) -> ReachedBy
        ensures { result ≡ holder_of self.now kind n }
    {
        match kind {
            CapKind::Process => ReachedBy::Alone(n),
            CapKind::Gpt => self.to_gpt(n),
            _ => ReachedBy::Several,
        }
    }

    /// Who comes to a GPT.
    pub(crate) fn to_gpt(&self, n: u16) -> ReachedBy
        ensures { result ≡ to_gpt self.now n }
    {
        match self.gpts.get(n as usize) {
            Some(by) => *by,
            None => ReachedBy::Nobody,
        }
    }

    /// What all objects of a kind hold is held by whom `last` says.
    fn add_kind<L: Ledger>(
        &mut self,
        objects: &Objects,
        kind: CapKind,
        last: &Comers,
        fetches: &mut Steps<L>,
    )
        ensures value { let s = state_map objects.now in let count = size_of objects.now.items kind in
            IsAfter (by_objects s last.now kind count) (in_objects s kind count) self.old self.new }
        ensures counted { fetches.new ≡ fetches.old + object_reads kind * size_of objects.now.items kind }
    {
        'each: for n in 0..size(objects, kind) {
            self.add_object(objects, kind, n, last.holder(kind, n), fetches);
        }
    }

    /// Who comes to an object through no GPT.
    pub(crate) fn of_holders<L: Ledger>(
        alloc: Global,
        objects: &Objects,
        fetches: &mut Steps<L>,
    ) -> Result<Comers, OutOfMemory>
        requires { AreFull objects.now }
        ensures value { IfOk result (λ base. IsOfHolders (state_map objects.now) base) }
        ensures counted { fetches.new ≡ fetches.old }
    {
        let none = Comers::nothing(alloc, objects.sizes())?;
        let mut base = Comers::nothing(alloc, objects.sizes())?;
        base.add_kind(objects, CapKind::Process, &none, fetches);
        base.add_kind(objects, CapKind::CapPage, &none, fetches);
        Ok(base)
    }

    /// Who comes to an object through one GPT more than in the last round.
    pub(crate) fn round<L: Ledger>(
        &self,
        alloc: Global,
        objects: &Objects,
        last: &Comers,
        fetches: &mut Steps<L>,
    ) -> Result<Comers, OutOfMemory>
        ensures value { let s = state_map objects.now in let count = size_of objects.now.items Gpt in
            IfOk result (λ next. IsAfter (by_objects s last.now Gpt count) (in_objects s Gpt count) self.now next) }
        ensures counted { OnOk result (fetches.new ≡ fetches.old + 16 * size_of objects.now.items Gpt) }
        ensures least { fetches.old ≤ fetches.new }
        ensures most { fetches.new ≤ fetches.old + 16 * size_of objects.now.items Gpt }
    {
        let mut next = self.copy(alloc)?;
        next.add_kind(objects, CapKind::Gpt, last, fetches);
        Ok(next)
    }
}
