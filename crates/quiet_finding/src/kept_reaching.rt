//! What is found out of capabilities, kept with where these led.
ghost use Rattle.std.specs.Prelude.{◌≡◌, ◌↔◌, ◌≤◌, ◌+◌, ◌*◌, IfOk, IsTrue};
ghost use Rattle.cap_format.specs.declared.kind.CapKind.TheVariants.{Gpt};
ghost use Rattle.object_store.specs.Store.{size_of};
ghost use Rattle.object_store.specs.Meaning.{state_map};
ghost use Rattle.quiet_finding.specs.Reaching.{IsReaching};
ghost use Rattle.quiet_finding.specs.Leads.{AreLeadsOf};

use crate::leads::{Lead, are_leads_of, leads_of};
use crate::reaching::Reaching;
use cap_format::{CapKind, OutOfMemory};
use confine_check::tell_full;
use object_store::Objects;
use std::alloc::Global;
use std::marker::Model;
use std::sync::ledger::Ledger;
use steps::Steps;

/// Who comes to what and which pages are written, with where the capabilities led of which it was found. It holds of all objects
/// whose capabilities lead there.
#[derive(Drop)]
pub struct KeptReaching {
    processes: Vec<Lead>,
    cappages: Vec<Lead>,
    gpts: Vec<Lead>,
    endpoints: Vec<Lead>,
    reaching: Reaching,
}

impl Model for KeptReaching {
    ghost use Rattle.quiet_finding.specs.Leads.{IsRight, KeptValue, kept_by};

    ghost Value = { KeptValue };

    ghost view = { λ k. kept_by k.processes.items k.cappages.items k.gpts.items
        k.endpoints.items k.reaching };

    ghost invariant = { λ k. IsRight (kept_by k.processes.items k.cappages.items k.gpts.items
        k.endpoints.items k.reaching) };
}

impl KeptReaching {
    /// What the objects of a machine say. Beyond what `Reaching::new` reads, each slot of a GPT is read once.
    pub fn new<L: Ledger>(
        alloc: Global,
        objects: &Objects,
        fetches: &mut Steps<L>,
    ) -> Result<KeptReaching, OutOfMemory>
        ensures leads { IfOk result (λ kept. AreLeadsOf (state_map objects.now) kept.leads) }
        ensures reaching { IfOk result (λ kept. IsReaching (state_map objects.now) kept.reaching) }
        ensures least { fetches.old ≤ fetches.new }
        ensures most { let gpts = size_of objects.now.items Gpt in
            fetches.new ≤ fetches.old + 16 * gpts * (gpts + 3) }
    {
        tell_full(objects);
        let reaching = Reaching::new(alloc, objects, fetches)?;
        let processes = leads_of(alloc, objects, CapKind::Process, fetches)?;
        let cappages = leads_of(alloc, objects, CapKind::CapPage, fetches)?;
        let gpts = leads_of(alloc, objects, CapKind::Gpt, fetches)?;
        let endpoints = leads_of(alloc, objects, CapKind::Endpoint, fetches)?;
        Ok(KeptReaching {
            processes,
            cappages,
            gpts,
            endpoints,
            reaching,
        })
    }

    /// Whether the capabilities of these objects lead to the same: then the same come to the same, and the same pages are written.
    /// Each slot of a GPT is read once at most.
    pub fn is_of<L: Ledger>(&self, objects: &Objects, fetches: &mut Steps<L>) -> bool
        ensures exactly { IsTrue result ↔ AreLeadsOf (state_map objects.now) self.now.leads }
        ensures reaching { IsTrue result → IsReaching (state_map objects.now) self.now.reaching }
        ensures least { fetches.old ≤ fetches.new }
        ensures most { fetches.new ≤ fetches.old + 16 * size_of objects.now.items Gpt }
    {
        tell_full(objects);
        are_leads_of(&self.processes, objects, CapKind::Process, fetches)
            && are_leads_of(&self.cappages, objects, CapKind::CapPage, fetches)
            && are_leads_of(&self.endpoints, objects, CapKind::Endpoint, fetches)
            && are_leads_of(&self.gpts, objects, CapKind::Gpt, fetches)
    }

    /// What was found.
    pub fn reaching(&self) -> &Reaching
        ensures { result.now ≡ self.now.reaching }
    {
        &self.reaching
    }
}
