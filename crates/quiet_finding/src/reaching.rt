//! What is found out of capabilities before steps are looked at.
ghost use Rattle.std.specs.Prelude.{◌≡◌, ◌+◌, ◌*◌, ◌≤◌, IfOk};
ghost use Rattle.cap_format.specs.declared.kind.CapKind.TheVariants.{Gpt};
ghost use Rattle.object_store.specs.Store.{size_of};
ghost use Rattle.object_store.specs.Meaning.{state_map};
ghost use Rattle.quiet_runs.specs.Reaching.{is_alone};
ghost use Rattle.quiet_finding.specs.Comers.{names_process, to_page};
ghost use Rattle.quiet_finding.specs.Reaching.{IsReaching, finds_own, finds_settled};

use crate::comers::Comers;
use crate::writing::Writing;
use cap_format::OutOfMemory;
use object_store::Objects;
use std::alloc::Global;
use std::marker::Model;
use std::sync::ledger::Ledger;
use steps::Steps;

/// Who comes to each object of a machine, and which pages a capability may write.
#[derive(Drop)]
pub struct Reaching {
    comers: Comers,
    writing: Writing,
}

impl Model for Reaching {
    ghost use Rattle.quiet_finding.specs.Reaching.{ReachingValue, reaching};

    ghost Value = { ReachingValue };

    ghost view = { λ r. reaching r.comers r.writing };
}

impl Reaching {
    /// What the objects of a machine say, as they mean: a dead capability leads nowhere. Each slot of
    /// a GPT is read once for each GPT that the longest way goes through, and two or three times more.
    pub fn new<L: Ledger>(
        alloc: Global,
        objects: &Objects,
        fetches: &mut Steps<L>,
    ) -> Result<Reaching, OutOfMemory>
        ensures value { IfOk result (λ reaching. IsReaching (state_map objects.now) reaching) }
        ensures least { fetches.old ≤ fetches.new }
        ensures most { let gpts = size_of objects.now.items Gpt in
            fetches.new ≤ fetches.old + 16 * gpts * (gpts + 2) }
    {
        let comers = Comers::new(alloc, objects, fetches)?;
        let writing = Writing::new(alloc, objects, fetches)?;
        Ok(Reaching { comers, writing })
    }

    /// Whether a capability names a process, which need not be held by another.
    pub fn names_process(&self, p: u16) -> bool
        ensures { result ≡ names_process self.now.comers p }
    {
        self.comers.names_process(p)
    }

    /// Whether a Range or a window to a background is held.
    pub fn is_far_reaching(&self) -> bool
        ensures { result ≡ self.now.comers.far }
    {
        self.comers.far
    }

    /// Whether a process comes to a page, and nobody else does.
    pub fn is_own(&self, p: u16, n: u16) -> bool
        ensures { result ≡ is_alone p (to_page self.now.comers n) }
    {
        self.comers.is_own_page(p, n)
    }

    /// Whether a process comes to a GPT, and nobody else does.
    pub fn is_own_gpt(&self, p: u16, g: u16) -> bool
        ensures { result ≡ finds_own self.now p g }
    {
        self.comers.is_own_gpt(p, g)
    }

    /// Whether a page is settled: there is no Range, and no capability may write the page, wherever it
    /// stands.
    pub fn is_settled(&self, n: u16) -> bool
        ensures { result ≡ finds_settled self.now n }
    {
        !self.writing.range && !self.writing.writes(n)
    }
}
