//! Who comes to which object.
ghost use Rattle.std.specs.Prelude.{◌≡◌, ◌+◌, ◌*◌, ◌≤◌, IfOk};
ghost use Rattle.cap_format.specs.declared.kind.CapKind.TheVariants.{Gpt};
ghost use Rattle.object_store.specs.Store.{size_of};
ghost use Rattle.object_store.specs.Meaning.{state_map};
ghost use Rattle.quiet_runs.specs.Reaching.{is_alone};
ghost use Rattle.quiet_finding.specs.Comers.{AreComers, names_process, to_gpt, to_page};

use cap_format::OutOfMemory;
use confine_check::tell_full;
use object_store::Objects;
use quiet_runs::ReachedBy;
use std::alloc::Global;
use std::marker::Model;
use std::sync::ledger::Ledger;
use steps::Steps;

/// Who comes to each page and each GPT of a machine, which processes are named by a capability, and whether
/// one is held by which one comes to more than it names.
#[derive(Drop)]
pub(crate) struct Comers {
    pub(crate) gpts: Vec<ReachedBy>,
    pub(crate) pages: Vec<ReachedBy>,
    pub(crate) named: Vec<bool>,
    pub(crate) far: bool,
}

impl Model for Comers {
    ghost use Rattle.quiet_finding.specs.Comers.{ComersValue, comers};

    ghost Value = { ComersValue };

    ghost view = { λ r. comers r.gpts.items r.pages.items r.named.items r.far };
}

impl Comers {
    /// What the objects of a machine say, as they mean: a dead capability leads nowhere. Each slot of a GPT is read once for each
    /// GPT that the longest way goes through, and once or twice more.
    pub(crate) fn new<L: Ledger>(
        alloc: Global,
        objects: &Objects,
        fetches: &mut Steps<L>,
    ) -> Result<Comers, OutOfMemory>
        ensures value { IfOk result (λ comers. AreComers (state_map objects.now) comers) }
        ensures least { fetches.old ≤ fetches.new }
        ensures most { let gpts = size_of objects.now.items Gpt in
            fetches.new ≤ fetches.old + 16 * gpts * (gpts + 1) }
    {
        tell_full(objects);
        let base = Comers::of_holders(alloc, objects, fetches)?;
        let first = Comers::nothing(alloc, objects.sizes())?;
        let mut last = base.round(alloc, objects, &first, fetches)?;
        'each: for _ in 0..objects.sizes().gpts {
            let next = base.round(alloc, objects, &last, fetches)?;
            if next.has_gpts_of(&last) {
                return Ok(next);
            }
            last = next;
        }
        Ok(last)
    }

    /// Whether a capability names a process, which need not be held by another.
    pub(crate) fn names_process(&self, p: u16) -> bool
        ensures { result ≡ names_process self.now p }
    {
        match self.named.get(p as usize) {
            Some(named) => *named,
            None => false,
        }
    }

    /// Whether a process comes to a page, and nobody else does.
    pub(crate) fn is_own_page(&self, p: u16, n: u16) -> bool
        ensures { result ≡ is_alone p (to_page self.now n) }
    {
        match self.pages.get(n as usize) {
            Some(by) => is_alone(p, *by),
            None => false,
        }
    }

    /// Whether a process comes to a GPT, and nobody else does.
    pub(crate) fn is_own_gpt(&self, p: u16, g: u16) -> bool
        ensures { result ≡ is_alone p (to_gpt self.now g) }
    {
        is_alone(p, self.to_gpt(g))
    }
}

/// Whether it is this process, and nobody else.
fn is_alone(p: u16, by: ReachedBy) -> bool
    ensures { result ≡ is_alone p by }
{
    match by {
        ReachedBy::Alone(q) => p == q,
        _ => false,
    }
}
