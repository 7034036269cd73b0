//! What is kept of looks whether steps are quiet.
ghost use Rattle.std.specs.Prelude.{◌≡◌, ◌+◌, ◌*◌, ◌≤◌, IfOk, None};
ghost use Rattle.cap_format.specs.declared.kind.CapKind.TheVariants.{Gpt};
ghost use Rattle.object_store.specs.Meaning.{state_map};
ghost use Rattle.object_store.specs.Store.{size_of};
ghost use Rattle.quiet_finding.specs.Reaching.{IsReaching};

use cap_format::OutOfMemory;
use object_store::Objects;
use quiet_finding::{KeptReaching, KeptWalks};
use std::alloc::Global;
use std::sync::ledger::Ledger;
use steps::Steps;

/// What the looks of one run leave to those of the next. Nothing depends on what they are: each run asks anew whether who came
/// to what still holds, and forgets the walks of the one before.
#[derive(Drop)]
pub struct Looks {
    /// Who came to what in the last of them.
    pub reaching: Option<KeptReaching>,
    /// Walks hold for one process in one run: only instructions outlast it.
    pub walks: KeptWalks,
}

impl Looks {
    /// Nothing is kept.
    pub fn new() -> Looks
        ensures reaching { result.reaching ≡ None }
        ensures fetch { result.walks.fetch ≡ None }
        ensures load { result.walks.load ≡ None }
        ensures store { result.walks.store ≡ None }
    {
        Looks {
            reaching: None,
            walks: KeptWalks::new(),
        }
    }
}

/// Who comes to what in these objects: what was kept, where their capabilities lead to the same.
pub(crate) fn kept_of<L: Ledger>(
    alloc: Global,
    kept: Option<KeptReaching>,
    objects: &Objects,
    fetches: &mut Steps<L>,
) -> Result<KeptReaching, OutOfMemory>
    ensures reaching { IfOk result (λ kept. IsReaching (state_map objects.now) kept.reaching) }
    ensures least { fetches.old ≤ fetches.new }
    ensures most { let gpts = size_of objects.now.items Gpt in
        fetches.new ≤ fetches.old + (16 * gpts + 16 * gpts * (gpts + 3)) }
{
    if let Some(last) = kept {
        if last.is_of(objects, fetches) {
            return Ok(last);
        }
    }
    KeptReaching::new(alloc, objects, fetches)
}
