//! What an object holds.
ghost use Rattle.std.specs.Prelude.{◌≡◌, ◌<◌, ◌≤◌, ◌+◌};
ghost use Rattle.object_store.specs.Store.{size_of};
ghost use Rattle.object_store.specs.Meaning.{state_map};
ghost use Rattle.object_store.specs.Places.{cap_in, object_reads, places_in, reads_in};
ghost use Rattle.quiet_runs.specs.Reaching.{names};
ghost use Rattle.questions.specs.Atom.{is_held, object_holds};

use crate::atom::Holding;
use bitflags::Flags;
use cap_format::{Cap, CapKind, Restr};
use object_store::{Objects, cap_in, places};
use std::sync::ledger::Ledger;
use steps::Steps;

/// Whether a capability names an object; an entry names its endpoint.
fn names_object(cap: Cap, of: CapKind, named: u16) -> bool
    ensures { result ≡ names cap of named }
{
    let kind = cap.kind();
    kind.is_counted() && kind.object_kind() == of && cap.object() == named as u32
}

/// Whether a capability is what is asked for.
fn is_held(cap: Cap, holding: Holding) -> bool
    ensures { result ≡ is_held holding cap }
{
    match holding {
        Holding::Object { of, named } => names_object(cap, of, named),
        Holding::Writable { of, named } => {
            names_object(cap, of, named) && !cap.restr().contains(Restr::RO)
        }
        Holding::Kind { of } => cap.kind() == of,
    }
}

/// Whether the capability in a place of an object is, where it is live.
fn place_holds<L: Ledger>(
    objects: &Objects,
    kind: CapKind,
    n: u16,
    i: u16,
    holding: Holding,
    fetches: &mut Steps<L>,
) -> bool
    requires there { n < size_of objects.now.items kind }
    requires place { i < places_in kind }
    ensures value { result ≡ is_held holding (cap_in (state_map objects.now) kind n i) }
    ensures counted { fetches.new ≡ fetches.old + reads_in kind }
{
    is_held(objects.live(cap_in(objects, kind, n, i, fetches)), holding)
}

/// Whether an object holds, in any of its places, a live capability that is what is asked for. Each slot of a GPT is read
/// once at most.
pub(crate) fn object_holds<L: Ledger>(
    objects: &Objects,
    kind: CapKind,
    n: u16,
    holding: Holding,
    fetches: &mut Steps<L>,
) -> bool
    requires { n < size_of objects.now.items kind }
    ensures value { result ≡ object_holds (state_map objects.now) kind n holding }
    ensures least { fetches.old ≤ fetches.new }
    ensures most { fetches.new ≤ fetches.old + object_reads kind }
{
    'each: for i in 0..places(kind) {
        if place_holds(objects, kind, n, i, holding, fetches) {
            return true;
        }
    }
    false
}
