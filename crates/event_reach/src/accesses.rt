//! Accesses of data that are looked at: where they end, by what the translator keeps, and else by a walk.
ghost use Rattle.std.specs.Prelude.{◌≡◌, ◌<◌, ◌%◌, ◌≤◌, ◌+◌, true, Ok, IfSome, IsErr, MatchOption};
ghost use Rattle.cap_format.specs.declared.kind.CapKind.TheVariants.{Page, Process};
ghost use Rattle.object_store.specs.Store.{size_of};
ghost use Rattle.walk_meaning.specs.Walk.{is_data};
ghost use Rattle.machine_state.specs.State.{state_of};
ghost use Rattle.machine_state.specs.DataAccess.{data_access};
ghost use Rattle.event_reach.specs.Looked.{Looked};
ghost use Rattle.event_reach.specs.Reads.{a_walk};

use machine_state::Machine;
use std::sync::ledger::Ledger;
use steps::Steps;
use walk_engine::{Hit, Translator};
use walk_meaning::Kind;

/// The place in a page that a fetch, load or store of a process on this hart will reach, if it reaches one. A page that
/// the translator keeps is not walked to.
#[inline(always)]
pub(crate) fn reach_page<T: Translator, L: Ledger>(
    machine: &mut Machine<T>,
    hart: u8,
    p: u16,
    address: u32,
    kind: Kind,
    fetches: &mut Steps<L>,
) -> Option<Hit>
    requires hart { hart < machine.old.objects.harts }
    requires there { p < size_of machine.old.objects.items Process }
    requires data { is_data kind ≡ true }
    ensures answer { let end = data_access (state_of machine.old) p address kind in
        MatchOption result (IsErr end) (λ hit. end ≡ Ok hit) }
    ensures page { IfSome result (λ hit. hit.page < size_of machine.new.objects.items Page) }
    ensures offset { IfSome result (λ hit. hit.offset ≡ address % 4096) }
    ensures looked { Looked T.kept T.cache hart machine.old machine.new }
    ensures least { fetches.old ≤ fetches.new }
    ensures most { fetches.new ≤ fetches.old + a_walk }
{
    match machine.access_kept(hart, p, address, kind) {
        Some(hit) => Some(hit),
        None => walk_to_page(machine, p, address, kind, fetches),
    }
}

/// The same by a fresh walk, of which no translator is told. It is not inlined, so that where a page is kept there is no
/// room for a fault's handler.
#[inline(never)]
#[tactic(auto, using(walk_meaning::proofs::SlotsLaw::slots_law))]
fn walk_to_page<T: Translator, L: Ledger>(
    machine: &Machine<T>,
    p: u16,
    address: u32,
    kind: Kind,
    fetches: &mut Steps<L>,
) -> Option<Hit>
    requires there { p < size_of machine.now.objects.items Process }
    requires data { is_data kind ≡ true }
    ensures answer { let end = data_access (state_of machine.now) p address kind in
        MatchOption result (IsErr end) (λ hit. end ≡ Ok hit) }
    ensures page { IfSome result (λ hit. hit.page < size_of machine.now.objects.items Page) }
    ensures offset { IfSome result (λ hit. hit.offset ≡ address % 4096) }
    ensures least { fetches.old ≤ fetches.new }
    ensures most { fetches.new ≤ fetches.old + a_walk }
{
    match machine.walk_data(p, address, kind, fetches) {
        Ok(hit) => Some(hit),
        Err(_) => None,
    }
}
