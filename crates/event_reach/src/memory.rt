//! Loads and stores, of bytes and of capabilities.
ghost use Rattle.std.specs.Prelude.{◌<◌, ◌≤◌, ◌+◌, ℕ, Bool};
ghost use Rattle.cap_format.specs.declared.kind.CapKind.TheVariants.{Process};
ghost use Rattle.object_store.specs.Store.{size_of};
ghost use Rattle.schedules.specs.Queues.{QueuesValue};
ghost use Rattle.rv32_user.specs.Size.{IsSize};
ghost use Rattle.machine_state.specs.State.{state_of};
ghost use Rattle.machine_state.specs.Setters.{set_queues};
ghost use Rattle.kernel_core.specs.LoadStore.{load, store};
ghost use Rattle.kernel_core.specs.CapTransfer.{load_cap, store_cap};
ghost use Rattle.event_reach.specs.Reach.{names_of, Covers};
ghost use Rattle.event_reach.specs.Reads.{a_walk};

use crate::faults::reach_of_fault;
use crate::reach::Reach;
use cap_format::CapKind;
use machine_state::Machine;
use std::sync::ledger::Ledger;
use steps::Steps;
use walk_engine::Translator;
use walk_meaning::Kind;

/// A load changes nothing but its process, unless it faults.
#[tactic(auto, unfolding(kernel_core::specs::LoadStore::load), using(crate::proofs::Covering::covers_none, walk_meaning::proofs::SlotsLaw::slots_law))]
pub(crate) fn reach_of_load<T: Translator, L: Ledger>(
    machine: &Machine<T>,
    p: u16,
    at: u32,
    size: u8,
    fetches: &mut Steps<L>,
) -> Reach
    requires there { p < size_of machine.now.objects.items Process }
    requires size { IsSize size }
    ensures covers { (q : QueuesValue) (signed : Bool) (rd : ℕ) →
        Covers (names_of result) (load (set_queues (state_of machine.now) q) p at size signed rd).changed }
    ensures least { fetches.old ≤ fetches.new }
    ensures most { fetches.new ≤ fetches.old + a_walk }
{
    if at % u32::from(size) != 0 {
        return reach_of_fault(machine, p, None);
    }
    match machine.walk_data(p, at, Kind::Load, fetches) {
        Ok(_) => Reach::Nothing,
        Err(why) => reach_of_fault(machine, p, why.handler),
    }
}

/// A store: the page that its walk reaches.
#[tactic(auto, unfolding(kernel_core::specs::LoadStore::store), using(crate::proofs::Covering::covers_same, walk_meaning::proofs::SlotsLaw::slots_law))]
pub(crate) fn reach_of_store<T: Translator, L: Ledger>(
    machine: &Machine<T>,
    p: u16,
    at: u32,
    size: u8,
    fetches: &mut Steps<L>,
) -> Reach
    requires there { p < size_of machine.now.objects.items Process }
    requires size { IsSize size }
    ensures covers { (q : QueuesValue) (value : ℕ) →
        Covers (names_of result) (store (set_queues (state_of machine.now) q) p at size value).changed }
    ensures least { fetches.old ≤ fetches.new }
    ensures most { fetches.new ≤ fetches.old + a_walk }
{
    if at % u32::from(size) != 0 {
        return reach_of_fault(machine, p, None);
    }
    match machine.walk_data(p, at, Kind::Store, fetches) {
        Ok(hit) => Reach::Object(CapKind::Page, u32::from(hit.page)),
        Err(why) => reach_of_fault(machine, p, why.handler),
    }
}

/// A loadcap changes nothing but its process, unless it faults.
#[tactic(auto, unfolding(kernel_core::specs::CapTransfer::load_cap), using(crate::proofs::Covering::covers_none, walk_meaning::proofs::SlotsLaw::slots_law))]
pub(crate) fn reach_of_load_cap<T: Translator, L: Ledger>(
    machine: &Machine<T>,
    p: u16,
    at: u32,
    to: u32,
    fetches: &mut Steps<L>,
) -> Reach
    requires { p < size_of machine.now.objects.items Process }
    ensures covers { (q : QueuesValue) →
        Covers (names_of result) (load_cap (set_queues (state_of machine.now) q) p at to).changed }
    ensures least { fetches.old ≤ fetches.new }
    ensures most { fetches.new ≤ fetches.old + a_walk }
{
    if to > 31 {
        return reach_of_fault(machine, p, None);
    }
    if at % 16 != 0 {
        return reach_of_fault(machine, p, None);
    }
    match machine.cap_access(p, at, Kind::CapLoad, fetches) {
        Ok(_) => Reach::Nothing,
        Err(why) => reach_of_fault(machine, p, why.handler),
    }
}

/// A storecap: the capability page that its walk reaches.
#[tactic(auto, unfolding(kernel_core::specs::CapTransfer::store_cap), using(crate::proofs::Covering::covers_same, walk_meaning::proofs::SlotsLaw::slots_law))]
pub(crate) fn reach_of_store_cap<T: Translator, L: Ledger>(
    machine: &Machine<T>,
    p: u16,
    at: u32,
    from: u32,
    fetches: &mut Steps<L>,
) -> Reach
    requires { p < size_of machine.now.objects.items Process }
    ensures covers { (q : QueuesValue) →
        Covers (names_of result) (store_cap (set_queues (state_of machine.now) q) p at from).changed }
    ensures least { fetches.old ≤ fetches.new }
    ensures most { fetches.new ≤ fetches.old + a_walk }
{
    if from > 31 {
        return reach_of_fault(machine, p, None);
    }
    if at % 16 != 0 {
        return reach_of_fault(machine, p, None);
    }
    match machine.cap_access(p, at, Kind::CapStore, fetches) {
        Ok(place) => Reach::Object(CapKind::CapPage, u32::from(place.number)),
        Err(why) => reach_of_fault(machine, p, why.handler),
    }
}
