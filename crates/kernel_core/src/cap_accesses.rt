//! Loads and stores of capabilities.
ghost use Rattle.std.specs.Prelude.{◌<◌, ◌≤◌, ◌∷◌, Ok};
ghost use Rattle.cap_format.specs.declared.kind.CapKind.TheVariants.{Process};
ghost use Rattle.object_store.specs.Store.{size_of};
ghost use Rattle.machine_state.specs.State.{state_of, IsOnHart};
ghost use Rattle.machine_state.specs.Outcome.{process_name};
ghost use Rattle.machine_state.specs.Came.{Came, CameUnasked, Leaves};
ghost use Rattle.machine_state.specs.Room.{HasRoom};
ghost use Rattle.kernel_core.specs.CapTransfer.{load_cap, cap_loaded_from, store_cap, cap_stored_to};

use cap_format::CapKind;
use machine_state::{Machine, Observer};
use messages::{fault, malformed, misaligned};
use std::sync::ledger::Ledger;
use steps::Steps;
use walk_engine::Translator;
use walk_meaning::{Kind, Place};

/// Loadcap: the capability at an address goes to a register. What is no register comes before the alignment, and that
/// before the walk.
#[tactic(auto, unfolding(crate::specs::CapTransfer::load_cap))]
pub(crate) fn load_cap<T: Translator, O: Observer, L: Ledger>(
    machine: &mut Machine<T>,
    p: u16,
    observer: &mut O,
    at: u32,
    to: u32,
    fetches: &mut Steps<L>,
)
    requires there { p < size_of machine.old.objects.items Process }
    requires on_hart { IsOnHart machine.old.queues p }
    requires room { HasRoom 1 (O.told observer.old) }
    ensures came { let outcome = load_cap (state_of machine.old) p at to in
        Came T.Translator O.Observer p outcome
        machine.old observer.old fetches.old machine.new observer.new fetches.new }
    ensures leaves { let outcome = load_cap (state_of machine.old) p at to in
        Leaves (process_name p ∷ outcome.changed) machine.old machine.new }
{
    if to > 31 {
        return malformed(machine, p, observer, fetches);
    }
    if at % 16 != 0 {
        return misaligned(machine, p, observer, at, fetches);
    }
    match machine.cap_access(p, at, Kind::CapLoad, fetches) {
        Ok(place) => cap_loaded_from(machine, p, observer, at, to as u8, place),
        Err(why) => fault(machine, p, observer, why.code, at, why.handler, fetches),
    }
}

/// The end of a loadcap whose walk reached a slot.
#[tactic(auto, using(object_store::proofs::Stays::stays_then))]
fn cap_loaded_from<T: Translator, O: Observer>(
    machine: &mut Machine<T>,
    p: u16,
    observer: &mut O,
    at: u32,
    to: u8,
    place: Place,
)
    requires there { p < size_of machine.old.objects.items Process }
    requires page { place.number < size_of machine.old.objects.items CapKind.CapPage }
    requires within { place.offset < 4096 }
    requires register { to ≤ 31 }
    requires room { HasRoom 1 (O.told observer.old) }
    ensures came { let outcome = cap_loaded_from (state_of machine.old) p at to (Ok place) in
        CameUnasked O.Observer outcome machine.old observer.old machine.new observer.new }
    ensures leaves { let outcome = cap_loaded_from (state_of machine.old) p at to (Ok place) in
        Leaves (process_name p ∷ outcome.changed) machine.old machine.new }
{
    observer.access(p, Kind::CapLoad, at, place.number);
    let cap = machine.cap_at(place);
    machine.give_capability(p, to, cap);
    machine.advance(p);
}

/// Storecap: the capability of a register goes to an address, with the same tests in the same order.
#[tactic(auto, unfolding(crate::specs::CapTransfer::store_cap))]
pub(crate) fn store_cap<T: Translator, O: Observer, L: Ledger>(
    machine: &mut Machine<T>,
    p: u16,
    observer: &mut O,
    at: u32,
    from: u32,
    fetches: &mut Steps<L>,
)
    requires there { p < size_of machine.old.objects.items Process }
    requires on_hart { IsOnHart machine.old.queues p }
    requires room { HasRoom 1 (O.told observer.old) }
    ensures came { let outcome = store_cap (state_of machine.old) p at from in
        Came T.Translator O.Observer p outcome
        machine.old observer.old fetches.old machine.new observer.new fetches.new }
    ensures leaves { let outcome = store_cap (state_of machine.old) p at from in
        Leaves (process_name p ∷ outcome.changed) machine.old machine.new }
{
    if from > 31 {
        return malformed(machine, p, observer, fetches);
    }
    if at % 16 != 0 {
        return misaligned(machine, p, observer, at, fetches);
    }
    match machine.cap_access(p, at, Kind::CapStore, fetches) {
        Ok(place) => cap_stored_to(machine, p, observer, at, from as u8, place),
        Err(why) => fault(machine, p, observer, why.code, at, why.handler, fetches),
    }
}

/// The end of a storecap whose walk reached a slot.
#[tactic(auto, using(object_store::proofs::Stays::stays_then, object_store::proofs::Stays::stays_more, object_store::proofs::Stays::stays_after))]
fn cap_stored_to<T: Translator, O: Observer>(
    machine: &mut Machine<T>,
    p: u16,
    observer: &mut O,
    at: u32,
    from: u8,
    place: Place,
)
    requires there { p < size_of machine.old.objects.items Process }
    requires page { place.number < size_of machine.old.objects.items CapKind.CapPage }
    requires within { place.offset < 4096 }
    requires register { from ≤ 31 }
    requires room { HasRoom 1 (O.told observer.old) }
    ensures came { let outcome = cap_stored_to (state_of machine.old) p at from (Ok place) in
        CameUnasked O.Observer outcome machine.old observer.old machine.new observer.new }
    ensures leaves { let outcome = cap_stored_to (state_of machine.old) p at from (Ok place) in
        Leaves (process_name p ∷ outcome.changed) machine.old machine.new }
{
    observer.access(p, Kind::CapStore, at, place.number);
    let cap = machine.capability(p, from);
    machine.put_cap(place, cap);
    machine.advance(p);
}
