//! Stores.
ghost use Rattle.std.specs.Prelude.{◌≡◌, ◌<◌, ◌≤◌, ◌+◌, ◌*◌, ◌%◌, ◌==◌, ◌^◌, ◌∷◌, true, Some, Ok};
ghost use Rattle.cap_format.specs.declared.kind.CapKind.TheVariants.{Process};
ghost use Rattle.object_store.specs.Store.{size_of};
ghost use Rattle.schedules.specs.Queues.{hart_of};
ghost use Rattle.rv32_user.specs.Size.{IsSize};
ghost use Rattle.machine_state.specs.State.{state_of, IsOnHart};
ghost use Rattle.machine_state.specs.Outcome.{process_name};
ghost use Rattle.machine_state.specs.Came.{Came, CameUnasked, Leaves};
ghost use Rattle.machine_state.specs.Room.{HasRoom};
ghost use Rattle.kernel_core.specs.LoadStore.{store, stored_to};

use crate::loads::is_aligned;
use cap_format::CapKind;
use machine_state::{Machine, Observer};
use messages::{fault, misaligned};
use std::sync::ledger::Ledger;
use steps::Steps;
use walk_engine::{Hit, Translator};
use walk_meaning::Kind;

/// A store of the lowest bytes of a number. Nothing is written before the walk has reached a page, and a page that is kept
/// is asked for first.
#[tactic(auto, unfolding(crate::specs::LoadStore::store))]
pub(crate) fn store<T: Translator, O: Observer, L: Ledger>(
    machine: &mut Machine<T>,
    hart: u8,
    p: u16,
    observer: &mut O,
    at: u32,
    size: u8,
    value: u32,
    fetches: &mut Steps<L>,
)
    requires there { p < size_of machine.old.objects.items Process }
    requires on_hart { IsOnHart machine.old.queues p }
    requires hart { hart < machine.old.objects.harts }
    requires here { hart_of machine.old.queues hart ≡ Some p }
    requires size { IsSize size }
    requires fits { value < 2 ^ (8 * size) }
    requires room { HasRoom 1 (O.told observer.old) }
    ensures came { let outcome = store (state_of machine.old) p at size value in
        Came T.Translator O.Observer p outcome
        machine.old observer.old fetches.old machine.new observer.new fetches.new }
    ensures leaves { let outcome = store (state_of machine.old) p at size value in
        Leaves (process_name p ∷ outcome.changed) machine.old machine.new }
{
    if !is_aligned(at, size) {
        return misaligned(machine, p, observer, at, fetches);
    }
    match machine.access_kept(hart, p, at, Kind::Store) {
        Some(hit) => stored_to(machine, p, observer, at, size, value, hit),
        None => store_anew(machine, hart, p, observer, at, size, value, fetches),
    }
}

/// The same at an address that is aligned, where its page is not kept. It is not inlined, so that a store whose page is kept
/// has no room for a fault's handler.
#[inline(never)]
#[tactic(auto, unfolding(crate::specs::LoadStore::store))]
fn store_anew<T: Translator, O: Observer, L: Ledger>(
    machine: &mut Machine<T>,
    hart: u8,
    p: u16,
    observer: &mut O,
    at: u32,
    size: u8,
    value: u32,
    fetches: &mut Steps<L>,
)
    requires there { p < size_of machine.old.objects.items Process }
    requires on_hart { IsOnHart machine.old.queues p }
    requires hart { hart < machine.old.objects.harts }
    requires here { hart_of machine.old.queues hart ≡ Some p }
    requires size { IsSize size }
    requires fits { value < 2 ^ (8 * size) }
    requires aligned { (at % size == 0) ≡ true }
    requires room { HasRoom 1 (O.told observer.old) }
    ensures came { let outcome = store (state_of machine.old) p at size value in
        Came T.Translator O.Observer p outcome
        machine.old observer.old fetches.old machine.new observer.new fetches.new }
    ensures leaves { let outcome = store (state_of machine.old) p at size value in
        Leaves (process_name p ∷ outcome.changed) machine.old machine.new }
{
    match machine.access_on(hart, p, at, Kind::Store, fetches) {
        Ok(hit) => stored_to(machine, p, observer, at, size, value, hit),
        Err(why) => fault(machine, p, observer, why.code, at, why.handler, fetches),
    }
}

/// The end of a store whose walk reached a page.
#[tactic(auto, using(object_store::proofs::Stays::stays_then, object_store::proofs::Stays::stays_more, object_store::proofs::Stays::stays_after))]
fn stored_to<T: Translator, O: Observer>(
    machine: &mut Machine<T>,
    p: u16,
    observer: &mut O,
    at: u32,
    size: u8,
    value: u32,
    hit: Hit,
)
    requires there { p < size_of machine.old.objects.items Process }
    requires page { hit.page < size_of machine.old.objects.items CapKind.Page }
    requires size { IsSize size }
    requires within { hit.offset + size ≤ 4096 }
    requires fits { value < 2 ^ (8 * size) }
    requires room { HasRoom 1 (O.told observer.old) }
    ensures came { let outcome = stored_to (state_of machine.old) p at size value (Ok hit) in
        CameUnasked O.Observer outcome machine.old observer.old machine.new observer.new }
    ensures leaves { let outcome = stored_to (state_of machine.old) p at size value (Ok hit) in
        Leaves (process_name p ∷ outcome.changed) machine.old machine.new }
{
    observer.access(p, Kind::Store, at, hit.page);
    machine.write_number(hit, size, value);
    machine.advance(p);
}
