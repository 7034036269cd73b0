//! Loads.
ghost use Rattle.std.specs.Prelude.{◌≡◌, ◌<◌, ◌≤◌, ◌+◌, ◌%◌, ◌==◌, ◌∷◌, true, Some, Ok};
ghost use Rattle.cap_format.specs.declared.kind.CapKind.TheVariants.{Process};
ghost use Rattle.object_store.specs.Store.{size_of};
ghost use Rattle.schedules.specs.Queues.{hart_of};
ghost use Rattle.rv32_user.specs.Size.{IsSize};
ghost use Rattle.machine_state.specs.State.{state_of, IsOnHart};
ghost use Rattle.machine_state.specs.Outcome.{process_name};
ghost use Rattle.machine_state.specs.Came.{Came, CameUnasked, Leaves};
ghost use Rattle.machine_state.specs.Room.{HasRoom};
ghost use Rattle.kernel_core.specs.LoadStore.{load, loaded_from};

use cap_format::CapKind;
use machine_state::{Machine, Observer};
use messages::{fault, misaligned};
use rv32_user::extended;
use std::sync::ledger::Ledger;
use steps::Steps;
use walk_engine::{Hit, Translator};
use walk_meaning::Kind;

/// A load as an instruction asks for it.
#[derive(Clone, Copy)]
pub(crate) struct Wanted {
    /// The address of the first byte.
    pub at: u32,
    /// 1, 2 or 4 bytes.
    pub size: u8,
    pub signed: bool,
    /// The register that the number goes to.
    pub rd: u8,
}

/// A load. An address that is no multiple of the size is not walked. A page that is kept is asked for first.
#[tactic(auto, unfolding(crate::specs::LoadStore::load))]
pub(crate) fn load<T: Translator, O: Observer, L: Ledger>(
    machine: &mut Machine<T>,
    hart: u8,
    p: u16,
    observer: &mut O,
    wanted: Wanted,
    fetches: &mut Steps<L>,
)
    requires there { p < size_of machine.old.objects.items Process }
    requires on_hart { IsOnHart machine.old.queues p }
    requires hart { hart < machine.old.objects.harts }
    requires here { hart_of machine.old.queues hart ≡ Some p }
    requires size { IsSize wanted.size }
    requires register { wanted.rd < 32 }
    requires room { HasRoom 1 (O.told observer.old) }
    ensures came { let outcome =
        load (state_of machine.old) p wanted.at wanted.size wanted.signed wanted.rd in
        Came T.Translator O.Observer p outcome
        machine.old observer.old fetches.old machine.new observer.new fetches.new }
    ensures leaves { let outcome =
        load (state_of machine.old) p wanted.at wanted.size wanted.signed wanted.rd in
        Leaves (process_name p ∷ outcome.changed) machine.old machine.new }
{
    let at = wanted.at;
    if !is_aligned(at, wanted.size) {
        return misaligned(machine, p, observer, at, fetches);
    }
    match machine.access_kept(hart, p, at, Kind::Load) {
        Some(hit) => loaded_from(machine, p, observer, wanted, hit),
        None => load_anew(machine, hart, p, observer, wanted, fetches),
    }
}

/// The same at an address that is aligned, where its page is not kept. It is not inlined, so that a load whose page is kept
/// has no room for a fault's handler.
#[inline(never)]
#[tactic(auto, unfolding(crate::specs::LoadStore::load))]
fn load_anew<T: Translator, O: Observer, L: Ledger>(
    machine: &mut Machine<T>,
    hart: u8,
    p: u16,
    observer: &mut O,
    wanted: Wanted,
    fetches: &mut Steps<L>,
)
    requires there { p < size_of machine.old.objects.items Process }
    requires on_hart { IsOnHart machine.old.queues p }
    requires hart { hart < machine.old.objects.harts }
    requires here { hart_of machine.old.queues hart ≡ Some p }
    requires size { IsSize wanted.size }
    requires register { wanted.rd < 32 }
    requires aligned { (wanted.at % wanted.size == 0) ≡ true }
    requires room { HasRoom 1 (O.told observer.old) }
    ensures came { let outcome =
        load (state_of machine.old) p wanted.at wanted.size wanted.signed wanted.rd in
        Came T.Translator O.Observer p outcome
        machine.old observer.old fetches.old machine.new observer.new fetches.new }
    ensures leaves { let outcome =
        load (state_of machine.old) p wanted.at wanted.size wanted.signed wanted.rd in
        Leaves (process_name p ∷ outcome.changed) machine.old machine.new }
{
    let at = wanted.at;
    match machine.access_on(hart, p, at, Kind::Load, fetches) {
        Ok(hit) => loaded_from(machine, p, observer, wanted, hit),
        Err(why) => fault(machine, p, observer, why.code, at, why.handler, fetches),
    }
}

/// The end of a load whose walk reached a page.
#[tactic(auto, unfolding(rv32_user::specs::Step::loaded), using(object_store::proofs::Stays::stays_then))]
fn loaded_from<T: Translator, O: Observer>(
    machine: &mut Machine<T>,
    p: u16,
    observer: &mut O,
    wanted: Wanted,
    hit: Hit,
)
    requires there { p < size_of machine.old.objects.items Process }
    requires page { hit.page < size_of machine.old.objects.items CapKind.Page }
    requires size { IsSize wanted.size }
    requires within { hit.offset + wanted.size ≤ 4096 }
    requires register { wanted.rd < 32 }
    requires room { HasRoom 1 (O.told observer.old) }
    ensures came { let outcome =
        loaded_from (state_of machine.old) p wanted.at wanted.size wanted.signed wanted.rd
        (Ok hit) in
        CameUnasked O.Observer outcome machine.old observer.old machine.new observer.new }
    ensures leaves { let outcome =
        loaded_from (state_of machine.old) p wanted.at wanted.size wanted.signed wanted.rd
        (Ok hit) in
        Leaves (process_name p ∷ outcome.changed) machine.old machine.new }
{
    observer.access(p, Kind::Load, wanted.at, hit.page);
    let value = machine.number_at(hit, wanted.size);
    let word = extended(wanted.size, wanted.signed, value);
    machine.set_register(p, wanted.rd, word);
    machine.advance(p);
}

/// Whether an address is a multiple of the size, 1, 2 or 4, of what is accessed there.
pub(crate) fn is_aligned(at: u32, size: u8) -> bool
    requires { IsSize size }
    ensures { result ≡ (at % size == 0) }
{
    at % size as u32 == 0
}
