//! System calls, by their numbers.
ghost use Rattle.std.specs.Prelude.{◌≡◌, ◌<◌, ◌∷◌};
ghost use Rattle.cap_format.specs.declared.kind.CapKind.TheVariants.{Process};
ghost use Rattle.object_store.specs.Store.{size_of};
ghost use Rattle.machine_state.specs.State.{state_of, IsOnHart};
ghost use Rattle.machine_state.specs.Outcome.{process_name};
ghost use Rattle.machine_state.specs.Came.{Came, Leaves};
ghost use Rattle.machine_state.specs.Room.{HasRoom, call_room};
ghost use Rattle.kernel_core.specs.SystemCall.{call_with, copy_cap, move_cap, system_call};

use crate::cap_accesses::{load_cap, store_cap};
use crate::invoking::invoke;
use machine_state::{Machine, Observer};
use messages::malformed;
use std::sync::ledger::Ledger;
use steps::Steps;
use walk_engine::Translator;

/// What a process asks of the kernel with ECALL.
#[derive(Clone, Copy)]
pub enum SystemCall {
    /// 0: the phases of a message, or an operation of the kernel.
    Invoke,
    /// 1: a capability is read through the space.
    LoadCap,
    /// 2: a capability is written through the space.
    StoreCap,
    /// 3: a capability goes from one register to another.
    CopyCap,
    /// 4: the process gives way.
    Yield,
}

impl SystemCall {
    /// The call with this number in x17, if there is one.
    pub fn from_number(number: u32) -> Option<SystemCall>
        ensures { result ≡ call_with number }
    {
        match number {
            0 => Some(SystemCall::Invoke),
            1 => Some(SystemCall::LoadCap),
            2 => Some(SystemCall::StoreCap),
            3 => Some(SystemCall::CopyCap),
            4 => Some(SystemCall::Yield),
            _ => None,
        }
    }
}

/// The system call whose number is in x17.
#[tactic(auto, unfolding(crate::specs::SystemCall::system_call))]
#[inline(never)]
pub(crate) fn system_call<T: Translator, O: Observer, L: Ledger>(
    machine: &mut Machine<T>,
    p: u16,
    observer: &mut O,
    fetches: &mut Steps<L>,
)
    requires there { p < size_of machine.old.objects.items Process }
    requires on_hart { IsOnHart machine.old.queues p }
    requires room { HasRoom call_room (O.told observer.old) }
    ensures came { let outcome = system_call (state_of machine.old) p in
        Came T.Translator O.Observer p outcome
        machine.old observer.old fetches.old machine.new observer.new fetches.new }
    ensures leaves { let outcome = system_call (state_of machine.old) p in
        Leaves (process_name p ∷ outcome.changed) machine.old machine.new }
{
    let registers = machine.registers(p);
    let (x10, x11) = (registers[10], registers[11]);
    match SystemCall::from_number(registers[17]) {
        None => malformed(machine, p, observer, fetches),
        Some(SystemCall::Invoke) => invoke(machine, p, observer, fetches),
        Some(SystemCall::LoadCap) => load_cap(machine, p, observer, x10, x11, fetches),
        Some(SystemCall::StoreCap) => store_cap(machine, p, observer, x10, x11, fetches),
        Some(SystemCall::CopyCap) => copy_cap(machine, p, observer, x10, x11, fetches),
        Some(SystemCall::Yield) => machine.give_way(p),
    }
}

/// The system calls 1 to 3, which move a capability: any other number is no call.
#[tactic(auto, unfolding(crate::specs::SystemCall::system_call, crate::specs::SystemCall::move_cap))]
pub fn move_cap<T: Translator, O: Observer, L: Ledger>(
    machine: &mut Machine<T>,
    p: u16,
    observer: &mut O,
    fetches: &mut Steps<L>,
)
    requires there { p < size_of machine.old.objects.items Process }
    requires on_hart { IsOnHart machine.old.queues p }
    requires room { HasRoom call_room (O.told observer.old) }
    ensures came { let outcome = move_cap (state_of machine.old) p in
        Came T.Translator O.Observer p outcome
        machine.old observer.old fetches.old machine.new observer.new fetches.new }
    ensures leaves { let outcome = move_cap (state_of machine.old) p in
        Leaves (process_name p ∷ outcome.changed) machine.old machine.new }
{
    match SystemCall::from_number(machine.registers(p)[17]) {
        None | Some(SystemCall::Invoke | SystemCall::Yield) => {
            malformed(machine, p, observer, fetches)
        }
        Some(SystemCall::LoadCap | SystemCall::StoreCap | SystemCall::CopyCap) => {
            system_call(machine, p, observer, fetches)
        }
    }
}

/// The capability of one register goes to another, where both are registers.
#[tactic(auto, unfolding(crate::specs::SystemCall::copy_cap), using(object_store::proofs::Stays::stays_then))]
fn copy_cap<T: Translator, O: Observer, L: Ledger>(
    machine: &mut Machine<T>,
    p: u16,
    observer: &mut O,
    from: u32,
    to: u32,
    fetches: &mut Steps<L>,
)
    requires there { p < size_of machine.old.objects.items Process }
    requires on_hart { IsOnHart machine.old.queues p }
    requires room { HasRoom 1 (O.told observer.old) }
    ensures came { let outcome = copy_cap (state_of machine.old) p from to in
        Came T.Translator O.Observer p outcome
        machine.old observer.old fetches.old machine.new observer.new fetches.new }
    ensures leaves { let outcome = copy_cap (state_of machine.old) p from to in
        Leaves (process_name p ∷ outcome.changed) machine.old machine.new }
{
    if from <= 31 && to <= 31 {
        let cap = machine.capability(p, from as u8);
        machine.give_capability(p, to as u8, cap);
        machine.advance(p);
    } else {
        malformed(machine, p, observer, fetches);
    }
}
