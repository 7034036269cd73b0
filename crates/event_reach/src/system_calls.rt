//! System calls, by their numbers.
ghost use Rattle.std.specs.Prelude.{◌<◌, ◌≤◌, ◌+◌};
ghost use Rattle.cap_format.specs.declared.kind.CapKind.TheVariants.{Process};
ghost use Rattle.object_store.specs.Store.{size_of};
ghost use Rattle.schedules.specs.Queues.{QueuesValue};
ghost use Rattle.machine_state.specs.State.{state_of};
ghost use Rattle.machine_state.specs.Setters.{set_queues};
ghost use Rattle.kernel_core.specs.SystemCall.{copy_cap, system_call};
ghost use Rattle.event_reach.specs.Reach.{names_of, Covers};
ghost use Rattle.event_reach.specs.Reads.{a_message};

use crate::faults::reach_of_fault;
use crate::invoking::reach_of_invoke;
use crate::memory::{reach_of_load_cap, reach_of_store_cap};
use crate::reach::Reach;
use kernel_core::SystemCall;
use machine_state::Machine;
use std::sync::ledger::Ledger;
use steps::Steps;
use walk_engine::Translator;

/// The system call whose number is in x17.
#[tactic(auto, unfolding(kernel_core::specs::SystemCall::system_call), using(crate::proofs::Covering::covers_none))]
pub(crate) fn reach_of_call<T: Translator, L: Ledger>(
    machine: &Machine<T>,
    p: u16,
    fetches: &mut Steps<L>,
) -> Reach
    requires { p < size_of machine.now.objects.items Process }
    ensures covers { (q : QueuesValue) →
        Covers (names_of result) (system_call (set_queues (state_of machine.now) q) p).changed }
    ensures least { fetches.old ≤ fetches.new }
    ensures most { fetches.new ≤ fetches.old + a_message }
{
    let registers = machine.registers(p);
    let (x10, x11) = (registers[10], registers[11]);
    match SystemCall::from_number(registers[17]) {
        None => reach_of_fault(machine, p, None),
        Some(SystemCall::Invoke) => reach_of_invoke(machine, p, fetches),
        Some(SystemCall::LoadCap) => reach_of_load_cap(machine, p, x10, x11, fetches),
        Some(SystemCall::StoreCap) => reach_of_store_cap(machine, p, x10, x11, fetches),
        Some(SystemCall::CopyCap) => reach_of_copy(machine, p, x10, x11),
        Some(SystemCall::Yield) => Reach::Nothing,
    }
}

/// A copycap changes nothing but its process, unless it names no register.
#[tactic(auto, unfolding(kernel_core::specs::SystemCall::copy_cap), using(crate::proofs::Covering::covers_none))]
fn reach_of_copy<T: Translator>(machine: &Machine<T>, p: u16, from: u32, to: u32) -> Reach
    requires { p < size_of machine.now.objects.items Process }
    ensures { (q : QueuesValue) →
        Covers (names_of result) (copy_cap (set_queues (state_of machine.now) q) p from to).changed }
{
    if from <= 31 && to <= 31 {
        Reach::Nothing
    } else {
        reach_of_fault(machine, p, None)
    }
}
