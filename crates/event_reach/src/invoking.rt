//! Call 0: an operation of the kernel, or the phases of a message.
ghost use Rattle.std.specs.Prelude.{◌<◌, ◌≤◌, ◌≡◌, ◌+◌, Ok};
ghost use Rattle.cap_format.specs.declared.kind.CapKind.TheVariants.{Process};
ghost use Rattle.object_store.specs.Store.{size_of};
ghost use Rattle.schedules.specs.Queues.{QueuesValue};
ghost use Rattle.machine_state.specs.State.{state_of};
ghost use Rattle.machine_state.specs.Setters.{set_queues};
ghost use Rattle.kernel_core.specs.SystemCall.{send, received_after, invoke};
ghost use Rattle.event_reach.specs.Reach.{names_of, Covers};
ghost use Rattle.event_reach.specs.Reads.{a_message};

use crate::faults::reach_of_fault;
use crate::operating::reach_of_operation;
use crate::reach::Reach;
use crate::sending::reach_of_message;
use invocation::{Callee, Invocation, parse};
use machine_state::Machine;
use std::sync::ledger::Ledger;
use steps::Steps;
use walk_engine::Translator;

/// An invocation, whatever phases it has. A receive phase changes processes alone.
#[tactic(auto, unfolding(kernel_core::specs::SystemCall::invoke, messages::specs::Waiting::listen, messages::specs::Fault::fault), using(crate::proofs::Covering::covers_processes, crate::proofs::Covering::covers_received))]
pub(crate) fn reach_of_invoke<T: Translator, L: Ledger>(
    machine: &Machine<T>,
    p: u16,
    fetches: &mut Steps<L>,
) -> Reach
    requires { p < size_of machine.now.objects.items Process }
    ensures covers { (q : QueuesValue) →
        Covers (names_of result) (invoke (set_queues (state_of machine.now) q) p).changed }
    ensures least { fetches.old ≤ fetches.new }
    ensures most { fetches.new ≤ fetches.old + a_message }
{
    match parse(machine.registers(p)) {
        Err(_) => reach_of_fault(machine, p, None),
        Ok(inv) => {
            if inv.send() {
                reach_of_send(machine, p, &inv, fetches)
            } else {
                Reach::Nothing
            }
        }
    }
}

/// The send phase of an invocation, by who answers.
#[tactic(auto, unfolding(kernel_core::specs::SystemCall::send, messages::specs::Waiting::wait_on), using(crate::proofs::Covering::covers_none))]
fn reach_of_send<T: Translator, L: Ledger>(
    machine: &Machine<T>,
    p: u16,
    inv: &Invocation,
    fetches: &mut Steps<L>,
) -> Reach
    requires { p < size_of machine.now.objects.items Process }
    ensures covers { (q : QueuesValue) →
        Covers (names_of result) (send (set_queues (state_of machine.now) q) p inv.now).outcome.changed }
    ensures least { fetches.old ≤ fetches.new }
    ensures most { fetches.new ≤ fetches.old + a_message }
{
    match machine.callee(p, inv.capreg()) {
        Callee::Kernel(cap) => reach_of_operation(machine, p, cap, inv, fetches),
        Callee::Open { endpoint, process } => {
            reach_of_message(machine, p, inv, endpoint, process, fetches)
        }
        Callee::Busy(_) | Callee::Dead => Reach::Nothing,
    }
}
