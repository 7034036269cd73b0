//! Operations of the kernel.
ghost use Rattle.std.specs.Prelude.{◌≢◌, ◌<◌, ◌≤◌, ◌+◌, List};
ghost use Rattle.cap_format.specs.declared.kind.CapKind.TheVariants.{Process, Entry};
ghost use Rattle.cap_format.specs.Capability.{Capability, bare};
ghost use Rattle.object_store.specs.Store.{size_of};
ghost use Rattle.object_store.specs.Meaning.{meaning};
ghost use Rattle.schedules.specs.Queues.{QueuesValue};
ghost use Rattle.string_move.specs.declared.piece.Piece.{Piece};
ghost use Rattle.messages.specs.Strings.{string_fault_map};
ghost use Rattle.machine_state.specs.State.{state_of};
ghost use Rattle.machine_state.specs.Setters.{set_queues, advance};
ghost use Rattle.kernel_core.specs.KernelOperation.{memory_op, control_op, kernlog_op, log_string, logged, kernel_op};
ghost use Rattle.event_reach.specs.Reach.{names_of, Covers};
ghost use Rattle.event_reach.specs.Reads.{a_string};

use crate::faults::reach_of_fault;
use crate::reach::Reach;
use crate::strings::walk_string;
use cap_format::{Cap, CapKind};
use invocation::Invocation;
use machine_state::Machine;
use messages::StringFault;
use std::sync::ledger::Ledger;
use steps::Steps;
use walk_engine::Translator;
use walk_meaning::Kind;

/// The request to KernLog that writes to the log.
const LOG: u32 = 8;

/// An operation of the kernel on a capability that is no entry.
#[tactic(auto, unfolding(kernel_core::specs::KernelOperation::kernel_op, kernel_core::specs::KernelOperation::sysctl_op))]
pub(crate) fn reach_of_operation<T: Translator, L: Ledger>(
    machine: &Machine<T>,
    p: u16,
    cap: Cap,
    inv: &Invocation,
    fetches: &mut Steps<L>,
) -> Reach
    requires there { p < size_of machine.now.objects.items Process }
    requires kind { cap.kind ≢ Entry }
    ensures covers { (q : QueuesValue) →
        Covers (names_of result) (kernel_op (set_queues (state_of machine.now) q) p inv.now (bare cap)).changed }
    ensures least { fetches.old ≤ fetches.new }
    ensures most { fetches.new ≤ fetches.old + a_string }
{
    match cap.kind() {
        CapKind::KernLog => reach_of_log(machine, p, inv, fetches),
        CapKind::SysCtl => Reach::Nothing,
        kind => {
            if kind.is_memory() {
                Reach::Object(cap.kind(), cap.object())
            } else {
                reach_of_control(machine, p, cap, inv)
            }
        }
    }
}

/// A request to a capability of one of the kinds that are no memory kinds: the object that it names, and where it is a
/// range, the object of what is sent, which may be destroyed.
fn reach_of_control<T: Translator>(
    machine: &Machine<T>,
    p: u16,
    cap: Cap,
    inv: &Invocation,
) -> Reach
    requires there { p < size_of machine.now.objects.items Process }
    ensures { (q : QueuesValue) → let s = set_queues (state_of machine.now) q in
        Covers (names_of result) (control_op (advance s p) p inv.now (bare cap)).changed }
{
    match cap.kind() {
        CapKind::Range => {
            let sent = machine.request(p, inv).sent;
            Reach::Object(sent.kind(), sent.object())
        }
        _ => Reach::Object(cap.kind(), cap.object()),
    }
}

/// A request to KernLog: nothing but its process changes, unless its string faults. It is walked also where it is no log.
#[tactic(auto, unfolding(kernel_core::specs::KernelOperation::kernlog_op))]
fn reach_of_log<T: Translator, L: Ledger>(
    machine: &Machine<T>,
    p: u16,
    inv: &Invocation,
    fetches: &mut Steps<L>,
) -> Reach
    requires there { p < size_of machine.now.objects.items Process }
    ensures covers { (q : QueuesValue) (c : Capability) →
        Covers (names_of result) (kernlog_op (set_queues (state_of machine.now) q) p inv.now c).changed }
    ensures least { fetches.old ≤ fetches.new }
    ensures most { fetches.new ≤ fetches.old + a_string }
{
    if inv.words()[0] != LOG {
        return Reach::Nothing;
    }
    reach_of_logged(machine, p, inv, fetches)
}

/// A string that is to be logged: the endpoint of whoever hears its fault.
#[tactic(auto, unfolding(kernel_core::specs::KernelOperation::log_string))]
fn reach_of_logged<T: Translator, L: Ledger>(
    machine: &Machine<T>,
    p: u16,
    inv: &Invocation,
    fetches: &mut Steps<L>,
) -> Reach
    requires there { p < size_of machine.now.objects.items Process }
    ensures covers { (q : QueuesValue) →
        Covers (names_of result) (log_string (set_queues (state_of machine.now) q) p inv.now).changed }
    ensures least { fetches.old ≤ fetches.new }
    ensures most { fetches.new ≤ fetches.old + a_string }
{
    let string = walk_string(machine, p, Kind::Load, inv.at(), inv.length(), fetches);
    reach_behind_log(machine, p, inv, string.fault)
}

/// The same behind the accesses, by their fault.
fn reach_behind_log<T: Translator>(
    machine: &Machine<T>,
    p: u16,
    _inv: &Invocation,
    fault: Option<StringFault>,
) -> Reach
    requires { p < size_of machine.now.objects.items Process }
    ensures { let meant = string_fault_map (meaning machine.now.objects.items) fault in
        (q : QueuesValue) (pieces : List Piece) → Covers (names_of result)
        (logged (set_queues (state_of machine.now) q) p _inv.now pieces meant).changed }
{
    match fault {
        Some(fault) => reach_of_fault(machine, p, fault.why.handler),
        None => Reach::Nothing,
    }
}
