//! Operations of the kernel, with their replies: those on memory kinds, and the choice of the others.
ghost use Rattle.std.specs.Prelude.{◌≡◌, ◌≢◌, ◌<◌, ◌∷◌, true, Ok};
ghost use Rattle.cap_format.specs.declared.kind.CapKind.TheVariants.{Process, Entry};
ghost use Rattle.cap_format.specs.Kind.{is_memory};
ghost use Rattle.cap_format.specs.Capability.{bare};
ghost use Rattle.object_store.specs.Store.{size_of};
ghost use Rattle.object_store.specs.Meaning.{is_live};
ghost use Rattle.invocation.specs.Invocation.{parsed};
ghost use Rattle.machine_state.specs.State.{state_of, process, IsOnHart};
ghost use Rattle.machine_state.specs.Setters.{advance};
ghost use Rattle.machine_state.specs.Outcome.{process_name};
ghost use Rattle.machine_state.specs.Came.{Came, Leaves};
ghost use Rattle.machine_state.specs.Room.{HasRoom, call_room};
ghost use Rattle.kernel_core.specs.KernelOperation.{memory_op, kernel_op};

use crate::controlling::control_op;
use crate::halting::sysctl_op;
use crate::logging::kernlog_op;
use cap_format::{Cap, CapKind};
use invocation::Invocation;
use machine_state::{Machine, Observer};
use std::sync::ledger::Ledger;
use steps::Steps;
use walk_engine::Translator;

/// An operation of the kernel on a capability that is no entry, with its reply.
#[tactic(auto, unfolding(crate::specs::KernelOperation::kernel_op))]
pub fn kernel_op<T: Translator, O: Observer, L: Ledger>(
    machine: &mut Machine<T>,
    p: u16,
    observer: &mut O,
    cap: Cap,
    inv: &Invocation,
    fetches: &mut Steps<L>,
)
    requires there { p < size_of machine.old.objects.items Process }
    requires on_hart { IsOnHart machine.old.queues p }
    requires room { HasRoom call_room (O.told observer.old) }
    requires live { is_live machine.old.objects.items cap ≡ true }
    requires kind { cap.kind ≢ Entry }
    requires inv { parsed (process (state_of machine.old) p).regs ≡ Ok inv.now }
    ensures came { let outcome = kernel_op (state_of machine.old) p inv.now (bare cap) in
        Came T.Translator O.Observer p outcome
        machine.old observer.old fetches.old machine.new observer.new fetches.new }
    ensures leaves { let outcome = kernel_op (state_of machine.old) p inv.now (bare cap) in
        Leaves (process_name p ∷ outcome.changed) machine.old machine.new }
{
    match cap.kind() {
        CapKind::KernLog => kernlog_op(machine, p, observer, cap, inv, fetches),
        CapKind::SysCtl => sysctl_op(machine, p, observer, cap, inv, fetches),
        kind => {
            if kind.is_memory() {
                memory_op(machine, p, observer, cap, inv, fetches);
            } else {
                control_op(machine, p, observer, cap, inv, fetches);
            }
        }
    }
}

/// A request to a capability of a memory kind.
#[tactic(auto, using(machine_state::proofs::Changed::stays_around))]
fn memory_op<T: Translator, O: Observer, L: Ledger>(
    machine: &mut Machine<T>,
    p: u16,
    observer: &mut O,
    cap: Cap,
    inv: &Invocation,
    fetches: &mut Steps<L>,
)
    requires there { p < size_of machine.old.objects.items Process }
    requires live { is_live machine.old.objects.items cap ≡ true }
    requires kind { is_memory cap.kind ≡ true }
    ensures came { let outcome =
        memory_op (advance (state_of machine.old) p) p inv.now (bare cap) in
        Came T.Translator O.Observer p outcome
        machine.old observer.old fetches.old machine.new observer.new fetches.new }
    ensures leaves { let outcome =
        memory_op (advance (state_of machine.old) p) p inv.now (bare cap) in
        Leaves (process_name p ∷ outcome.changed) machine.old machine.new }
{
    let _ = observer;
    machine.advance(p);
    let request = machine.request(p, inv);
    let reply = machine.operate(cap, request, fetches);
    machine.reply(p, inv.accept(), reply);
}
