//! Call 0: an operation of the kernel, or the phases of a message.
ghost use Rattle.std.specs.Prelude.{◌≡◌, ◌<◌, [], ◌∷◌, true, Ok};
ghost use Rattle.cap_format.specs.declared.kind.CapKind.TheVariants.{Process};
ghost use Rattle.object_store.specs.Store.{size_of};
ghost use Rattle.invocation.specs.Invocation.{parsed};
ghost use Rattle.invocation.specs.Target.{bare_callee, IsReached};
ghost use Rattle.machine_state.specs.State.{state_of, process, IsOnHart};
ghost use Rattle.machine_state.specs.Outcome.{process_name};
ghost use Rattle.machine_state.specs.Came.{Came, Leaves};
ghost use Rattle.machine_state.specs.Room.{HasRoom, call_room};
ghost use Rattle.kernel_core.specs.SystemCall.{invoke, received_after, refused_call, busy_call, sent_to, send};

use crate::answering::answer_call;
use crate::operating::kernel_op;
use cap_format::Code;
use invocation::{Callee, Invocation, parse};
use machine_state::{Machine, Observer};
use messages::{listen, malformed, send_open, wait_on};
use operations::refuse;
use std::sync::ledger::Ledger;
use steps::Steps;
use walk_engine::Translator;

/// An invocation: its send phase, where it has one, and else its receive phase.
#[tactic(auto, unfolding(crate::specs::SystemCall::invoke))]
pub(crate) fn invoke<T: Translator, O: Observer, L: Ledger>(
    machine: &mut Machine<T>,
    p: u16,
    observer: &mut O,
    fetches: &mut Steps<L>,
)
    requires there { p < size_of machine.old.objects.items Process }
    requires on_hart { IsOnHart machine.old.queues p }
    requires room { HasRoom call_room (O.told observer.old) }
    ensures came { let outcome = invoke (state_of machine.old) p in
        Came T.Translator O.Observer p outcome
        machine.old observer.old fetches.old machine.new observer.new fetches.new }
    ensures leaves { let outcome = invoke (state_of machine.old) p in
        Leaves (process_name p ∷ outcome.changed) machine.old machine.new }
{
    match parse(machine.registers(p)) {
        Err(_) => malformed(machine, p, observer, fetches),
        Ok(inv) => {
            if inv.send() {
                send_and_receive(machine, p, observer, &inv, fetches);
            } else {
                listen(machine, p, observer, &inv, fetches);
            }
        }
    }
}

/// A send phase, and where it delivered a message the receive phase, if there is one.
#[tactic(auto, using(messages::proofs::Joined::came_followed))]
fn send_and_receive<T: Translator, O: Observer, L: Ledger>(
    machine: &mut Machine<T>,
    p: u16,
    observer: &mut O,
    inv: &Invocation,
    fetches: &mut Steps<L>,
)
    requires there { p < size_of machine.old.objects.items Process }
    requires on_hart { IsOnHart machine.old.queues p }
    requires room { HasRoom call_room (O.told observer.old) }
    requires inv { parsed (process (state_of machine.old) p).regs ≡ Ok inv.now }
    ensures came { let s = state_of machine.old in
        let outcome = received_after p inv.now (send s p inv.now) in
        Came T.Translator O.Observer p outcome
        machine.old observer.old fetches.old machine.new observer.new fetches.new }
    ensures leaves { let s = state_of machine.old in
        let outcome = received_after p inv.now (send s p inv.now) in
        Leaves (process_name p ∷ outcome.changed) machine.old machine.new }
{
    let delivered = send(machine, p, observer, inv, fetches);
    if delivered && inv.receive() {
        listen(machine, p, observer, inv, fetches);
    }
}

/// The send phase of an invocation, and whether it delivered a message.
#[tactic(auto, unfolding(crate::specs::SystemCall::send))]
pub fn send<T: Translator, O: Observer, L: Ledger>(
    machine: &mut Machine<T>,
    p: u16,
    observer: &mut O,
    inv: &Invocation,
    fetches: &mut Steps<L>,
) -> bool
    requires there { p < size_of machine.old.objects.items Process }
    requires on_hart { IsOnHart machine.old.queues p }
    requires room { HasRoom call_room (O.told observer.old) }
    requires inv { parsed (process (state_of machine.old) p).regs ≡ Ok inv.now }
    ensures delivered { result ≡ (send (state_of machine.old) p inv.now).delivers }
    ensures on_hart { result ≡ true → IsOnHart machine.new.queues p }
    ensures came { let outcome = (send (state_of machine.old) p inv.now).outcome in
        Came T.Translator O.Observer p outcome
        machine.old observer.old fetches.old machine.new observer.new fetches.new }
    ensures leaves { let outcome = (send (state_of machine.old) p inv.now).outcome in
        Leaves (process_name p ∷ outcome.changed) machine.old machine.new }
{
    let callee = machine.callee(p, inv.capreg());
    send_to(machine, p, observer, inv, callee, fetches)
}

/// The send phase of an invocation by who answers.
fn send_to<T: Translator, O: Observer, L: Ledger>(
    machine: &mut Machine<T>,
    p: u16,
    observer: &mut O,
    inv: &Invocation,
    callee: Callee,
    fetches: &mut Steps<L>,
) -> bool
    requires there { p < size_of machine.old.objects.items Process }
    requires on_hart { IsOnHart machine.old.queues p }
    requires room { HasRoom call_room (O.told observer.old) }
    requires inv { parsed (process (state_of machine.old) p).regs ≡ Ok inv.now }
    requires reached { IsReached machine.old.objects callee }
    ensures delivered { result ≡
        (sent_to (state_of machine.old) p inv.now (bare_callee callee)).delivers }
    ensures on_hart { result ≡ true → IsOnHart machine.new.queues p }
    ensures came { let outcome =
        (sent_to (state_of machine.old) p inv.now (bare_callee callee)).outcome in
        Came T.Translator O.Observer p outcome
        machine.old observer.old fetches.old machine.new observer.new fetches.new }
    ensures leaves { let outcome =
        (sent_to (state_of machine.old) p inv.now (bare_callee callee)).outcome in
        Leaves (process_name p ∷ outcome.changed) machine.old machine.new }
{
    match callee {
        Callee::Kernel(cap) => kernel_op(machine, p, observer, cap, inv, fetches),
        Callee::Dead => refuse_call(machine, p, inv, Code::InvalidCap),
        Callee::Busy(q) => wait_or_refuse(machine, p, observer, inv, q, fetches),
        Callee::Open { endpoint, process } => {
            return send_open(machine, p, observer, inv, endpoint, process, fetches);
        }
    }
    false
}

/// A recipient that is busy: the process is told so, or waits for it.
fn wait_or_refuse<T: Translator, O: Observer, L: Ledger>(
    machine: &mut Machine<T>,
    p: u16,
    observer: &mut O,
    inv: &Invocation,
    q: u16,
    fetches: &mut Steps<L>,
)
    requires there { p < size_of machine.old.objects.items Process }
    requires on_hart { IsOnHart machine.old.queues p }
    requires on { q < size_of machine.old.objects.items Process }
    ensures came { let outcome = busy_call (state_of machine.old) p inv.now q in
        Came T.Translator O.Observer p outcome
        machine.old observer.old fetches.old machine.new observer.new fetches.new }
    ensures leaves { let outcome = busy_call (state_of machine.old) p inv.now q in
        Leaves (process_name p ∷ outcome.changed) machine.old machine.new }
{
    if inv.nonblocking() {
        refuse_call(machine, p, inv, Code::WouldBlock);
    } else {
        wait_on(machine, p, observer, q, fetches);
    }
}

/// A send phase that is over with a code.
fn refuse_call<T: Translator>(machine: &mut Machine<T>, p: u16, inv: &Invocation, code: Code)
    requires there { p < size_of machine.old.objects.items Process }
    ensures state { state_of machine.new ≡
        (refused_call (state_of machine.old) p inv.now code).state }
    ensures leaves { Leaves (process_name p ∷ []) machine.old machine.new }
    ensures translator { machine.new.translator ≡ machine.old.translator }
{
    answer_call(machine, p, inv, refuse(code));
}
