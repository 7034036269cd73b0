//! What becomes of a process that faults.
ghost use Rattle.std.specs.Prelude.{◌≡◌, ◌<◌, ◌∷◌, [], length, true};
ghost use Rattle.cap_format.specs.declared.kind.CapKind.TheVariants.{Process, Endpoint};
ghost use Rattle.cap_format.specs.Capability.{to_object};
ghost use Rattle.process_objects.specs.declared.state.State.TheVariants.{Running, Faulted};
ghost use Rattle.process_objects.specs.Process.{with_state};
ghost use Rattle.object_store.specs.Store.{size_of, count_of, process_at, with_process};
ghost use Rattle.object_store.specs.Meaning.{meaning, state_map};
ghost use Rattle.object_store.specs.Ahead.{NoneAhead};
ghost use Rattle.object_store.specs.Object.{Stays, object_name};
ghost use Rattle.schedules.specs.Ready.{Agrees, runs_of};
ghost use Rattle.invocation.specs.Answerer.Answer.{Open};
ghost use Rattle.invocation.specs.Target.{IsReached, answer_of, is_receiving};
ghost use Rattle.operations.specs.System.{system, Stored, Meant};
ghost use Rattle.operations.specs.Meaning.{cap_map};
ghost use Rattle.fault_path.specs.Fault.{faulted, answered, fault_message, outcome_of, heard_by, fault_of, fault_names};

use crate::handlers::handler;
use crate::message_path::{tell, wait};
use crate::outcome::Outcome;
use cap_format::{Cap, CapKind, FaultCode};
use invocation::{Callee, CapList, Message, target};
use object_store::Objects;
use process_objects::State;
use schedules::Queues;

/// A fault of a process that runs. The first of two handlers that is an entry somebody answers hears it: that which the
/// walk gave, if there is one, and the process's own.
///
/// Where the recipient receives there, the process is faulted, and the recipient is told and made ready. Where it is
/// busy, the process sleeps on it. Otherwise the process is faulted.
pub fn deliver_fault(
    objects: &mut Objects,
    queues: &mut Queues,
    p: u16,
    code: FaultCode,
    address: u32,
    walked: Option<Cap>,
) -> Outcome
    requires there { p < size_of objects.old.items Process }
    requires runs { (process_at objects.old p).state ≡ Running }
    requires sizes { length queues.old.sleepers ≡ size_of objects.old.items Process }
    requires agrees { Agrees (runs_of objects.old queues.old) }
    ensures outcome { let handler = cap_map (meaning objects.old.items) walked in
        result ≡ outcome_of (heard_by (state_map objects.old) p handler) }
    ensures after { let handler = cap_map (meaning objects.old.items) walked in
        let w = system objects.old queues.old in
        system objects.new queues.new ≡ fault_of Stored w (state_map objects.old) p code address handler }
    ensures means { let handler = cap_map (meaning objects.old.items) walked in
        let map = state_map objects.old in
        system (state_map objects.new) queues.new ≡
        fault_of Meant (system map queues.old) map p code address handler }
    ensures items { objects.new.items ≡ objects.old.items }
    ensures harts { objects.new.harts ≡ objects.old.harts }
    ensures processes { length queues.new.sleepers ≡ length queues.old.sleepers }
    ensures queue_harts { length queues.new.harts ≡ length queues.old.harts }
    ensures agrees { Agrees (runs_of objects.new queues.new) }
    ensures stays { let handler = cap_map (meaning objects.old.items) walked in
        let names = fault_names p (heard_by (state_map objects.old) p handler) in
        Stays names objects.old objects.new }
    ensures behind { NoneAhead objects.old → NoneAhead objects.new }
{
    let cap = handler(objects, p, walked);
    let callee = target(objects, cap);
    settle(objects, queues, p, code, address, cap.payload(), callee)
}

/// What becomes of the fault, by who answers.
#[tactic(auto, unfolding(crate::specs::Fault::answered))]
fn settle(
    objects: &mut Objects,
    queues: &mut Queues,
    p: u16,
    code: FaultCode,
    address: u32,
    payload: u32,
    callee: Callee,
) -> Outcome
    requires there { p < size_of objects.old.items Process }
    requires runs { (process_at objects.old p).state ≡ Running }
    requires reached { IsReached objects.old callee }
    requires sizes { length queues.old.sleepers ≡ size_of objects.old.items Process }
    requires agrees { Agrees (runs_of objects.old queues.old) }
    ensures outcome { result ≡ outcome_of (answer_of callee) }
    ensures after { let w = system objects.old queues.old in
        system objects.new queues.new ≡ answered Stored w p code address payload (answer_of callee) }
    ensures means { let w = system (state_map objects.old) queues.old in
        system (state_map objects.new) queues.new ≡
        answered Meant w p code address payload (answer_of callee) }
    ensures items { objects.new.items ≡ objects.old.items }
    ensures harts { objects.new.harts ≡ objects.old.harts }
    ensures processes { length queues.new.sleepers ≡ length queues.old.sleepers }
    ensures queue_harts { length queues.new.harts ≡ length queues.old.harts }
    ensures agrees { Agrees (runs_of objects.new queues.new) }
    ensures stays { Stays (fault_names p (answer_of callee)) objects.old objects.new }
    ensures behind { NoneAhead objects.old → NoneAhead objects.new }
{
    match callee {
        Callee::Open { endpoint, process } => {
            report(
                objects, queues, p, code, address, payload, endpoint, process,
            );
            Outcome::Delivered(process)
        }
        Callee::Busy(recipient) => {
            wait(objects, queues, p, recipient);
            Outcome::MustWait(recipient)
        }
        Callee::Kernel(_) | Callee::Dead => {
            stop(objects, queues, p, code, address);
            Outcome::Unheard
        }
    }
}

/// The process leaves its place and is faulted.
#[tactic(auto, using(operations::proofs::Placed::agrees_stopped, object_store::proofs::Stays::stays_process, object_store::proofs::WritesBehind::put_state_behind), unfolding(crate::specs::Fault::faulted))]
fn stop(objects: &mut Objects, queues: &mut Queues, p: u16, code: FaultCode, address: u32)
    requires there { p < size_of objects.old.items Process }
    requires sizes { length queues.old.sleepers ≡ size_of objects.old.items Process }
    requires agrees { Agrees (runs_of objects.old queues.old) }
    ensures after { system objects.new queues.new ≡
        faulted (system objects.old queues.old) p code address }
    ensures means { let w = system (state_map objects.old) queues.old in
        system (state_map objects.new) queues.new ≡ faulted w p code address }
    ensures process { objects.new ≡
        with_process objects.old p (with_state (process_at objects.old p) (Faulted code address)) }
    ensures processes { length queues.new.sleepers ≡ length queues.old.sleepers }
    ensures queue_harts { length queues.new.harts ≡ length queues.old.harts }
    ensures agrees { Agrees (runs_of objects.new queues.new) }
    ensures stays { Stays (object_name Process p ∷ []) objects.old objects.new }
    ensures behind { NoneAhead objects.old → NoneAhead objects.new }
{
    objects.in_ranges();
    queues.leave(p);
    objects
        .process_mut(p)
        .set_state(State::Faulted { code, address });
}

/// The process is faulted, and another, which receives, is told and made ready.
#[tactic(auto, using(crate::proofs::FaultLaws::still_receiving, crate::proofs::FaultLaws::reported_after, crate::proofs::FaultLaws::reported_stays, crate::proofs::FaultLaws::message_behind))]
fn report(
    objects: &mut Objects,
    queues: &mut Queues,
    p: u16,
    code: FaultCode,
    address: u32,
    payload: u32,
    endpoint: u16,
    to: u16,
)
    requires there { p < size_of objects.old.items Process }
    requires runs { (process_at objects.old p).state ≡ Running }
    requires endpoint { endpoint < size_of objects.old.items Endpoint }
    requires receives { is_receiving (process_at objects.old to).state ≡ true }
    requires sizes { length queues.old.sleepers ≡ size_of objects.old.items Process }
    requires agrees { Agrees (runs_of objects.old queues.old) }
    ensures after { let w = system objects.old queues.old in
        system objects.new queues.new ≡ answered Stored w p code address payload (Open endpoint to) }
    ensures means { let w = system (state_map objects.old) queues.old in
        system (state_map objects.new) queues.new ≡
        answered Meant w p code address payload (Open endpoint to) }
    ensures items { objects.new.items ≡ objects.old.items }
    ensures harts { objects.new.harts ≡ objects.old.harts }
    ensures processes { length queues.new.sleepers ≡ length queues.old.sleepers }
    ensures queue_harts { length queues.new.harts ≡ length queues.old.harts }
    ensures agrees { Agrees (runs_of objects.new queues.new) }
    ensures stays { let names = fault_names p (Open endpoint to) in
        Stays names objects.old objects.new }
    ensures behind { NoneAhead objects.old → NoneAhead objects.new }
{
    let message = message_of(objects, p, code, address, payload);
    stop(objects, queues, p, code, address);
    tell(objects, queues, endpoint, to, message);
}

/// What is told of a fault of this process.
fn message_of(objects: &Objects, p: u16, code: FaultCode, address: u32, payload: u32) -> Message
    requires { p < size_of objects.now.items Process }
    ensures { let cap = to_object Process p (count_of objects.now.items Process p) in
        result ≡ fault_message cap (process_at objects.now p) code address payload }
{
    let mut caps = CapList::new();
    caps.push(objects.cap_to(CapKind::Process, u32::from(p)).unwrap());
    Message {
        words: [code.number(), address, objects.process(p).pc(), 0],
        payload,
        length: 0,
        cut: false,
        caps,
    }
}
