//! A process that receives, and those that slept on it.
ghost use Rattle.std.specs.Prelude.{◌≡◌, ◌<◌, length};
ghost use Rattle.cap_format.specs.declared.kind.CapKind.TheVariants.{Process};
ghost use Rattle.process_objects.specs.declared.state.State.TheVariants.{Receiving};
ghost use Rattle.process_objects.specs.Process.{with_state};
ghost use Rattle.object_store.specs.Store.{size_of, process_at, with_process};
ghost use Rattle.object_store.specs.Meaning.{state_map};
ghost use Rattle.object_store.specs.Ahead.{NoneAhead};
ghost use Rattle.object_store.specs.Object.{Stays};
ghost use Rattle.schedules.specs.Queues.{left};
ghost use Rattle.schedules.specs.Ready.{Agrees, runs_of};
ghost use Rattle.operations.specs.System.{system, Stored, Meant};
ghost use Rattle.fault_path.specs.message_path.Messages.{listening, listening_names};

use object_store::Objects;
use process_objects::{Accept, State};
use schedules::Queues;

/// Process `p` leaves its place and receives what it accepts; its hart has no process then. Then all that slept on it are
/// made ready, in their order. Its pc stays as it is. Not in constant time: it takes a step for each sleeper.
#[tactic(auto, using(crate::proofs::Sleepers::listening_after, crate::proofs::Sleepers::listening_stays))]
pub fn listen(objects: &mut Objects, queues: &mut Queues, p: u16, accept: Accept)
    requires there { p < size_of objects.old.items Process }
    requires sizes { length queues.old.sleepers ≡ size_of objects.old.items Process }
    requires agrees { Agrees (runs_of objects.old queues.old) }
    ensures after { let w = system objects.old queues.old in
        system objects.new queues.new ≡ listening Stored w p accept }
    ensures means { let w = system (state_map objects.old) queues.old in
        system (state_map objects.new) queues.new ≡ listening Meant w p accept }
    ensures items { objects.new.items ≡ objects.old.items }
    ensures harts { objects.new.harts ≡ objects.old.harts }
    ensures processes { length queues.new.sleepers ≡ length queues.old.sleepers }
    ensures queue_harts { length queues.new.harts ≡ length queues.old.harts }
    ensures agrees { Agrees (runs_of objects.new queues.new) }
    ensures stays { Stays (listening_names queues.old p) objects.old objects.new }
    ensures behind { NoneAhead objects.old → NoneAhead objects.new }
{
    receive(objects, queues, p, accept);
    queues.wake(objects, p);
}

/// The process leaves its place and receives.
#[tactic(auto, using(operations::proofs::Placed::agrees_stopped))]
fn receive(objects: &mut Objects, queues: &mut Queues, p: u16, accept: Accept)
    requires there { p < size_of objects.old.items Process }
    requires sizes { length queues.old.sleepers ≡ size_of objects.old.items Process }
    requires agrees { Agrees (runs_of objects.old queues.old) }
    ensures objects { let process = with_state (process_at objects.old p) (Receiving accept) in
        objects.new ≡ with_process objects.old p process }
    ensures queues { queues.new ≡ left queues.old p }
    ensures processes { length queues.new.sleepers ≡ length queues.old.sleepers }
    ensures queue_harts { length queues.new.harts ≡ length queues.old.harts }
    ensures agrees { Agrees (runs_of objects.new queues.new) }
{
    objects.in_ranges();
    queues.leave(p);
    objects.process_mut(p).set_state(State::Receiving(accept));
}
