//! A message that reaches a process which receives.
ghost use Rattle.std.specs.Prelude.{◌≡◌, ◌<◌, length, true};
ghost use Rattle.std.specs.List.{All};
ghost use Rattle.cap_format.specs.declared.kind.CapKind.TheVariants.{Process, Endpoint};
ghost use Rattle.object_store.specs.Store.{size_of, process_at};
ghost use Rattle.object_store.specs.Meaning.{meaning, state_map};
ghost use Rattle.object_store.specs.Ahead.{IsBehind, NoneAhead};
ghost use Rattle.object_store.specs.Object.{Stays};
ghost use Rattle.schedules.specs.Ready.{Agrees, runs_of};
ghost use Rattle.invocation.specs.Target.{is_receiving};
ghost use Rattle.invocation.specs.Delivery.{message_map, changed_by_message};
ghost use Rattle.operations.specs.System.{system, Stored, Meant};
ghost use Rattle.fault_path.specs.message_path.Messages.{told_system};

use invocation::{Message, deliver};
use object_store::Objects;
use schedules::Queues;

/// A message through an endpoint to process `to`, which receives. It is told, and made ready. The bytes of a string are
/// the caller's.
#[tactic(auto, using(crate::proofs::Receiver::receiving_nowhere, crate::proofs::Receiver::told_but), unfolding(crate::specs::message_path::Messages::told_system))]
pub fn tell(objects: &mut Objects, queues: &mut Queues, endpoint: u16, to: u16, message: Message)
    requires endpoint { endpoint < size_of objects.old.items Endpoint }
    requires receives { is_receiving (process_at objects.old to).state ≡ true }
    requires sizes { length queues.old.sleepers ≡ size_of objects.old.items Process }
    requires agrees { Agrees (runs_of objects.old queues.old) }
    ensures after { let w = system objects.old queues.old in
        system objects.new queues.new ≡ told_system Stored w endpoint to message }
    ensures means { let w = system (state_map objects.old) queues.old in
        system (state_map objects.new) queues.new ≡
        told_system Meant w endpoint to (message_map (meaning objects.old.items) message) }
    ensures items { objects.new.items ≡ objects.old.items }
    ensures harts { objects.new.harts ≡ objects.old.harts }
    ensures processes { length queues.new.sleepers ≡ length queues.old.sleepers }
    ensures queue_harts { length queues.new.harts ≡ length queues.old.harts }
    ensures agrees { Agrees (runs_of objects.new queues.new) }
    ensures stays { Stays (changed_by_message endpoint to) objects.old objects.new }
    ensures behind { All (IsBehind objects.old.items) message.caps →
        NoneAhead objects.old → NoneAhead objects.new }
{
    deliver(objects, endpoint, to, message);
    queues.make_ready(objects, to);
}
