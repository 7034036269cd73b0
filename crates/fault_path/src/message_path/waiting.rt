//! A process that waits for another.
ghost use Rattle.std.specs.Prelude.{◌≡◌, ◌<◌, length};
ghost use Rattle.cap_format.specs.declared.kind.CapKind.TheVariants.{Process};
ghost use Rattle.process_objects.specs.declared.state.State.TheVariants.{Running};
ghost use Rattle.object_store.specs.Store.{size_of, process_at};
ghost use Rattle.object_store.specs.Meaning.{state_map};
ghost use Rattle.schedules.specs.Ready.{Agrees, runs_of};
ghost use Rattle.operations.specs.System.{system};
ghost use Rattle.fault_path.specs.message_path.Messages.{waiting};

use object_store::Objects;
use schedules::Queues;

/// Process `p`, which runs, leaves its place and is the last sleeper of `on`. It stays as it is, so that it does again
/// later what it waits with. No object changes.
#[tactic(auto, unfolding(crate::specs::message_path::Messages::waiting))]
pub fn wait(objects: &Objects, queues: &mut Queues, p: u16, on: u16)
    requires there { p < size_of objects.now.items Process }
    requires on { on < size_of objects.now.items Process }
    requires runs { (process_at objects.now p).state ≡ Running }
    requires sizes { length queues.old.sleepers ≡ size_of objects.now.items Process }
    requires agrees { Agrees (runs_of objects.now queues.old) }
    ensures after { system objects.now queues.new ≡ waiting (system objects.now queues.old) p on }
    ensures means { let map = state_map objects.now in
        system map queues.new ≡ waiting (system map queues.old) p on }
    ensures processes { length queues.new.sleepers ≡ length queues.old.sleepers }
    ensures queue_harts { length queues.new.harts ≡ length queues.old.harts }
    ensures agrees { Agrees (runs_of objects.now queues.new) }
{
    queues.leave(p);
    queues.sleep(p, on);
}
