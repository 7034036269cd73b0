//! Messages: what a process sends and accepts, and those who are told, wait and listen.
ghost use Rattle.std.specs.Prelude.{◌≡◌, ◌<◌, ◌≤◌, [], ◌∷◌, map, true};
ghost use Rattle.std.specs.List.{All};
ghost use Rattle.cap_format.specs.declared.kind.CapKind.TheVariants.{Process, Endpoint};
ghost use Rattle.object_store.specs.Store.{size_of, process_at};
ghost use Rattle.object_store.specs.Meaning.{meaning};
ghost use Rattle.object_store.specs.Ahead.{IsBehind};
ghost use Rattle.invocation.specs.Target.{is_receiving};
ghost use Rattle.invocation.specs.Delivery.{message_map, sent_by, accepted, changed_by_message};
ghost use Rattle.fault_path.specs.message_path.Messages.{listening_names};
ghost use Rattle.machine_state.specs.State.{state_of, process, IsOnHart};
ghost use Rattle.machine_state.specs.Outcome.{process_name};
ghost use Rattle.machine_state.specs.Came.{Leaves};
ghost use Rattle.machine_state.specs.Messaging.{told_state, waiting_state, listening_state};

use crate::machine::Machine;
use invocation::{CapList, Message, RegisterList};
use process_objects::{Accept, State, Wait};
use walk_engine::Translator;

impl<T: Translator> Machine<T> {
    /// What a process that receives accepts, and nothing of any other.
    pub fn acceptance(&self, q: u16) -> Accept
        requires { q < size_of self.now.objects.items Process }
        ensures { result ≡ accepted (process (state_of self.now) q).state }
    {
        match self.objects.process(q).state() {
            State::Receiving(accept) => accept,
            _ => Accept::new(Wait::Open, 0, [0; 4], 0, 0),
        }
    }

    /// The capabilities in these registers of a process, in their order, as they are stored.
    pub fn capabilities(&self, p: u16, registers: &RegisterList) -> CapList
        requires there { p < size_of self.now.objects.items Process }
        requires registers { All (λ register. register ≤ 31) registers.now }
        ensures means { let f = meaning self.now.objects.items in
            map f result ≡ sent_by (state_of self.now).store p registers.now }
        ensures behind { All (IsBehind self.now.objects.items) result }
    {
        invocation::sent_by(&self.objects, p, registers)
    }

    /// A message through an endpoint to a process that receives, which is told and made ready. The bytes of a string are
    /// the caller's.
    #[tactic(auto, unfolding(crate::specs::Messaging::told_state))]
    pub fn tell(&mut self, endpoint: u16, to: u16, message: Message)
        requires endpoint { endpoint < size_of self.old.objects.items Endpoint }
        requires receives { is_receiving (process_at self.old.objects to).state ≡ true }
        requires behind { All (IsBehind self.old.objects.items) message.caps }
        ensures state { let meant = message_map (meaning self.old.objects.items) message in
            state_of self.new ≡ told_state (state_of self.old) endpoint to meant }
        ensures leaves { Leaves (changed_by_message endpoint to) self.old self.new }
        ensures translator { self.new.translator ≡ self.old.translator }
    {
        fault_path::message_path::tell(&mut self.objects, &mut self.queues, endpoint, to, message);
    }

    /// A process on a hart leaves it and is the last sleeper of another, to do its instruction again later.
    #[tactic(auto, unfolding(crate::specs::Messaging::waiting_state))]
    pub fn wait(&mut self, p: u16, on: u16)
        requires there { p < size_of self.old.objects.items Process }
        requires on_hart { IsOnHart self.old.queues p }
        requires on { on < size_of self.old.objects.items Process }
        ensures state { state_of self.new ≡ waiting_state (state_of self.old) p on }
        ensures objects { self.new.objects ≡ self.old.objects }
        ensures leaves { Leaves (process_name p ∷ []) self.old self.new }
        ensures translator { self.new.translator ≡ self.old.translator }
    {
        fault_path::message_path::wait(&self.objects, &mut self.queues, p, on);
    }

    /// A process leaves its place and receives, and all that slept on it are made ready.
    #[tactic(auto, unfolding(crate::specs::Messaging::listening_state))]
    pub fn listen(&mut self, p: u16, accept: Accept)
        requires there { p < size_of self.old.objects.items Process }
        ensures state { state_of self.new ≡ listening_state (state_of self.old) p accept }
        ensures leaves { Leaves (listening_names (state_of self.old).queues p) self.old self.new }
        ensures translator { self.new.translator ≡ self.old.translator }
    {
        fault_path::message_path::listen(&mut self.objects, &mut self.queues, p, accept);
    }
}
