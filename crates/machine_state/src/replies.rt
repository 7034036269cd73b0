//! Replies of the kernel to the process that asked.
ghost use Rattle.std.specs.Prelude.{◌≡◌, ◌<◌, [], ◌∷◌, IfSome};
ghost use Rattle.cap_format.specs.declared.kind.CapKind.TheVariants.{Process as ProcessKind};
ghost use Rattle.object_store.specs.Store.{size_of};
ghost use Rattle.object_store.specs.Meaning.{meaning};
ghost use Rattle.object_store.specs.Ahead.{IsBehind};
ghost use Rattle.operations.specs.Meaning.{reply_map};
ghost use Rattle.machine_state.specs.State.{state_of};
ghost use Rattle.machine_state.specs.Outcome.{process_name};
ghost use Rattle.machine_state.specs.Came.{Leaves};
ghost use Rattle.machine_state.specs.Reply.{answered, replied, set_reply};

use crate::machine::Machine;
use cap_format::Reply;
use process_objects::{Accept, Process};
use walk_engine::Translator;

impl<T: Translator> Machine<T> {
    /// Writes a reply to a process. Its capability goes to the first register that accepts, if there is one.
    #[tactic(auto, using(object_store::proofs::Stays::stays_process))]
    pub fn reply(&mut self, p: u16, accept: Accept, reply: Reply)
        requires there { p < size_of self.old.objects.items ProcessKind }
        requires behind { IfSome reply.cap (IsBehind self.old.objects.items) }
        ensures state { let meant = reply_map (meaning self.old.objects.items) reply in
            state_of self.new ≡ set_reply (state_of self.old) p accept meant }
        ensures leaves { Leaves (process_name p ∷ []) self.old self.new }
        ensures translator { self.new.translator ≡ self.old.translator }
        ensures queues { self.new.queues ≡ self.old.queues }
    {
        write_reply(self.objects.process_mut(p), accept, reply);
    }
}

/// The registers of a process with a reply.
#[tactic(auto, unfolding(crate::specs::Reply::replied))]
fn write_reply(process: &mut Process, accept: Accept, reply: Reply)
    ensures { process.new ≡ replied process.old accept reply }
{
    match reply.cap {
        None => tell_reply(process, 0, reply),
        Some(cap) => {
            if accept.caps() == 0 {
                tell_reply(process, 0, reply);
            } else {
                tell_reply(process, 1, reply);
                process.set_capreg(accept.regs()[0], cap);
            }
        }
    }
}

/// What a reply tells, with the number of the capabilities that go with it.
#[tactic(auto, unfolding(crate::specs::Reply::answered))]
fn tell_reply(process: &mut Process, number: u32, reply: Reply)
    requires { number < 2 }
    ensures { process.new ≡ answered process.old number reply }
{
    process.set_reg(10, 2 + 65536 * number);
    process.set_reg(11, reply.code.number());
    process.set_reg(12, reply.words[0]);
    process.set_reg(13, reply.words[1]);
    process.set_reg(14, reply.words[2]);
}
