//! Replies that are all there is to a call.
ghost use Rattle.std.specs.Prelude.{◌≡◌, ◌<◌, [], ◌∷◌, None};
ghost use Rattle.cap_format.specs.declared.kind.CapKind.TheVariants.{Process};
ghost use Rattle.cap_format.specs.Capability.{bare};
ghost use Rattle.object_store.specs.Store.{size_of};
ghost use Rattle.operations.specs.Row.{settled_in, reply_of};
ghost use Rattle.machine_state.specs.State.{state_of};
ghost use Rattle.machine_state.specs.Outcome.{process_name};
ghost use Rattle.machine_state.specs.Came.{Leaves};
ghost use Rattle.kernel_core.specs.KernelOperation.{kind_table, answered_call};

use cap_format::{Cap, Code, Reply};
use invocation::Invocation;
use machine_state::Machine;
use operations::{refuse, tell};
use walk_engine::Translator;

/// The reply to a request that is none but `kind`.
#[tactic(auto, unfolding(operations::specs::Memory::kind_row))]
pub(crate) fn kind_reply(cap: Cap, number: u32) -> Reply
    ensures reply { result ≡ reply_of (settled_in (kind_table (bare cap)) number) }
    ensures none { result.cap ≡ None }
{
    match number {
        0 => tell(u32::from(cap.kind().number()), 0, 0),
        _ => refuse(Code::UnknownRequest),
    }
}

/// The process goes on behind its instruction, with a reply.
#[tactic(auto, using(object_store::proofs::Stays::stays_then))]
pub(crate) fn answer_call<T: Translator>(
    machine: &mut Machine<T>,
    p: u16,
    inv: &Invocation,
    reply: Reply,
)
    requires there { p < size_of machine.old.objects.items Process }
    requires none { reply.cap ≡ None }
    ensures state { state_of machine.new ≡
        (answered_call (state_of machine.old) p inv.now reply).state }
    ensures leaves { Leaves (process_name p ∷ []) machine.old machine.new }
    ensures translator { machine.new.translator ≡ machine.old.translator }
{
    machine.advance(p);
    machine.reply(p, inv.accept(), reply);
}
