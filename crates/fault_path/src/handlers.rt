//! Who is asked to handle a fault.
ghost use Rattle.std.specs.Prelude.{◌≡◌, ◌<◌, true};
ghost use Rattle.cap_format.specs.declared.kind.CapKind.TheVariants.{Process};
ghost use Rattle.cap_format.specs.Capability.{bare};
ghost use Rattle.object_store.specs.Store.{size_of};
ghost use Rattle.object_store.specs.Meaning.{is_live, meaning, state_map};
ghost use Rattle.invocation.specs.Target.{answer_of};
ghost use Rattle.operations.specs.Meaning.{cap_map};
ghost use Rattle.fault_path.specs.Fault.{is_answer, handler_of};

use cap_format::Cap;
use invocation::{Callee, target};
use object_store::Objects;

/// The handler that is asked: the walk's, where somebody answers it, and otherwise that of the process.
#[tactic(auto, using(object_store::proofs::Writes::slot_means), unfolding(crate::specs::Fault::handler_of))]
pub fn handler(objects: &Objects, p: u16, walked: Option<Cap>) -> Cap
    requires { p < size_of objects.now.items Process }
    ensures value { bare result ≡
        handler_of (state_map objects.now) p (cap_map (meaning objects.now.items) walked) }
    ensures live { is_live objects.now.items result ≡ true }
{
    if let Some(cap) = walked {
        if is_answer(target(objects, cap)) {
            return objects.live(cap);
        }
    }
    objects.live(objects.process(p).slot(2))
}

/// Whether somebody answers.
fn is_answer(callee: Callee) -> bool
    ensures { result ≡ is_answer (answer_of callee) }
{
    matches!(callee, Callee::Open { .. } | Callee::Busy(_))
}
