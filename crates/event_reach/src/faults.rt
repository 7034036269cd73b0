//! Faults.
ghost use Rattle.std.specs.Prelude.{◌≡◌, ◌<◌, ℕ};
ghost use Rattle.cap_format.specs.declared.fault.FaultCode.{FaultCode};
ghost use Rattle.cap_format.specs.declared.kind.CapKind.TheVariants.{Process};
ghost use Rattle.object_store.specs.Store.{size_of};
ghost use Rattle.object_store.specs.Meaning.{meaning};
ghost use Rattle.schedules.specs.Queues.{QueuesValue};
ghost use Rattle.invocation.specs.Target.{answer_of};
ghost use Rattle.operations.specs.Meaning.{cap_map};
ghost use Rattle.machine_state.specs.State.{state_of};
ghost use Rattle.machine_state.specs.Setters.{set_queues};
ghost use Rattle.messages.specs.Fault.{fault};
ghost use Rattle.event_reach.specs.Reach.{names_of, heard_names, Covers};

use crate::reach::Reach;
use cap_format::{Cap, CapKind};
use fault_path::handler;
use invocation::{Callee, target};
use machine_state::Machine;
use walk_engine::Translator;

/// A fault of a process, with the handler that its walk gave, if there was a walk: the endpoint of whoever hears it.
pub(crate) fn reach_of_fault<T: Translator>(
    machine: &Machine<T>,
    p: u16,
    walked: Option<Cap>,
) -> Reach
    requires { p < size_of machine.now.objects.items Process }
    ensures { let meant = cap_map (meaning machine.now.objects.items) walked in
        (q : QueuesValue) (code : FaultCode) (at : ℕ) →
        Covers (names_of result) (fault (set_queues (state_of machine.now) q) p code at meant).changed }
{
    let objects = machine.objects();
    let cap = handler(objects, p, walked);
    reach_of_hearer(target(objects, cap))
}

/// The endpoint through which a fault is heard, by who answers its handler.
fn reach_of_hearer(callee: Callee) -> Reach
    ensures { names_of result ≡ heard_names (answer_of callee) }
{
    match callee {
        Callee::Open { endpoint, .. } => Reach::Object(CapKind::Endpoint, u32::from(endpoint)),
        _ => Reach::Nothing,
    }
}
