//! Faults of processes that stand on harts.
ghost use Rattle.std.specs.Prelude.{◌≡◌, ◌<◌};
ghost use Rattle.cap_format.specs.declared.kind.CapKind.TheVariants.{Process};
ghost use Rattle.object_store.specs.Store.{size_of};
ghost use Rattle.object_store.specs.Meaning.{meaning};
ghost use Rattle.operations.specs.Meaning.{cap_map};
ghost use Rattle.fault_path.specs.Fault.{outcome_of, heard_by, fault_names};
ghost use Rattle.machine_state.specs.State.{state_of, IsOnHart};
ghost use Rattle.machine_state.specs.Came.{Leaves};
ghost use Rattle.machine_state.specs.Faulting.{fault_state};

use crate::machine::Machine;
use cap_format::{Cap, FaultCode};
use fault_path::{Outcome, deliver_fault};
use walk_engine::Translator;

impl<T: Translator> Machine<T> {
    /// A fault of a process, with the handler that its walk gave, if there was a walk. What became of it says who was
    /// told, or for whom the process waits.
    #[tactic(auto, unfolding(crate::specs::Faulting::fault_state))]
    pub fn settle_fault(
        &mut self,
        p: u16,
        code: FaultCode,
        address: u32,
        handler: Option<Cap>,
    ) -> Outcome
        requires there { p < size_of self.old.objects.items Process }
        requires on_hart { IsOnHart self.old.queues p }
        ensures outcome { let meant = cap_map (meaning self.old.objects.items) handler in
            result ≡ outcome_of (heard_by (state_of self.old).store p meant) }
        ensures state { let meant = cap_map (meaning self.old.objects.items) handler in
            state_of self.new ≡ fault_state (state_of self.old) p code address meant }
        ensures leaves { let meant = cap_map (meaning self.old.objects.items) handler in
            let names = fault_names p (heard_by (state_of self.old).store p meant) in
            Leaves names self.old self.new }
        ensures translator { self.new.translator ≡ self.old.translator }
    {
        deliver_fault(
            &mut self.objects,
            &mut self.queues,
            p,
            code,
            address,
            handler,
        )
    }
}
