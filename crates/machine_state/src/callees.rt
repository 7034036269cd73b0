//! Who answers an invocation.
ghost use Rattle.std.specs.Prelude.{◌≡◌, ◌<◌, ◌≤◌};
ghost use Rattle.cap_format.specs.declared.kind.CapKind.TheVariants.{Process};
ghost use Rattle.process_objects.specs.Process.{capreg_of};
ghost use Rattle.object_store.specs.Store.{size_of};
ghost use Rattle.invocation.specs.Target.{callee, bare_callee, IsReached};
ghost use Rattle.machine_state.specs.State.{state_of, process};

use crate::machine::Machine;
use invocation::{Callee, target};
use walk_engine::Translator;

impl<T: Translator> Machine<T> {
    /// Who answers an invocation of what a capability register holds.
    pub fn callee(&self, p: u16, register: u8) -> Callee
        requires there { p < size_of self.now.objects.items Process }
        requires register { register ≤ 31 }
        ensures means { let s = state_of self.now in
            bare_callee result ≡ callee s.store (capreg_of (process s p) register) }
        ensures there { IsReached self.now.objects result }
    {
        target(&self.objects, self.capability(p, register))
    }
}
