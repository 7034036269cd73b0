//! Requests to SysCtl.
ghost use Rattle.std.specs.Prelude.{◌<◌, [], ◌∷◌};
ghost use Rattle.cap_format.specs.declared.kind.CapKind.TheVariants.{Process};
ghost use Rattle.cap_format.specs.Capability.{bare};
ghost use Rattle.object_store.specs.Store.{size_of};
ghost use Rattle.machine_state.specs.State.{state_of};
ghost use Rattle.machine_state.specs.Outcome.{process_name};
ghost use Rattle.machine_state.specs.Came.{Came, CameUnasked, Leaves};
ghost use Rattle.machine_state.specs.Room.{HasRoom};
ghost use Rattle.kernel_core.specs.KernelOperation.{halting, sysctl_op};

use crate::answering::{answer_call, kind_reply};
use cap_format::Cap;
use invocation::Invocation;
use machine_state::{Machine, Observer, Record};
use operations::done;
use std::sync::ledger::Ledger;
use steps::Steps;
use walk_engine::Translator;

/// The request that halts the machine.
const HALT: u32 = 8;

/// A request to SysCtl.
#[tactic(auto, unfolding(crate::specs::KernelOperation::sysctl_op))]
pub(crate) fn sysctl_op<T: Translator, O: Observer, L: Ledger>(
    machine: &mut Machine<T>,
    p: u16,
    observer: &mut O,
    cap: Cap,
    inv: &Invocation,
    _fetches: &mut Steps<L>,
)
    requires there { p < size_of machine.old.objects.items Process }
    requires room { HasRoom 1 (O.told observer.old) }
    ensures came { let outcome = sysctl_op (state_of machine.old) p inv.now (bare cap) in
        Came T.Translator O.Observer p outcome
        machine.old observer.old _fetches.old machine.new observer.new _fetches.new }
    ensures leaves { Leaves (process_name p ∷ []) machine.old machine.new }
{
    if inv.words()[0] == HALT {
        halt(machine, p, observer, inv);
    } else {
        answer_call(machine, p, inv, kind_reply(cap, inv.words()[0]));
    }
}

/// The machine is halted for good.
#[tactic(auto, using(object_store::proofs::Stays::stays_then, object_store::proofs::Stays::stays_same))]
fn halt<T: Translator, O: Observer>(
    machine: &mut Machine<T>,
    p: u16,
    observer: &mut O,
    inv: &Invocation,
)
    requires there { p < size_of machine.old.objects.items Process }
    requires room { HasRoom 1 (O.told observer.old) }
    ensures came { let outcome = halting (state_of machine.old) p inv.now in
        CameUnasked O.Observer outcome machine.old observer.old machine.new observer.new }
    ensures leaves { Leaves (process_name p ∷ []) machine.old machine.new }
{
    machine.halt();
    observer.tell(Record::Halt { process: p });
    answer_call(machine, p, inv, done());
}
