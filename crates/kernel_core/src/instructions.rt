//! One instruction of a process.
ghost use Rattle.std.specs.Prelude.{◌≡◌, ◌<◌, ◌∷◌, Some};
ghost use Rattle.cap_format.specs.declared.kind.CapKind.TheVariants.{Process};
ghost use Rattle.object_store.specs.Store.{size_of};
ghost use Rattle.schedules.specs.Queues.{hart_of};
ghost use Rattle.rv32_decode.specs.InRange.{InRange};
ghost use Rattle.machine_state.specs.State.{state_of, IsOnHart};
ghost use Rattle.machine_state.specs.Outcome.{process_name};
ghost use Rattle.machine_state.specs.Came.{Came, Leaves};
ghost use Rattle.machine_state.specs.Room.{HasRoom, call_room};
ghost use Rattle.kernel_core.specs.Instruction.{perform};

use crate::loads::{Wanted, load};
use crate::stores::store;
use crate::system_calls::system_call;
use cap_format::FaultCode;
use machine_state::{Machine, Observer};
use messages::{fault, misaligned};
use rv32_decode::Insn;
use rv32_user::{Effect, evaluate};
use std::sync::ledger::Ledger;
use steps::Steps;
use walk_engine::Translator;

/// This instruction, its fault included.
#[tactic(auto)]
pub fn perform<T: Translator, O: Observer, L: Ledger>(
    machine: &mut Machine<T>,
    p: u16,
    observer: &mut O,
    insn: Insn,
    fetches: &mut Steps<L>,
)
    requires there { p < size_of machine.old.objects.items Process }
    requires on_hart { IsOnHart machine.old.queues p }
    requires insn { InRange insn }
    requires room { HasRoom call_room (O.told observer.old) }
    ensures came { let outcome = perform (state_of machine.old) p insn in
        Came T.Translator O.Observer p outcome
        machine.old observer.old fetches.old machine.new observer.new fetches.new }
    ensures leaves { let outcome = perform (state_of machine.old) p insn in
        Leaves (process_name p ∷ outcome.changed) machine.old machine.new }
{
    let hart = machine.hart(p);
    perform_on(machine, hart, p, observer, insn, fetches);
}

/// The same on the hart of the process.
#[tactic(auto, unfolding(crate::specs::Instruction::perform), using(object_store::proofs::Stays::stays_then))]
pub(crate) fn perform_on<T: Translator, O: Observer, L: Ledger>(
    machine: &mut Machine<T>,
    hart: u8,
    p: u16,
    observer: &mut O,
    insn: Insn,
    fetches: &mut Steps<L>,
)
    requires there { p < size_of machine.old.objects.items Process }
    requires on_hart { IsOnHart machine.old.queues p }
    requires hart { hart < machine.old.objects.harts }
    requires here { hart_of machine.old.queues hart ≡ Some p }
    requires insn { InRange insn }
    requires room { HasRoom call_room (O.told observer.old) }
    ensures came { let outcome = perform (state_of machine.old) p insn in
        Came T.Translator O.Observer p outcome
        machine.old observer.old fetches.old machine.new observer.new fetches.new }
    ensures leaves { let outcome = perform (state_of machine.old) p insn in
        Leaves (process_name p ∷ outcome.changed) machine.old machine.new }
{
    let pc = machine.pc(p);
    let outcome = evaluate(machine.registers(p), pc, insn);
    match outcome.effect {
        Effect::Next(next) => {
            machine.set_register(p, outcome.rd, outcome.value);
            machine.set_pc(p, next);
        }
        Effect::Load {
            at,
            size,
            signed,
            rd,
        } => {
            let wanted = Wanted {
                at,
                size,
                signed,
                rd,
            };
            load(machine, hart, p, observer, wanted, fetches)
        }
        Effect::Store { at, size, value } => {
            store(machine, hart, p, observer, at, size, value, fetches)
        }
        Effect::Syscall => system_call(machine, p, observer, fetches),
        Effect::Break => {
            fault(
                machine,
                p,
                observer,
                FaultCode::Breakpoint,
                pc,
                None,
                fetches,
            )
        }
        Effect::Misaligned(target) => misaligned(machine, p, observer, target, fetches),
    }
}
