//! Instructions.
ghost use Rattle.std.specs.Prelude.{◌<◌, ◌≤◌, ◌+◌};
ghost use Rattle.cap_format.specs.declared.kind.CapKind.TheVariants.{Process};
ghost use Rattle.object_store.specs.Store.{size_of};
ghost use Rattle.schedules.specs.Queues.{QueuesValue};
ghost use Rattle.rv32_decode.specs.InRange.{InRange};
ghost use Rattle.rv32_decode.specs.Table.{insn_at};
ghost use Rattle.machine_state.specs.State.{state_of};
ghost use Rattle.machine_state.specs.Setters.{set_queues};
ghost use Rattle.kernel_core.specs.Instruction.{perform};
ghost use Rattle.kernel_core.specs.Event.{decoded_to, instruction};
ghost use Rattle.event_reach.specs.Reach.{names_of, Covers};
ghost use Rattle.event_reach.specs.Reads.{a_message, an_instruction};

use crate::faults::reach_of_fault;
use crate::memory::{reach_of_load, reach_of_store};
use crate::reach::Reach;
use crate::system_calls::reach_of_call;
use machine_state::Machine;
use rv32_decode::{Insn, decode};
use rv32_user::{Effect, evaluate};
use std::sync::ledger::Ledger;
use steps::Steps;
use walk_engine::Translator;
use walk_meaning::Kind;

/// One instruction of a process: its fetch, then what the word says.
#[tactic(auto, unfolding(kernel_core::specs::Event::instruction), using(crate::proofs::Covering::covers_process, walk_meaning::proofs::SlotsLaw::slots_law))]
pub(crate) fn reach_of_instruction<T: Translator, L: Ledger>(
    machine: &Machine<T>,
    p: u16,
    fetches: &mut Steps<L>,
) -> Reach
    requires { p < size_of machine.now.objects.items Process }
    ensures covers { (q : QueuesValue) →
        Covers (names_of result) (instruction (set_queues (state_of machine.now) q) p).changed }
    ensures least { fetches.old ≤ fetches.new }
    ensures most { fetches.new ≤ fetches.old + an_instruction }
{
    match machine.walk_data(p, machine.pc(p), Kind::Fetch, fetches) {
        Ok(hit) => reach_of_word(machine, p, machine.number_at(hit, 4), fetches),
        Err(why) => reach_of_fault(machine, p, why.handler),
    }
}

/// The word that was fetched.
fn reach_of_word<T: Translator, L: Ledger>(
    machine: &Machine<T>,
    p: u16,
    word: u32,
    fetches: &mut Steps<L>,
) -> Reach
    requires { p < size_of machine.now.objects.items Process }
    ensures covers { (q : QueuesValue) →
        Covers (names_of result) (decoded_to (set_queues (state_of machine.now) q) p (insn_at word)).changed }
    ensures least { fetches.old ≤ fetches.new }
    ensures most { fetches.new ≤ fetches.old + a_message }
{
    match decode(word) {
        Ok(insn) => reach_of_effect(machine, p, insn, fetches),
        Err(_) => reach_of_fault(machine, p, None),
    }
}

/// What an instruction leaves to be done.
#[tactic(auto, unfolding(kernel_core::specs::Instruction::perform), using(crate::proofs::Covering::covers_none))]
fn reach_of_effect<T: Translator, L: Ledger>(
    machine: &Machine<T>,
    p: u16,
    insn: Insn,
    fetches: &mut Steps<L>,
) -> Reach
    requires there { p < size_of machine.now.objects.items Process }
    requires insn { InRange insn }
    ensures covers { (q : QueuesValue) →
        Covers (names_of result) (perform (set_queues (state_of machine.now) q) p insn).changed }
    ensures least { fetches.old ≤ fetches.new }
    ensures most { fetches.new ≤ fetches.old + a_message }
{
    let outcome = evaluate(machine.registers(p), machine.pc(p), insn);
    match outcome.effect {
        Effect::Next(_) => Reach::Nothing,
        Effect::Load { at, size, .. } => reach_of_load(machine, p, at, size, fetches),
        Effect::Store { at, size, .. } => reach_of_store(machine, p, at, size, fetches),
        Effect::Syscall => reach_of_call(machine, p, fetches),
        Effect::Break => reach_of_fault(machine, p, None),
        Effect::Misaligned(_) => reach_of_fault(machine, p, None),
    }
}
