//! Events.
ghost use Rattle.std.specs.Prelude.{◌<◌, ◌≤◌, ◌+◌};
ghost use Rattle.machine_state.specs.State.{state_of};
ghost use Rattle.machine_state.specs.Machine.{hart_in};
ghost use Rattle.kernel_core.specs.Event.{event_of};
ghost use Rattle.event_reach.specs.Reach.{names_of, Covers};
ghost use Rattle.event_reach.specs.Reads.{an_instruction};

use crate::instructions::reach_of_instruction;
use crate::reach::Reach;
use machine_state::{Event, Machine};
use std::sync::ledger::Ledger;
use steps::Steps;
use walk_engine::Translator;

/// What an event may change, besides processes: every other object that its outcome names is found. Where the machine is
/// halted, or its hart has and takes no process, that is nothing.
///
/// It walks as the event will, and counts the slots that it reads.
#[tactic(auto, unfolding(kernel_core::specs::Event::event_by), using(crate::proofs::Covering::covers_none, crate::proofs::Covering::covers_on))]
pub fn reach_of_event<T: Translator, L: Ledger>(
    machine: &Machine<T>,
    e: Event,
    fetches: &mut Steps<L>,
) -> Reach
    requires { hart_in e < machine.now.objects.harts }
    ensures covers { Covers (names_of result) (event_of (state_of machine.now) e).changed }
    ensures least { fetches.old ≤ fetches.new }
    ensures most { fetches.new ≤ fetches.old + an_instruction }
{
    if machine.halted() {
        return Reach::Nothing;
    }
    match e {
        Event::Step(hart) => match machine.queues().next_on(hart) {
            Some(p) => reach_of_instruction(machine, p, fetches),
            None => Reach::Nothing,
        },
        Event::Tick(_) => Reach::Nothing,
    }
}
