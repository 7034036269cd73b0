//! The states of a machine, of which the first was seen.
ghost use Rattle.std.specs.Prelude.{◌≡◌, ◌+◌, ◌≤◌, IfOk};
ghost use Rattle.object_store.specs.Store.{sizes_of};
ghost use Rattle.machine_state.specs.State.{state_of};
ghost use Rattle.state_parts.specs.Space.{Held, state_in};
ghost use Rattle.state_choices.specs.Slots.{all_slots};

use cap_format::OutOfMemory;
use machine_state::Machine;
use map_cache::MapCache;
use state_parts::{Key, States};
use std::alloc::Global;
use std::sync::ledger::Ledger;
use steps::Steps;

/// The states that were seen of a machine, and the key of the one from which choices start.
#[derive(Drop)]
pub(crate) struct Begun {
    pub(crate) states: States,
    pub(crate) start: Key,
}

/// The states of a machine: the one in which it is was seen.
pub(crate) fn begun_of<L: Ledger>(
    alloc: Global,
    machine: Machine<MapCache>,
    fetches: &mut Steps<L>,
) -> Result<Begun, OutOfMemory>
    ensures sizes { IfOk result (λ begun. begun.states.tables.sizes ≡ sizes_of machine.objects) }
    ensures held { IfOk result (λ begun. Held begun.states.tables begun.start) }
    ensures means { IfOk result (λ begun. state_in begun.states.tables begun.start ≡ state_of machine) }
    ensures least { fetches.old ≤ fetches.new }
    ensures most { let all = all_slots (state_of machine) in fetches.new ≤ fetches.old + all + all }
{
    let mut states = States::new(alloc, machine, fetches)?;
    let start = states.key(fetches)?;
    Ok(Begun { states, start })
}
