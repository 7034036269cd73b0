//! The first of the events that are left, performed and counted.
ghost use Rattle.std.specs.Prelude.{◌≢◌, ◌<◌, ◌≤◌, ◌^◌, ◌∷◌, List, length};
ghost use Rattle.machine_state.specs.declared.event.Event.{Event as AnyEvent};
ghost use Rattle.machine_state.specs.declared.event.Event.TheVariants.{Step};
ghost use Rattle.kernel_core.specs.Machine.{hart_in};
ghost use Rattle.schedule_replay.specs.Counts.{AreAtMost};
ghost use Rattle.schedule_replay.specs.Events.{OfHarts, left, steps_left};
ghost use Rattle.schedule_replay.specs.First.{RunsFirst};

use crate::counts::{Counts, count_events};
use crate::events::Events;
use crate::mode::Mode;
use kept_pages::PageTranslator;
use kernel_core::{Event, Machine, Notable, Records, event_into};
use std::sync::ledger::Ledger;
use steps::Steps;
use untraced_steps::{HartSteps, run_untraced};
use walk_engine::Translator;

/// Performs and counts this event, and where no trace is written some of the steps behind it. None but the last of them
/// tells anything that the mode names. What they told is left in the list of records, of which, where no trace is written,
/// those of accesses and instructions may be missing. The caches of harts that perform none of them hold no more than before.
pub(crate) fn perform<T: PageTranslator, L: Ledger>(
    event: Event,
    events: &mut Events,
    mode: Mode,
    machine: &mut Machine<T>,
    records: &mut Notable,
    counts: &mut Counts,
    fetches: &mut Steps<L>,
)
    requires harts { OfHarts machine.old.objects.harts (event ∷ left events.old) }
    requires few { length (left events.old) ≤ 255000000 }
    requires room { AreAtMost (2 ^ 62) counts.old }
    ensures { RunsFirst T.kept T.cost T.after T.without T.cache T.less
        mode (event ∷ left events.old) (left events.new)
        machine.old fetches.old machine.new fetches.new records.new.records counts.old counts.new }
{
    match mode {
        Mode::Trace => perform_one(event, machine, &mut records.records, counts, fetches),
        Mode::Silent | Mode::Records => match (event, events) {
            (Event::Step(hart), Events::StepsLeft(steps)) => {
                perform_steps(hart, steps, machine, records, counts, fetches)
            }
            _ => perform_one(event, machine, &mut records.records, counts, fetches),
        },
    }
}

/// Performs and counts this event.
fn perform_one<T: Translator, L: Ledger>(
    event: Event,
    machine: &mut Machine<T>,
    records: &mut Records,
    counts: &mut Counts,
    fetches: &mut Steps<L>,
)
    requires hart { hart_in event < machine.old.objects.harts }
    requires room { AreAtMost (2 ^ 62) counts.old }
    ensures { (mode : Mode) (behind : List AnyEvent) →
        RunsFirst T.kept T.cost T.after T.without T.cache T.less mode (event ∷ behind) behind
        machine.old fetches.old machine.new fetches.new records.new counts.old counts.new }
{
    event_into(machine, event, records, fetches);
    *counts = count_events(*counts, 1, records.as_slice());
}

/// Performs and counts a step of this hart, and some of those that are left. No trace is kept.
fn perform_steps<T: PageTranslator, L: Ledger>(
    hart: u8,
    steps: &mut HartSteps,
    machine: &mut Machine<T>,
    records: &mut Notable,
    counts: &mut Counts,
    fetches: &mut Steps<L>,
)
    requires harts { OfHarts machine.old.objects.harts (Step hart ∷ steps_left steps.old) }
    requires few { length (steps_left steps.old) ≤ 255000000 }
    requires room { AreAtMost (2 ^ 62) counts.old }
    ensures { (mode : Mode) → mode ≢ Mode.Trace →
        RunsFirst T.kept T.cost T.after T.without T.cache T.less
        mode (Step hart ∷ steps_left steps.old) (steps_left steps.new)
        machine.old fetches.old machine.new fetches.new records.new.records counts.old counts.new }
{
    let done = run_untraced(machine, hart, steps, records, fetches);
    *counts = count_events(*counts, done, records.records.as_slice());
}
