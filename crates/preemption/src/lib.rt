//! Preemption: what holds of a machine with a hart for each process holds of the same machine with
//! any number of harts, whatever their timers do.
//!
//! In a machine with few harts a process waits for one, and a tick hands its hart to the next. In
//! a wide machine, with a hart for each process, who has a hart keeps it until it waits, receives,
//! faults, yields or is stopped. Beside each state of the narrow machine there is one of the wide
//! machine with the same objects. Each process that is on a hart of the narrow machine is on the
//! hart of its own number in the wide one, and so may be others that wait for a hart. One event of
//! the narrow machine is then at most one step of the wide one, and a tick is none. So what is
//! asked of all runs, and doesn't depend on where a process stands, may be asked of the wide
//! machine, and there of steps alone.
//!
//! The laws ask that each process that is on a hart of the wide machine runs and has a schedule:
//! without one, a process faults at a tick.
//!
//! A search goes over the wide machine by steps of its harts, or by runs of them, and asks that of
//! each state that it comes to. Then a test that it finds in none of them holds after no list of
//! steps and ticks of the few harts: `steps_law` and `runs_law`. It is enough to choose a process, and
//! to take its next step, or run, where it has a turn on the hart of its own number: `turns_law` and
//! `turn_runs_law`. Then no state comes again with its processes on other harts.
//!
//! There is no code here. Each function has a law as its contract; the definitions are in
//! `specs/`.
#![tactic(auto)]

ghost use Rattle.preemption.specs.Laws.{EventLaw, RunLaw, NeverLaw, StuckLaw};
ghost use Rattle.preemption.specs.Laws.{StartLaw, RestLaw, MoreLaw, SeesLaw};
ghost use Rattle.preemption.specs.Tested.{TestLaw, KeptLaw};
ghost use Rattle.preemption.specs.Searched.{StepsLaw, StepsWithinLaw, RunsLaw, RunsWithinLaw};
ghost use Rattle.preemption.specs.Searched.{TurnsLaw, TurnsWithinLaw};
ghost use Rattle.preemption.specs.Searched.{TurnRunsLaw, TurnRunsWithinLaw};

use quiet_runs::simulation_law;

/// One event of a machine with few harts is at most one step of a wide machine, with the same
/// records: the step of the hart of process `p`, which `p` performs. A tick is no step.
pub fn event_law()
    ensures { EventLaw }
{}

/// A run of a machine with few harts is a run of a wide machine, of such steps alone, with no more
/// steps than it has events.
pub fn run_law()
    ensures { RunLaw }
{}

/// A test that doesn't depend on places, and holds after no such run of the wide machine, holds
/// after no run of the machine with few harts.
pub fn never_law()
    ensures { NeverLaw }
{}

/// In the machine with few harts nobody goes on exactly where nobody does in the wide one.
pub fn stuck_law()
    ensures { StuckLaw }
{}

/// The wide machine may begin with each process that is on a hart moved to its own.
pub fn start_law()
    ensures { StartLaw }
{}

/// Where all harts are idle, it may begin with all its harts idle.
pub fn rest_law()
    ensures { RestLaw }
{}

/// Harts that take part in no event, and are idle, change no run. So what sets a machine up may be
/// run in the wide machine already.
pub fn more_law()
    ensures { MoreLaw }
{}

/// What the laws ask of a state of the wide machine depends on nothing that a quiet step changes.
pub fn sees_law()
    ensures { SeesLaw }
{}

/// Whether a state is as the laws ask can be tested. In a machine it is enough to test that each
/// process that is on a hart has a schedule.
pub fn test_law()
    ensures is { TestLaw }
    ensures kept { KeptLaw }
{}

/// Where all states to which steps of the wide machine lead are safe, what is tested holds after no
/// steps and ticks of the few harts. So it is with so many of both at most.
pub fn steps_law()
    ensures always { StepsLaw }
    ensures within { StepsWithinLaw }
{}

/// So it is where the states are those to which runs lead: a step, and quiet steps after it.
pub fn runs_law()
    ensures always { RunsLaw }
    ensures within { RunsWithinLaw }
{
    simulation_law();
}

/// So it is where the states are those to which choices of processes lead: each takes the step of the
/// hart of its own number where it would perform that, and otherwise nothing.
pub fn turns_law()
    ensures always { TurnsLaw }
    ensures within { TurnsWithinLaw }
{}

/// So it is where each takes a run of that hart: a step, and quiet steps after it.
pub fn turn_runs_law()
    ensures always { TurnRunsLaw }
    ensures within { TurnRunsWithinLaw }
{}
