//! The laws of verdicts. The calls change nothing: what they say holds for all objects and queues, or for any machine.
ghost use Rattle.std.specs.Prelude.{◌≡◌, ◌↔◌};
ghost use Rattle.machine_state.specs.State.{state_of};
ghost use Rattle.confinement.specs.Cut.{Cut, IsClosed, Holds};
ghost use Rattle.confinement.specs.Acts.{system_of};
ghost use Rattle.confine_check.specs.declared.verdict.Breach.{Breach};
ghost use Rattle.confine_check.specs.declared.verdict.Verdict.TheVariants.{Yes};
ghost use Rattle.confine_check.specs.Breach.{broken_by};
ghost use Rattle.confine_check.specs.Found.{IsFirstBreach, verdict_in};
ghost use Rattle.confine_check.specs.Laws.{VerdictLaw};

use crate::checking::tell_full;
use machine_state::Machine;
use walk_engine::Translator;

/// Nothing breaks a cut exactly where it holds.
pub fn verdict_law()
    ensures { VerdictLaw }
{}

/// What is found of the state of a machine, by any cut over which nobody calls: nothing exactly where the cut holds, and a
/// capability only where it is the first that breaks it.
pub fn verdict_in_law<T: Translator>(machine: &Machine<T>)
    ensures exactly { (cut : Cut) → IsClosed cut →
        (verdict_in cut (state_of machine.now) ≡ Yes) ↔ Holds cut (system_of (state_of machine.now)) }
    ensures first { (cut : Cut) (found : Breach) → IsClosed cut →
        verdict_in cut (state_of machine.now) ≡ broken_by found →
        IsFirstBreach cut (state_of machine.now).store found }
{
    tell_full(machine.objects());
}
