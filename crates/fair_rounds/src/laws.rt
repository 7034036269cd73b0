//! Laws of rounds, of nodes that stand for states, and of schedules without end.

ghost use Rattle.fair_rounds.specs.Laws.{BoundsLaw, ComesLaw, EvadesLaw, FairLaw};

/// Where the goals can be evaded, no number of rounds always passes one.
pub fn evasion_excludes_bounds<S>()
    ensures { BoundsLaw S }
{}

/// What holds of numbered nodes holds of the states for which they stand.
pub fn nodes_stand_for_states<S>()
    ensures comes { ComesLaw S }
    ensures evades { EvadesLaw S }
{}

/// Where so many rounds pass a goal, each fair schedule without end does.
pub fn fair_schedules_pass<S>()
    ensures { FairLaw S }
{}
