//! Quiet runs: a step of a hart with its quiet steps after it, and the law that nothing is lost where harts are run so.
//!
//! Who goes over all interleavings of several programs may let each hart go on over its quiet steps at once. Whatever steps of
//! harts lead from a state, runs of harts lead to a state in which the same holds of all that a quiet step can't change. The
//! number of quiet steps of a run may be any, and may depend on the state.
//!
//! What must come is asked of rounds, which are lists of harts in which each occurs. A run has at
//! most so many steps, so that many rounds of steps begin a round of runs: what comes within rounds
//! of runs comes within that many times as many rounds of steps. And where a cycle of runs leads
//! back and nothing comes, nothing comes in its steps.
//!
//! Nothing is said of ticks. A process that is ahead by its quiet steps may stand in front of one that isn't quiet. Where a tick
//! takes it off its hart, the run would have to put it back and leave that step undone; but who is dispatched performs a step in
//! the same event.
//!
//! Which steps are quiet is found by who comes to an object by capabilities (`reached_by`): a process that nobody else names has to
//! itself what nobody else comes to. What others may read too, but nobody can write any more, is settled; a step that reads it is
//! quiet where the process comes to it by what is its own. Where anybody holds a Range, or a window that leads to a background, none is found: by these
//! one comes to objects that no chain of capabilities names.
//!
//! There is no code here. Each function has a law as its contract; the definitions are in `specs/`.
#![tactic(auto)]

ghost use Rattle.quiet_runs.specs.Laws.{SimulationLaw, NeverLaw, EverLaw, HeldLaw};
ghost use Rattle.quiet_runs.specs.Laws.{FoundLaw, WithinFoundLaw, SettledFoundLaw};
ghost use Rattle.quiet_runs.specs.RoundLaws.{BegunLaw, PassingLaw, MustLaw, AlwaysLaw};
ghost use Rattle.quiet_runs.specs.RoundLaws.{LassoLaw, EvasionLaw, ShortLaw};

mod reached_by;

pub use reached_by::ReachedBy;

/// Each list of steps has a list of runs that leads to the same, but for quiet steps that are missing.
pub fn simulation_law()
    ensures { SimulationLaw }
{}

/// The runs that a list of steps begins are such a list.
pub fn begun_law()
    ensures { BegunLaw }
{}

/// What the runs that steps begin pass, the steps pass.
pub fn passing_law()
    ensures { PassingLaw }
{}

/// What holds after no list of runs holds after no list of steps.
pub fn never_law()
    ensures { NeverLaw }
{}

/// What can come to hold after each list of runs can come to hold after each list of steps.
pub fn ever_law()
    ensures { EverLaw }
{}

/// What comes within rounds of runs comes within rounds of steps, so many times as many as a run
/// has steps at most.
pub fn must_law()
    ensures here { MustLaw }
    ensures always { AlwaysLaw }
{}

/// A cycle of runs that leads back and passes no goal is such a cycle of steps.
pub fn lasso_law()
    ensures lasso { LassoLaw }
    ensures evasion { EvasionLaw }
{}

/// The steps that are found to be quiet are.
pub fn found_law()
    ensures { FoundLaw }
{}

/// A page that is found to be settled is, and the steps that are found are quiet, however many are
/// counted. A fetch or a load from a settled page, by GPTs of the process's own, is as quiet as one
/// from a page of its own.
pub fn settled_law()
    ensures page { SettledFoundLaw }
    ensures step { WithinFoundLaw }
{}

/// No more than 4,096 are found, one after the other.
pub fn short_law()
    ensures { ShortLaw }
{}

/// A quiet step moves no capability, and leaves what each access of data comes to.
pub fn held_law()
    ensures { HeldLaw }
{}
