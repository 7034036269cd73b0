//! Laws: what a run lets a mapping cache fetch. The touches of every run are what the laws on touches ask for.
//!
//! There is no code here. Each function has laws as its contract, which hold of every state and every list of events.
#![tactic(auto)]

ghost use Rattle.run_economy.specs.Laws.{RunsAreFollowed, RunsTellAges, RunsAreBound, RunsAreEconomic};

/// Along every run each access is over the items of its moment, and each change of an item is told in its event. So an
/// object's count changes only where that is told.
pub fn touches_of_runs()
    ensures follows { RunsAreFollowed }
    ensures ages { RunsTellAges }
{}

/// A run fetches at most 33 slots for each access, and one for each invocation of a GPT's capability, whatever is kept
/// before it. Where its need of frames and records fits, and nothing is kept before it, it is at most 33 for each access
/// that has to be walked, and one for each such invocation.
pub fn fetches_of_runs()
    ensures bound { RunsAreBound }
    ensures economy { RunsAreEconomic }
{}
