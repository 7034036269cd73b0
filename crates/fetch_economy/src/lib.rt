//! Laws: what a mapping cache lets a run fetch, by the run's touches alone.
//!
//! There is no code here. Each function has laws as its contract, which hold of every list of touches: of events, machines
//! and texts nothing is known.
#![tactic(auto)]

ghost use Rattle.fetch_economy.specs.Laws.{BoundInEveryRun, RoundBound, FetchEconomy, RoundEconomy, CoveredHaveEntries};
ghost use Rattle.fetch_economy.specs.Worked.{RewritesAreCheap, ChangesAreSelective};

/// Whatever is kept before them, touches fetch at most 32 slots for each access, and one for each slot that an operation
/// reads.
pub fn bound_in_every_run()
    ensures bound { BoundInEveryRun }
    ensures round { RoundBound }
{}

/// Touches whose need of frames and records fits, and that begin with nothing kept, fetch at most 32 slots for each access
/// that has to be walked, and one for each slot that an operation reads. At their end each covered pair is held, and so has
/// an entry in the tables; and at no time was all forgotten for want of room.
pub fn fetch_economy()
    ensures economy { FetchEconomy }
    ensures round { RoundEconomy }
    ensures entries { CoveredHaveEntries }
{}

/// A worked value: a process that rewrites a slot of a GPT outside of its own space, however often, needs two frames and
/// seven records, and one of its fetches is walked.
pub fn unrelated_rewrites()
    ensures { RewritesAreCheap }
{}

/// A worked value: changes of two items take out the pair of one page of a space and that of another space, and leave a
/// third.
pub fn selective_changes()
    ensures { ChangesAreSelective }
{}
