//! Laws: what shared leaf tables let a run fetch, and how many frames they use, by the run's touches alone.
//!
//! There is no code here. Each function has laws as its contract, which hold of lists of touches: of events, machines
//! and texts nothing is known.
#![tactic(auto)]

ghost use Rattle.shared_economy.specs.Laws.{BoundInEveryRun, FewerFrames, RoundBound, RoundEconomy, SharedEconomy};
ghost use Rattle.shared_economy.specs.Worked.{FramesAreShared};

/// Whatever is kept before them, touches fetch at most 32 slots for each access, and one for each slot that an
/// operation reads.
pub fn bound_in_every_run()
    ensures bound { BoundInEveryRun }
    ensures round { RoundBound }
{}

/// Touches that begin with nothing kept leave at most as many frames in use as the shared need counts, and at most 256.
pub fn fewer_frames()
    ensures { FewerFrames }
{}

/// Touches whose shared need fits, and that begin with nothing kept, leave exactly as many frames in use as the need
/// counts, and fetch at most 32 slots for each access that has to be walked, and one for each slot that an operation
/// reads. At their end each covered pair is held; and at no time was all forgotten for want of room.
pub fn shared_economy()
    ensures economy { SharedEconomy }
    ensures round { RoundEconomy }
{}

/// A worked value: two spaces that come to one GPT by guards of a region or more need three frames, and four where the
/// guards are smaller.
pub fn shared_frames()
    ensures { FramesAreShared }
{}
