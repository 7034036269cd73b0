//! Authority: what an event changes, its performer could name.
//!
//! A set of objects is bounded where each capability that stands in one of them names one of them, or is harmless where such
//! are allowed, or is a Page of some pages that may be written besides; where none is a Range; and where its processes and
//! no others sleep on its processes. Then an event that a process of the set performs changes objects of the set and bytes
//! of those pages, no other object, and nobody else's sleepers or place; and the set is bounded again. What all other
//! objects hold plays no part.
//!
//! There is no code here. Each function has a law as its contract; the definitions are in `specs/`. Nothing here knows how
//! a set is written or looked at, or who else there is.

ghost use Rattle.confinement.specs.authority.Laws.{BoundsLaw, BesideLaw, FamilyLaw};

/// An event of a process of a bounded set stays within the set, and leaves it bounded.
pub fn bounds()
    ensures { BoundsLaw }
{}

/// What stays within one set leaves another bounded that has no object in common with it.
pub fn beside()
    ensures { BesideLaw }
{}

/// Where sets are bounded that have no object in common, and each process is of one of them, they are so behind any events,
/// and each event stays within the set of the process that performs it.
pub fn family()
    ensures { FamilyLaw }
{}
