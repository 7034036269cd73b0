//! Confinement: what a cut between two sides of a machine is, and the theorem that it is never crossed.
//!
//! A cut gives each object a side, and says of each side whether it may hold capabilities that are harmless across. It
//! holds where no object has a Range, where each capability that names an object of the other side is one that its holder's
//! side may so hold, and where each sleeper is of the side of the process on which it sleeps. Then an event that a process
//! of one side performs leaves every object of the other side as it is, who sleeps on its processes, in which order they
//! stand in each ready queue, and on which harts they are; and the cut holds again.
//!
//! `authority` has what of this is so of any set of objects, whatever all others hold, and `isolation` the theorem that one
//! side doesn't see the other.
//!
//! There is no code here but the type of a side. Each function has a law as its contract; the definitions are in `specs/`.
//! Nothing here knows how a cut or a set is written or looked at, or who goes next.
#![tactic(auto)]

ghost use Rattle.confinement.specs.Laws.{AccessLaw, AnswerLaw, ChangeLaw, OperationLaw, ReachLaw, PlainLaw};
ghost use Rattle.confinement.specs.Passing.{PassLaw};
ghost use Rattle.confinement.specs.Separation.{Separation};

pub mod authority;
mod cut_side;
pub mod isolation;

pub use cut_side::CutSide;

/// An access of a process ends at an object of its side, or at one that is read and no more; a fault's handler is one
/// that its side may hold.
pub fn access_law()
    ensures { AccessLaw }
{}

/// Who answers what a side holds is of that side, or one whom it may call.
pub fn answer_law()
    ensures { AnswerLaw }
{}

/// A permitted change stays on its side.
pub fn change_law()
    ensures { ChangeLaw }
{}

/// The changes of each operation are permitted, and the capability that it gives may be held.
pub fn operation_law()
    ensures { OperationLaw }
{}

/// An event of a process of a side that the cut holds for leaves it so; of all that isn't of that side it changes nothing but
/// those who may be told where it calls, and those who are woken.
pub fn reach_law()
    ensures { ReachLaw }
{}

/// Where nobody calls across, it changes nothing of all that isn't of that side.
pub fn plain_law()
    ensures { PlainLaw }
{}

/// An event of a plain process, of whose set all that stands in capability registers and capability pages may be passed on,
/// writes no capability but such as may be passed on, and none into a slot.
pub fn pass_law()
    ensures { PassLaw }
{}

/// Where a cut holds, then behind any events each event leaves the objects as they are that are not of the side of the
/// process which performs it, who sleeps on the processes that are not, their order in each ready queue and the harts that
/// they are on; and the cut holds afterwards. Where nobody performs it no object changes, and no sleeper; and nobody moves,
/// where its hart is one of the machine's.
pub fn separation()
    ensures { Separation }
{}
