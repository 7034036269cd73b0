//! Isolation: what one side of a cut is told and has depends on the other side in nothing but when its turns come.
//!
//! This side may hold no capability that names an object of the other, a harmless one neither. The other side may hold
//! harmless ones: it may read this side, and still isn't seen by it. Two machines are run whose objects of this side are
//! the same, whatever the other side holds in each. Where both give the processes of this side the same turns in the same
//! order, whatever the other side does before, between and after them, all that is told of this side is the same, and so
//! are its objects in the end. Where neither side may hold anything across, each is isolated from the other.
//!
//! The theorem speaks of each moment, since the runs are any two lists of events. A turn is an instruction or a tick, and
//! on which hart a process has it makes no difference. That the turns are the same is a premise, for two reasons. Ready
//! queues are shared: who waits there, and under which priority, says who goes next, so the other side can delay this one
//! for as long as it likes, and on several harts change the order of its turns. And a process of either side that holds
//! SysCtl can halt the machine, which ends all turns. Nothing is said of time, of how many slots are fetched, or of what
//! a mapping cache keeps; and the log that is written is that of both sides, in the order of their events.
//!
//! There is no code here. Each function has a law as its contract; the definitions are in `specs/`.

ghost use Rattle.machine_state.specs.State.{state_of};
ghost use Rattle.confinement.specs.declared.cut_side.CutSide.{CutSide};
ghost use Rattle.confinement.specs.Cut.{Cut};
ghost use Rattle.confinement.specs.isolation.Agree.{Apart};
ghost use Rattle.confinement.specs.isolation.Laws.{SameAccess, Unseen, SameTurn, AllTold};
ghost use Rattle.confinement.specs.isolation.Isolation.{Isolated, Isolation};

use machine_state::Machine;
use walk_engine::Translator;

/// An access through a space that this side may hold comes to the same in two states that agree on this side.
pub fn access_law()
    ensures { SameAccess }
{}

/// An event that no process of this side performs isn't seen on this side.
pub fn unseen_law()
    ensures { Unseen }
{}

/// The same turn of a process of this side tells the same in two states that agree on this side, and leaves them so.
pub fn turn_law()
    ensures { SameTurn }
{}

/// All records of a run are those told of the one side merged with those told of the other.
pub fn told_law()
    ensures { AllTold }
{}

/// In two runs that give this side's processes the same turns, the same is told of this side, and its objects end the
/// same.
pub fn isolation()
    ensures { Isolation }
{}

/// The theorem of two machines, over any translators: each cut that holds in both, over which one side may hold nothing, and
/// on that side of which they agree, isolates this side from the other, whatever events follow in either.
pub fn isolated<T: Translator, U: Translator>(_first: &Machine<T>, _second: &Machine<U>)
    ensures { (cut : Cut) (side : CutSide) →
        Apart cut side (state_of _first.now) (state_of _second.now) →
        Isolated cut side (state_of _first.now) (state_of _second.now) }
{}
