//! From which states a test can be come to.

ghost use Rattle.std.specs.Prelude.{◌≡◌, ◌<◌, ◌*◌, ℕ, map, length, IfOk, IfSome};
ghost use Rattle.breadth_first.specs.Progress.{Searched, IsOpened, AreAll, AreEdges, IsFirstStuck, IsFirstUnreached, MayLose};
ghost use Rattle.reaches_back.specs.Edges.{AreEdges as AreNumbered};

use crate::counting::first_mark;
use crate::search::Search;
use crate::{Lost, Missed, Space};
use reaches_back::reach_back;
use std::alloc::{AllocError, Global};

/// The first node from which no edges lead to one that is marked.
fn first_unreached(width: usize, ends: &[u32], marks: &mut [bool]) -> Option<usize>
    requires { AreNumbered width ends.now (length marks.old) }
    ensures { IsFirstUnreached width ends.now marks.old result }
{
    reach_back(width, ends, marks);
    first_mark(marks, false)
}

impl<S: Space> Search<S> {
    /// The index of the first state from which no choices lead to one that is marked.
    fn first_stuck(
        &self,
        alloc: Global,
        space: &S,
        marks: &[bool],
    ) -> Result<Option<usize>, AllocError>
        requires many { length marks.now ≡ length self.now.seen.keys }
        requires edges { AreEdges (S.system space.now) (map (S.means space.now) self.now.seen.keys)
            (length self.now.seen.keys * (S.system space.now).choices) self.now.edges.ends.items }
        ensures index { IfOk result (λ first. IfSome first
            (λ index. index < length self.now.seen.keys)) }
        ensures first { IfOk result (λ first. (t : ℕ)
            → marks.now
            ≡ map ((S.system space.now).test t) (map (S.means space.now) self.now.seen.keys)
            → IsFirstStuck (S.system space.now)
            (map (S.means space.now) self.now.seen.keys) t first) }
    {
        let mut marks = marks.to_vec(alloc)?;
        let width = space.choices() as usize;
        Ok(first_unreached(width, &self.edges.ends, &mut marks))
    }

    /// Whether a test can always be come to, or the first state from which it can't. It is what this one of the wants wants.
    pub(crate) fn lost(
        &self,
        alloc: Global,
        space: &S,
        limit: Option<usize>,
        want: usize,
        marks: &[bool],
    ) -> Result<Option<Missed>, AllocError>
        requires searched { Searched (S.system space.now) (S.held space.now) (S.means space.now)
            limit self.now.seen.keys self.now.origins.items }
        requires opened { IsOpened (S.system space.now)
            (map (S.means space.now) self.now.seen.keys) }
        requires all { AreAll (S.system space.now) (map (S.means space.now) self.now.seen.keys) }
        requires many { length marks.now ≡ length self.now.seen.keys }
        requires edges { AreEdges (S.system space.now) (map (S.means space.now) self.now.seen.keys)
            (length self.now.seen.keys * (S.system space.now).choices) self.now.edges.ends.items }
        ensures { IfOk result (λ missed. (t : ℕ)
            → marks.now
            ≡ map ((S.system space.now).test t) (map (S.means space.now) self.now.seen.keys)
            → MayLose (S.system space.now)
            (map (S.means space.now) self.now.seen.keys) t want missed) }
    {
        let Some(index) = self.first_stuck(alloc, space, marks)? else {
            return Ok(None);
        };
        let path = self.path(alloc, space, limit, index)?;
        Ok(Some(Missed::Lost(Lost { want, path })))
    }
}
