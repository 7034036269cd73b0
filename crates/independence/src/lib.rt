//! Independence: what processes have to themselves, which steps stay there, and that these may be taken before or after what the
//! others do.
//!
//! A cut shows what some processes have to themselves: they are on its left, with pages and GPTs that no capability on the right
//! names, weakly neither. They run, and nobody else holds a capability to one; only an endpoint may name one as its recipient,
//! which then is busy and no more. An event of another process finds nothing of it and leaves it as it is, and does the same
//! whatever stands there. A step of such a process is quiet where its instruction ends without a system call, a breakpoint or a
//! fault, and reads and writes nothing but what the process has to itself, by walks that go through no GPT but its own. It may also
//! read pages that are settled: each capability that names one is RO, and nobody holds a Range, so nobody can change it, for good. The
//! step does the same in each state that has the same there.
//!
//! There is no code here. Each function has a law as its contract; the definitions are in `specs/`.
#![tactic(auto)]

ghost use Rattle.independence.specs.Settled.{SettledLaw};
ghost use Rattle.independence.specs.Laws.{LeftLaw, BlindLaw, QuietLaw, IndependenceLaw, HartsApart};

/// An event of others leaves what is on the left as it is, and theirs alone who have it.
pub fn left_law()
    ensures { LeftLaw }
{}

/// An event of others does the same whatever is on the left.
pub fn blind_law()
    ensures { BlindLaw }
{}

/// No event changes a page that is settled, and it stays so.
pub fn settled_law()
    ensures { SettledLaw }
{}

/// A quiet step rewrites nothing but what is on the left, and does the same wherever that is the same.
pub fn quiet_law()
    ensures { QuietLaw }
{}

/// A quiet step and an event of others may be taken in either order.
pub fn independence_law()
    ensures { IndependenceLaw }
{}

/// Steps of two harts, of which one is quiet: the other is of others, and what is quiet after it was so before.
pub fn harts_apart()
    ensures { HartsApart }
{}
