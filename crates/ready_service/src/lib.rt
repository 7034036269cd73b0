//! Laws: whoever is ready is served in order. A ready process performs an event after as many dispatches from its queue as
//! it has a place in it.
//!
//! There is no code here. Each function has a law as its contract: of every state, and of every list of events. Nothing is
//! said of time, or of how often a hart comes to dispatch.
#![tactic(auto)]

ghost use Rattle.ready_service.specs.Laws.{ServedInOrder, HighestIsNext, FirstPerforms};

/// Among the first `n` of its ready queue, a process is served with the `n`-th dispatch from it at the latest, whatever others
/// do, unless it is stopped or destroyed before.
pub fn served_in_order()
    ensures { ServedInOrder }
{}

/// A hart that has no process takes one from the highest ready queue in which one stands: the first, who performs the event.
pub fn highest_is_next()
    ensures highest { HighestIsNext }
    ensures first { FirstPerforms }
{}
