//! Laws: along every run all that the objects hold stays in its ranges, and so each access of data is one in its ranges.
//!
//! There is no code here. The function has laws as its contract, which hold of every list of events, and of every state that
//! is in its ranges.
#![tactic(auto)]

ghost use Rattle.run_ranges.specs.Laws.{RunsAreAccesses, RunsKeepRanges};

/// What the objects hold stays in its ranges along every run, and each access of data of the run is over items in their
/// ranges, through a capability in its ranges that has no count, at an address of 32 bits.
pub fn ranges_of_runs()
    ensures kept { RunsKeepRanges }
    ensures accesses { RunsAreAccesses }
{}
