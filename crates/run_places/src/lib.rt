//! Laws: the objects of a machine have all of their places for capabilities, from its start on.
//!
//! There is no code here. Each function has a law as its contract: of every listing, and of every list of events.
#![tactic(auto)]

ghost use Rattle.run_places.specs.Laws.{BootedHasPlaces, RunsKeepPlaces};

/// The objects of a machine have all of their places at its start, whatever the listing is that it boots from.
pub fn places_at_start()
    ensures { BootedHasPlaces }
{}

/// Objects that have all of their places have them after every run, whoever performs its events.
pub fn places_of_runs()
    ensures { RunsKeepPlaces }
{}
