//! Laws: over each translator that there is, an access fetches at most what a fresh walk of it reads, whatever is kept.
//!
//! There is no code here. So what an event fetches, and a list of events and undos, is bounded where nothing is told of what a
//! translator keeps, as after an undo.
#![tactic(auto)]

ghost use Rattle.event_reach.specs.FreshWalks.{WalksAtMost};

use map_cache::MapCache;
use shared_leaves::SharedLeaves;
use walk_engine::{Plain, Translator};

/// Whatever it keeps, a translator fetches at most as many slots for an access as a fresh walk reads. So `most` of
/// `make_calls` of `reverse_run` bounds what lists of events and undos read over it.
pub fn walks_at_most()
    ensures plain { WalksAtMost ⟦<Plain as Translator>⟧.cost }
    ensures cached { WalksAtMost ⟦<MapCache as Translator>⟧.cost }
    ensures shared { WalksAtMost ⟦<SharedLeaves as Translator>⟧.cost }
{}
