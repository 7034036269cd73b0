//! What a walk comes to: the kinds of access, the places they reach, the faults, and, in `specs/`,
//! the walk itself, its trail and the number of slots that it reads, as definitions over a map of objects.
//!
//! Nothing here walks: `walk_engine` does, and is proved against these. The law calls do nothing
//! when run; each says by its contract what every such walk obeys.
#![tactic(auto)]

mod at;
mod data_kinds;
mod kind;
mod laws;
mod noted;
mod place;
mod step;

pub use at::At;
pub use kind::Kind;
pub use laws::{
    block_law, frame_law, kind_law, page_law, place_law, reads_law, slots_law, space_frame_law,
};
pub use noted::Noted;
pub use place::{Place, WalkFault};
pub use step::Step;
