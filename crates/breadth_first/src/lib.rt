//! Breadth-first search over a space of states: whether a state is reached that violates a property, by a shortest
//! path, or none is, whatever the path.
//!
//! It knows a space by the trait `Space` alone: nothing of what its states are, nor how they are kept.
#![tactic(auto)]

mod answer;
mod answering;
mod asked;
mod counting;
mod edges;
mod ever;
mod exploring;
mod levels;
mod marks;
mod missing;
mod origins;
mod search;
mod space;

pub use answer::{Avoided, Count, Explored, Limits, Lost, Missed, Size, Want};
pub use exploring::explore;
pub use space::{Space, Watcher};
