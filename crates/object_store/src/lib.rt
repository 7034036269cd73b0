//! All objects of a machine: pages, capability pages, GPTs, processes and endpoints, with their allocation counts.
//!
//! It knows which capabilities are live, and nothing of walks, queues or harts. All storage is taken at the start.
#![tactic(auto)]

mod cap_places;
mod counts;
mod laws;
mod objects;
mod sizes;
mod tables;

pub use cap_places::{cap_in, places, size};
pub use laws::{destruction_means, difference_laws, none_comes_ahead, reads_mean, writes_mean};
pub use objects::{CountSpent, NoObject, Objects};
pub use sizes::Sizes;
