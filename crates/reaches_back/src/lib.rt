//! Going backwards over numbered edges: from which nodes some edges lead to one of those that are marked.
//!
//! Each node has as many edges, and their ends are listed row by row. It knows numbers alone: nothing of what the nodes
//! stand for.
#![tactic(auto)]

mod backwards;

pub use backwards::reach_back;
