//! Fair rounds: whether every list of rounds from some nodes passes a goal, or else a cycle that
//! passes none, however often it is repeated, although each choice occurs in it.
//!
//! It works on tables of numbers, and doesn't know what nodes and choices stand for.
#![tactic(auto)]

mod arrivals;
mod breadth;
mod classes;
mod evading;
mod hints;
mod laws;
mod loops;
mod tables;
mod ways;

pub use evading::{Evasion, find_evasion};
pub use laws::{evasion_excludes_bounds, fair_schedules_pass, nodes_stand_for_states};
