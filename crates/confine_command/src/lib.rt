//! The command `confine`: whether a stated cut keeps the two sides of a listing's machine apart.
//!
//! It reads a listing and then the lines of a cut, runs nothing, and tells what is found. Nothing here knows the word that
//! asks for it.
#![tactic(auto)]

mod checking;
mod input;
mod laws;
mod lines;

pub use input::confine;
pub use laws::{awake_law, decided_law};
