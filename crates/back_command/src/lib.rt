//! The command `back N`: a schedule is run, its last events are undone, and the state before them is written.
//!
//! Nothing here knows the word that asks for it, or how an event is remembered.
#![tactic(auto)]

mod input;
mod running;
mod telling;
mod undoing;

pub use input::back;

/// How many events are remembered: the last of a run.
pub const DEPTH: u16 = 256;
