//! The command `share`: a schedule is run over leaf tables that are shared between spaces, and behind its records stands how
//! many frames these use at the end.
//!
//! Nothing here knows the word that asks for it, or what shared leaf tables keep.
#![tactic(auto)]

mod input;
mod telling;

pub use input::share;
