//! The states of a machine, kept by parts: each object as it ever stood once, who stands where once, and a state by the numbers
//! of its parts.
//!
//! It knows how to go from one state to another and what an event leaves as it was. Nothing here knows of choices, of
//! questions or of a search.
#![tactic(auto)]

mod board;
mod fetched;
mod going;
mod key;
mod lists;
mod look;
mod marking;
mod names;
mod performing;
mod showing;
mod standing;
mod stands;
mod states;

pub use key::Key;
pub use standing::Standing;
pub use states::States;
