//! Walks: from a space, through guards, GPTs and windows, to the page or the slot that an address
//! names; and translators, which may remember where walks ended.
//!
//! `walk` takes a walk whole. A translator that needs what a walk meets on its way takes it capability by capability,
//! by the calls of `on_way` and by `step`.
//!
//! A walk reads headers and slots of GPTs, and counts each slot. It changes no object. Nothing here
//! knows of processes, or of how a cache is kept.
#![tactic(auto)]

mod hit;
mod laws;
mod met;
mod on_way;
mod plain;
mod translator;
mod walking;

pub use hit::Hit;
pub use laws::window_law;
pub use met::step;
pub use on_way::{Trail, note_header, note_slot, read_next, start_at, told};
pub use plain::Plain;
pub use translator::Translator;
pub use walking::walk;
