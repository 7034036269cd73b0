//! What an event may change: the objects, besides processes, that are found before it is performed.
//!
//! Each call looks at a machine and leaves it as it is, and what its translator keeps. It walks where the event will walk,
//! or asks for a page that is kept, and finds at least the objects that the outcome of its part names, or exactly those of
//! a plain instruction. Nothing here knows of copies, or of what becomes of an object.
#![tactic(auto)]

mod accesses;
mod events;
mod faults;
mod instructions;
mod invoking;
mod memory;
mod operating;
mod plain;
mod reach;
mod sending;
mod strings;
mod system_calls;

pub use events::reach_of_event;
pub use plain::{PlainInsn, plain_of_event};
pub use reach::Reach;
