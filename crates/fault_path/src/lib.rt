//! Faults and messages: who hears a fault, and what becomes of the process and of who is told.
//!
//! A fault that is heard is a message. `message_path` has who is told of a message, who waits and who listens, and knows
//! nothing of faults. Nothing here knows of strings, of the registers of a call, of how a fault came about, or of what is
//! recorded.
#![tactic(auto)]

mod faults;
mod handlers;
pub mod message_path;
mod outcome;

pub use faults::deliver_fault;
pub use handlers::handler;
pub use outcome::Outcome;
