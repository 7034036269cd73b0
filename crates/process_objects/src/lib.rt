//! Processes: a user machine's registers with the capabilities that it holds.
//!
//! One process at a time. Nothing here knows of instructions, of queues or of messages.
#![tactic(auto)]

mod accept;
mod process;
mod state;
mod wait;

pub use accept::Accept;
pub use process::Process;
pub use state::State;
pub use wait::Wait;
