//! The lines that say what objects are: a count, bytes of a page, a slot, a GPT, an endpoint, a process, a register.
//!
//! Nothing here knows which lines a listing has, when a line is left out, or where a line goes.
#![tactic(auto)]

mod memory;
mod processes;

pub use memory::{push_gpt, push_held, push_offset, push_page};
pub use processes::{push_count, push_endpoint, push_process_front, push_register};
