//! Kernel operations as data: what each request to a capability refuses, changes and replies, in one shape.
//!
//! The table stands in `specs`; the code here is what those who do the operations share. Nothing here does one.
#![tactic(auto)]

mod replies;
mod weak;

pub use replies::{done, hand_over, item_changed, refuse, tell};
pub use weak::read_through;
