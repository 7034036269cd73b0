//! The parts of an instruction with a list of records: each appends what happens in it.
//!
//! `parts` of `kernel_core` tells any observer, and says what that keeps. A list keeps all. Nothing here knows how a part is
//! performed.
#![tactic(auto)]

mod parts;

pub use parts::{fault, kernel_op, move_cap, perform, receive, send};
