//! What passes from one process to another, with its records: faults, strings, messages, and those who wait or listen.
//!
//! Each call is a part of an event of a process that stands on a hart. Nothing here knows of instructions, of which call a
//! process makes, or of operations of the kernel.
#![tactic(auto)]

mod faults;
mod laws;
mod sending;
mod string_fault;
mod strings;
mod telling;
mod waiting;

pub use faults::{fault, malformed, misaligned};
pub use laws::few_records;
pub use sending::send_open;
pub use string_fault::StringFault;
pub use strings::{Found, access_string};
pub use waiting::{listen, wait_on};
