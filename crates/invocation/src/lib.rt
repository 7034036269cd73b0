//! Invocations: what the registers of a process ask for, who answers, and what a delivery makes of the receiver.
//!
//! One message at a time. Nothing here knows of queues, of address spaces or of the bytes of a string.
#![tactic(auto)]

mod answering;
mod callee;
mod cap_list;
mod delivering;
mod fields;
mod invocation;
mod malformed;
mod message;
mod parsing;
mod register_list;
mod sending;

pub use answering::target;
pub use callee::Callee;
pub use cap_list::CapList;
pub use delivering::{acceptance, deliver};
pub use invocation::Invocation;
pub use malformed::MalformedSyscall;
pub use message::Message;
pub use parsing::{LONGEST_STRING, parse};
pub use register_list::RegisterList;
pub use sending::sent_by;
