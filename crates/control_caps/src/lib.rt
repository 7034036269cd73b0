//! Kernel operations of Null, endpoints, processes, schedules, Range and Discrim.
//!
//! What each request does is a row of `operations`. Nothing here knows who asks, or what becomes of the reply: a process
//! that is asked may be the one that asks.
#![tactic(auto)]

mod control;
mod destruction;
mod endpoints;
mod processes;
mod registers;
mod values;

pub use control::invoke;
