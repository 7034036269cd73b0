//! The user machine: what one instruction of RV32I makes of the registers and the pc.
//!
//! Nothing here touches memory or knows of processes: a load, a store and a system call are
//! answers, which the caller carries out.
#![tactic(auto)]

mod action;
mod effect;
mod machine;
mod word;

pub use effect::Effect;
pub use machine::{Outcome, evaluate, finish_load, step};
pub use word::extended;
