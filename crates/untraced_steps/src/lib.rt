//! Steps of harts of which no trace is kept: the records of accesses and instructions are left out.
//!
//! What becomes of the machine is the same as event by event. As long as a hart's process runs in one page of its code,
//! which its translator keeps, the page is not looked for again. Nothing here knows of texts, or of how a translator keeps
//! what it keeps.
#![tactic(auto)]

mod code;
mod hart_steps;
mod kept;
mod running;

pub use hart_steps::HartSteps;
pub use running::run_untraced;
