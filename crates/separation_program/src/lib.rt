//! The program `separation` as one call, over any source, any sink and any counter: whether a policy holds of the machine of
//! a listing, set up by a schedule.
//!
//! Nothing here knows of files, or how it is found out whether a policy holds.
#![tactic(auto)]

mod crossing;
mod entry;
mod input;
mod judging;
mod laws;
mod least_lines;
mod lines;
mod names;
mod program;
mod relation;
mod telling;
mod unused;
mod words;

pub use courses::Exit;
pub use entry::{run_and_flush, run_program};
pub use laws::{fed_back_law, judged_law, least_law};
pub use program::separation;
