//! The program `explore` as its `main` calls it: with its arguments and streams, from the words to the status.
#![tactic(auto)]

mod entry;

pub use entry::{run_and_flush, run_program};
