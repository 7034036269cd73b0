//! The words of the program: what they ask for.
//!
//! `clap` finds the form of the words and which word stands in which place of it. Numbers, kinds and
//! addresses are read here, and no text of `clap`'s own is printed. Nothing here knows what a command
//! does.
#![tactic(auto)]

mod command;
mod dashes;
mod forms;
mod laws;
mod matches;
mod places;
mod reading;

pub use command::{Command, RunCommand};
pub use laws::words_law;
pub use reading::read_command;
