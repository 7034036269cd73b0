//! The commands that read a schedule: `check`, `run`, `trace`, `tables` and `walk`, and what `make N summary` runs.
//!
//! Nothing here knows the words that ask for a command, or where the bytes of its input come from.
#![tactic(auto)]

mod command;
mod counting;
mod finishing;
mod input;
mod schedule;
mod tables;

pub use command::ScheduleCommand;
pub use counting::check;
pub use input::answer_schedule;
