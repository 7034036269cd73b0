//! The lines of a schedule, run on a machine as they are read, or counted.
//!
//! Nothing here knows of commands, or of what is written behind the records of a run.
#![tactic(auto)]

mod counting;
mod counts;
mod events;
mod lines;
mod mode;
mod performing;
mod replayed;
mod replaying;
mod telling;

pub use counting::count_lines;
pub use counts::Counts;
pub use events::Events;
pub use lines::{Stop, next_line};
pub use mode::Mode;
pub use replayed::Replayed;
pub use replaying::replay;
