//! The whole program as one call, over any source, any sink and any counter.
//!
//! Nothing here knows of files, or of the machine on which the program runs.
#![tactic(auto)]

mod answering;
mod entry;
mod laws;
mod making;
mod program;

pub use courses::Exit;
pub use entry::{run_and_flush, run_program};
pub use laws::{confined_law, same_course_law};
pub use program::coyotos;
pub use schedule_replay::{Counts, Mode, Replayed, replay};
