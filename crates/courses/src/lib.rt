//! What a command comes to: the records that it writes, its last text, its exit and the slots that it fetches.
//!
//! Nothing here knows which commands there are, or of the words that ask for them.
#![tactic(auto)]

mod ending;
mod exit;
mod flushing;
mod head;
mod stopped;

pub use ending::{conclude, end_with};
pub use exit::Exit;
pub use flushing::flush_after;
pub use head::read_head;
pub use stopped::{counts_or_exit, schedule_exit};
